// Rule files from solver people: a DIMACS CNF file is read into a lent room of words as a hall sheet in which every cost is 1. 02,
// request 2.
//
// The file is read twice: first its header (lead, header), its two counts (counts) and its clauses (clauses) are looked at, and nothing
// is written; then the sheet is put into the room (counts, clauses). So the room is unchanged on every refusal. Tokens and their
// values are those of `typed` (number).
#![tactic(auto)]

ghost use Rattle.std.specs.Prelude.{◌≡◌, ◌≤◌};
ghost use Rattle.dimacs.specs.File.{limit_of};
ghost use Rattle.dimacs.specs.Contract.{Files};

mod clauses;
mod counts;
mod header;
mod lead;
mod number;

use clauses::{fill, scan};
use counts::{counts_at, put_counts};
use header::header_end;
use refusals::{Kind, Refusal, Refused, tell_code};
use typed::Mistake;

// The kinds of refusal: those of a typed text; those of a sheet; no header; a clause missing or not closed; a token behind the last
// clause declared.
#[derive(Clone, Copy, PartialEq, Eq)]
pub enum Flaw {
    Text(Mistake),
    Sheet(Refusal),
    NoHeader,
    NotClosed,
    ExtraToken,
}

impl From<Mistake> for Flaw {
    ghost use Rattle.dimacs.specs.declared.Flaw.TheVariants.{Text};

    ghost from_gives = { λ mistake flaw. flaw ≡ Text mistake };

    fn from(mistake: Mistake) -> Flaw {
        Flaw::Text(mistake)
    }
}

impl From<Refusal> for Flaw {
    ghost use Rattle.dimacs.specs.declared.Flaw.TheVariants.{Sheet};

    ghost from_gives = { λ refusal flaw. flaw ≡ Sheet refusal };

    fn from(refusal: Refusal) -> Flaw {
        Flaw::Sheet(refusal)
    }
}

impl Kind for Flaw {
    ghost use Rattle.dimacs.specs.File.{flaw_numbers};

    ghost told = { flaw_numbers };

    fn tell(self, place: usize, numbers: &mut [u64; 4]) -> usize {
        match self {
            Flaw::Text(kind) => kind.tell(place, numbers),
            Flaw::Sheet(kind) => kind.tell(place, numbers),
            Flaw::NoHeader => tell_code(31, place, numbers),
            Flaw::NotClosed => tell_code(32, place, numbers),
            Flaw::ExtraToken => tell_code(33, place, numbers),
        }
    }
}

// What the header declares: how many variables and how many clauses; and the place behind it.
#[derive(Clone, Copy)]
struct Declared {
    variables: u32,
    clauses: u32,
    end: usize,
    ghost devices: { variables ≤ 200 },
    ghost rules: { clauses ≤ 2000 },
}

// The most words that a sheet may have in a room of so many.
fn limit_of(room: usize) -> usize
    ensures { result ≡ limit_of room }
{
    room.min(16384)
}

// The sheet of a file goes to the front of the room, and its length is returned; where the file is refused, the room stays as it was.
pub fn read(text: &[u8], room: &mut [i32]) -> Result<usize, Refused<Flaw>>
    ensures { Files text.now room.old result room.new }
{
    if 60000 < text.len() {
        return Err(Refused {
            kind: Mistake::TooLong.into(),
            place: 60000,
        });
    }
    let limit = limit_of(room.len());
    let header = header_end(text)?;
    let declared = counts_at(text, header, limit)?;
    let words = scan(text, declared, limit)?;
    put_counts(declared, room);
    fill(text, declared, room);
    Ok(words)
}
