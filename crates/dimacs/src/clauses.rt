// The clauses, number by number: the first pass finds the first flaw or the length of the sheet, the second writes the rules.
ghost use Rattle.std.specs.Prelude.{◌≡◌, [], length};
ghost use Rattle.typed.specs.Text.{tokens_at};
ghost use Rattle.dimacs.specs.Stage.{inside};
ghost use Rattle.dimacs.specs.File.{limit_of, read_numbers};
ghost use Rattle.dimacs.specs.Contract.{room_after};
ghost use Rattle.dimacs.specs.Steps.{named_of, Small, judged_of, ScanFits, Scans, FillFits};

use crate::number::next_number;
use crate::{Declared, Flaw};
use refusals::{Refusal, Refused, Split};
use typed::Mistake;

// A number of a clause: the 0 at its end, an entry of one of the devices, or neither.
#[derive(Clone, Copy)]
enum Named {
    Zero,
    Device,
    Outside,
}

// What a number that is not refused does: it closes its clause, or enters it.
#[derive(Clone, Copy)]
enum Judged {
    Closes,
    Enters,
}

// How far the clauses are read: so many are closed, the sheet up to them has so many words, and the open one has so many entries.
#[derive(Clone, Copy)]
struct Progress {
    closed: usize,
    head: usize,
    width: usize,
}

// A number as an entry of one of n devices.
fn named_by(z: i32, n: u32) -> Named
    ensures { result ≡ named_of n z }
{
    match Split::from(z) {
        Split::Up(0) => Named::Zero,
        Split::Up(v) if v <= n => Named::Device,
        Split::Down(k) if k < n => Named::Device,
        _ => Named::Outside,
    }
}

impl Progress {
    // What the next number does, or why it is refused.
    fn judge(self, z: i32, declared: Declared, limit: usize) -> Result<Judged, Flaw>
        requires { Small self.closed self.width self.head }
        ensures { result ≡ judged_of declared.variables declared.clauses limit self.closed self.width self.head z }
    {
        if declared.clauses as usize <= self.closed {
            return Err(Flaw::ExtraToken);
        }
        match named_by(z, declared.variables) {
            Named::Zero if limit < self.head + self.width + 1 => Err(Mistake::NoRoom.into()),
            Named::Zero => Ok(Judged::Closes),
            Named::Outside => Err(Refusal::BadEntry.into()),
            Named::Device if 32 <= self.width => Err(Refusal::BadWidth(self.closed + 1).into()),
            Named::Device if limit < self.head + self.width + 2 => Err(Mistake::NoRoom.into()),
            Named::Device => Ok(Judged::Enters),
        }
    }
}

// The first pass, behind the counts: it writes nothing. The length of the sheet is returned.
pub(crate) fn scan(text: &[u8], declared: Declared, limit: usize) -> Result<usize, Refused<Flaw>>
    requires { ScanFits declared.variables limit }
    ensures { Scans text.now declared.end declared.variables declared.clauses limit result }
{
    let mut at = declared.end;
    let mut so_far = Progress {
        closed: 0,
        head: declared.variables as usize + 2,
        width: 0,
    };
    while let Some(found) = next_number(text, at)? {
        let judged = so_far
            .judge(found.word, declared, limit)
            .map_err(|kind| Refused {
                kind,
                place: found.start,
            })?;
        match judged {
            Judged::Closes => {
                so_far.closed += 1;
                so_far.head += so_far.width + 1;
                so_far.width = 0;
            }
            Judged::Enters => so_far.width += 1,
        }
        at = found.end;
    }
    if so_far.closed < declared.clauses as usize {
        return Err(Refused {
            kind: Flaw::NotClosed,
            place: text.len(),
        });
    }
    Ok(so_far.head)
}

// The second pass, over clauses in which the first found no flaw. A rule's width is written when its clause is closed.
pub(crate) fn fill(text: &[u8], declared: Declared, room: &mut [i32])
    requires { FillFits text.now declared.end declared.variables declared.clauses room.old }
    ensures { room.new ≡ room_after (read_numbers (limit_of (length room.old)) (length text.now) (inside declared.variables declared.clauses [] []) (tokens_at text.now declared.end)) room.old }
{
    let mut at = declared.end;
    let mut head = declared.variables as usize + 2;
    let mut width: usize = 0;
    while let Some(found) = typed::next_word(text, at).unwrap() {
        match named_by(found.word, declared.variables) {
            Named::Zero => {
                room[head] = width as i32;
                head += width + 1;
                width = 0;
            }
            Named::Device => {
                room[head + width + 1] = found.word;
                width += 1;
            }
            Named::Outside => unreachable!(),
        }
        at = found.end;
    }
}
