// The two counts of the header, and the front of the sheet: the number of variables with a cost of 1 for each, and the number of clauses.
ghost use Rattle.std.specs.Prelude.{◌≡◌, ◌+◌, ◌≤◌, [], length};
ghost use Rattle.lists.specs.Lists.{in_front};
ghost use Rattle.dimacs.specs.Stage.{inside, sheet_so_far};
ghost use Rattle.dimacs.specs.Steps.{CountIs, CountsAre};

use crate::number::next_number;
use crate::{Declared, Flaw};
use refusals::{Refusal, Refused, Split};
use typed::Mistake;

// A count, with the places where its token starts and ends: as `typed::Found`, but of a number without a sign. A type parameter there for
// this one use would be no plainer.
#[derive(Clone, Copy)]
struct Count {
    number: u32,
    start: usize,
    end: usize,
}

// The next token has to be a number from 0 to `most`, with the kind of refusal where it is another.
fn count_at(text: &[u8], from: usize, most: u32, kind: Refusal) -> Result<Count, Refused<Flaw>>
    ensures { CountIs text.now from most kind result }
{
    let Some(found) = next_number(text, from)? else {
        return Err(Refused {
            kind: Flaw::NoHeader,
            place: text.len(),
        });
    };
    match Split::from(found.word) {
        Split::Up(number) if number <= most => Ok(Count {
            number,
            start: found.start,
            end: found.end,
        }),
        _ => Err(Refused {
            kind: kind.into(),
            place: found.start,
        }),
    }
}

// Both counts, for a sheet of at most so many words.
pub(crate) fn counts_at(text: &[u8], from: usize, limit: usize) -> Result<Declared, Refused<Flaw>>
    ensures { CountsAre text.now from limit result }
{
    let variables = count_at(text, from, 200, Refusal::BadDeviceCount)?;
    if limit < variables.number as usize + 1 {
        return Err(Refused {
            kind: Mistake::NoRoom.into(),
            place: variables.start,
        });
    }
    let clauses = count_at(text, variables.end, 2000, Refusal::BadRuleCount)?;
    if limit < variables.number as usize + 2 {
        return Err(Refused {
            kind: Mistake::NoRoom.into(),
            place: clauses.start,
        });
    }
    Ok(Declared {
        variables: variables.number,
        clauses: clauses.number,
        end: clauses.end,
    })
}

// The sheet up to its first rule.
pub(crate) fn put_counts(declared: Declared, room: &mut [i32])
    requires { declared.variables + 2 ≤ length room.old }
    ensures { room.new ≡ in_front (sheet_so_far (inside declared.variables declared.clauses [] [])) room.old }
{
    let devices = declared.variables as usize;
    room[0] = declared.variables as i32;
    room[1..devices + 1].fill(1);
    room[devices + 1] = declared.clauses as i32;
}
