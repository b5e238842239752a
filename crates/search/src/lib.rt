// Finds the least restriction plan of a hall sheet: 01, "The answer sheet of the search"; 02, request 3.
//
// `walk` reads the sheet and walks it. Its best plan goes into a room of our own first, so that the caller's room is written once, and only
// with a least plan.
#![tactic(auto)]

ghost use Rattle.search.specs.Contract.{Finds};

use refusals::{Refusal, Refused};
use walk::Outcome;

// The least plan's cost, the devices that it holds and the nodes opened; or nodes opened, where there is no plan or the budget is spent.
// An enum of its own, as `walk` and `tied` have theirs: what is told of a plan that was found is another in each, and so is its table.
#[derive(Clone, Copy, PartialEq, Eq)]
pub enum Answer {
    Least { cost: u64, held: u32, opened: u32 },
    None(u32),
    Spent(u32),
}

// The least plan of a sheet, under a budget of trial plans; its marks go to the front of the room.
pub fn least_plan(words: &[i32], budget: u32, room: &mut [u8]) -> Result<Answer, Refused<Refusal>>
    ensures { Finds words.now budget room.old result room.new }
{
    let mut best = rooms::plan_room();
    let found = walk::best_of(words, room.len(), budget, &mut best)?;
    match found {
        Outcome::Best {
            devices,
            cost,
            held,
            opened,
            ..
        } => {
            plans::write_plan(&best[0..devices], room);
            Ok(Answer::Least { cost, held, opened })
        }
        Outcome::None(opened) => Ok(Answer::None(opened)),
        Outcome::Spent(opened) => Ok(Answer::Spent(opened)),
    }
}
