// The walk of a hall sheet: the best plan that it finds, or the plans that tie with it. 01, "The walk"; 02, requests 3 and 5.
//
// `needed` reads the sheet without the rules that every plan meets, so that no node tests them. meter counts the nodes against the budget;
// rules finds the first rule that is not met; plan holds and releases devices; kept keeps the best plan and those that tie with it; node
// opens a node; walk goes from a node to its children; solve walks from the first node and hands on what was kept.
#![tactic(auto)]

ghost use Rattle.std.specs.Prelude.{Ok};
ghost use Rattle.hall.specs.Walk.{walk_hall};
ghost use Rattle.hall.specs.Answer.{within};
ghost use Rattle.needed.specs.Rules.{hall_in};
ghost use Rattle.walk.specs.Contract.{best_found, ties_found, found, found_of, handed, Finds};
ghost use Rattle.walk.specs.declared.solve.Asked.TheVariants.{Ties};

mod kept;
mod meter;
mod node;
mod plan;
mod rules;
mod solve;
mod walk;

use needed::Coded;
use refusals::{Refusal, Refused};
use solve::{Asked, solve};

// How the walk of a hall ended: with a best plan, of so many devices, its cost and held number, how many plans were asked for and found, and
// the nodes opened; with none, and the nodes opened; or spent, and the nodes opened.
#[derive(Clone, Copy, PartialEq, Eq)]
pub enum Outcome {
    Best {
        devices: usize,
        cost: u64,
        held: u32,
        plans: u32,
        opened: u32,
    },
    None(u32),
    Spent(u32),
}

// Walks a hall in a room for its ties. Never a part of `find`: a function fills its rooms when it begins, and this room, the largest, is
// neither for a sheet that is refused nor for the best plan alone.
#[inline(never)]
fn ties_in(hall: &Coded<'_>, budget: u32, ties: &mut [u8]) -> Outcome
    ensures { Finds (found_of (handed Ties (hall_in hall.now)) (within (hall_in hall.now) budget (walk_hall (hall_in hall.now)))) ties.old (Ok result) ties.new }
{
    let mut kept = rooms::kept_room();
    solve(hall, budget, Asked::Ties, &mut kept, ties)
}

// Reads a sheet and walks its hall. The arrays lie here, as in `wcnf`: a function that made them could not lend them on.
fn find(
    words: &[i32],
    room: usize,
    budget: u32,
    asked: Asked,
    out: &mut [u8],
) -> Result<Outcome, Refused<Refusal>>
    ensures { Finds (found asked words.now room budget) out.old result out.new }
{
    let mut costs = rooms::costs_room();
    let mut codes = rooms::codes_room();
    let mut starts = rooms::starts_room();
    let size = needed::read(words, room, &mut costs, &mut codes, &mut starts)?;
    let hall = Coded {
        costs: &costs[..size.devices],
        codes: &codes,
        starts: &starts,
        rules: size.rules,
    };
    Ok(match asked {
        Asked::Best => {
            let mut kept = rooms::plan_room();
            solve(&hall, budget, asked, &mut kept, out)
        }
        Asked::Ties => ties_in(&hall, budget, out),
    })
}

// The best plan of a sheet, whose plans are to fit `room` bytes; its marks go to the front of `best`.
pub fn best_of(
    words: &[i32],
    room: usize,
    budget: u32,
    best: &mut [u8],
) -> Result<Outcome, Refused<Refusal>>
    ensures { Finds (best_found words.now room budget) best.old result best.new }
{
    find(words, room, budget, Asked::Best, best)
}

// The plans equal to it in cost and held number, each once, in the order in which they are opened: they go to the front of `ties`, up to
// 256 of them, and are counted up to 257. A plan room of 200 bytes is never too short.
pub fn ties_of(words: &[i32], budget: u32, ties: &mut [u8]) -> Result<Outcome, Refused<Refusal>>
    ensures { Finds (ties_found words.now budget) ties.old result ties.new }
{
    find(words, 200, budget, Asked::Ties, ties)
}
