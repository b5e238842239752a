// The walk of a hall from its first node, and what is handed on of it. 01, "The answer sheet of the search", codes 0, 1 and 2; 02,
// request 5.
//
// The caller's room is written once, at the end, and only where there is a best plan.
ghost use Rattle.std.specs.Prelude.{◌≡◌, length, Ok};
ghost use Rattle.hall.specs.Walk.{walk_hall};
ghost use Rattle.hall.specs.Answer.{within};
ghost use Rattle.needed.specs.Rules.{hall_in};
ghost use Rattle.walk.specs.Contract.{found_of, handed, Finds};
ghost use Rattle.walk.specs.Solve.{most_of, Spacious};

use crate::Outcome;
use crate::kept::{Price, State, Ties};
use crate::meter::Meter;
use crate::walk::walk_plan;
use needed::Coded;

// What is handed on: the best plan, or the plans that tie with it, as they were opened and up to 256.
#[derive(Clone, Copy)]
pub(crate) enum Asked {
    Best,
    Ties,
}

impl Asked {
    // How many of the plans that tie are kept for it.
    fn most(self) -> u32
        ensures { result ≡ most_of self }
    {
        match self {
            Asked::Best => 0,
            Asked::Ties => 256,
        }
    }
}

// Walks in a room that is lent for what is kept, and hands on what is asked for.
pub(crate) fn solve(
    hall: &Coded<'_>,
    budget: u32,
    asked: Asked,
    kept: &mut [u8],
    out: &mut [u8],
) -> Outcome
    requires { Spacious asked (length kept.old) }
    ensures { Finds (found_of (handed asked (hall_in hall.now)) (within (hall_in hall.now) budget (walk_hall (hall_in hall.now)))) out.old (Ok result) out.new }
{
    let n = hall.costs.len();
    let mut plan = rooms::plan_room();
    let begun = State {
        meter: Meter { budget, count: 0 },
        best: None,
        ties: Ties {
            most: asked.most(),
            count: 0,
        },
    };
    let last = match walk_plan(
        hall,
        &mut plan[..n],
        kept,
        begun,
        Price { cost: 0, held: 0 },
    ) {
        Ok(last) => last,
        Err(spent) => {
            return Outcome::Spent(spent.opened);
        }
    };
    let opened = last.meter.count;
    let Some(price) = last.best else {
        return Outcome::None(opened);
    };
    match asked {
        Asked::Best => {
            plans::write_plan(&kept[..n], out);
            Outcome::Best {
                devices: n,
                cost: price.cost,
                held: price.held,
                plans: 1,
                opened,
            }
        }
        Asked::Ties => {
            let equal = last.ties.count;
            let end = n + equal.min(256) as usize * n;
            plans::write_plan(&kept[n..end], out);
            Outcome::Best {
                devices: n,
                cost: price.cost,
                held: price.held,
                plans: equal,
                opened,
            }
        }
    }
}
