// Opening a node: the meter, and steps 1 and 2 of 01, "The walk".
//
// A node's price travels beside its plan. What the walk keeps lies in one room: the best plan so far in front, and behind it the plans that
// tie with it, as many as are asked for (kept). Their numbers travel with the meter.
ghost use Rattle.std.specs.Prelude.{◌≡◌};
ghost use Rattle.needed.specs.Rules.{hall_in};
ghost use Rattle.walk.specs.Best.{is_closed};
ghost use Rattle.walk.specs.Node.{Node, Opens};

use crate::kept::{Price, State, keep};
use crate::meter::Spent;
use crate::rules::first_unmet;
use needed::Coded;

// What a node that was opened comes to: it has no children, or it branches on the rule of these codes. Two cases with names, where a state
// beside an Option would leave the reader to tell why there is no rule.
#[derive(Clone, Copy)]
pub(crate) enum Opening<'a> {
    Leaf(State),
    Branch(&'a [u16], State),
}

// The question of step 2: the best so far is at most as dear as the node, and each plan below it holds one device more.
fn is_closed(best: Option<Price>, price: Price) -> bool
    ensures { result ≡ is_closed best price }
{
    match best {
        Some(least) => least <= price,
        None => false,
    }
}

// All that is done at a node but going through the entries of its rule.
pub(crate) fn open_node<'a>(
    hall: &Coded<'a>,
    plan: &[u8],
    kept: &mut [u8],
    state: State,
    price: Price,
) -> Result<Opening<'a>, Spent>
    requires { Node (hall_in hall.now) plan.now kept.old state price }
    ensures { Opens (hall_in hall.now) plan.now kept.old state result kept.new }
{
    let next = State {
        meter: state.meter.open()?,
        ..state
    };
    match first_unmet(hall, plan) {
        None => Ok(Opening::Leaf(keep(plan, kept, next, price))),
        Some(_) if is_closed(state.best, price) => Ok(Opening::Leaf(next)),
        Some(rule) => Ok(Opening::Branch(rule, next)),
    }
}
