// The walk. 01: "A node opens its entries, and each entry opens a node in turn": two functions in a cycle.
//
// A device is held before its child is walked and released behind it, so that one plan serves the whole walk. The entries of a rule
// are a loop, so that the stack grows with the devices held and not with the entries. The hall is lent: by value it would be copied at
// every call. The two lent rooms stay two parameters: in a struct each function would have to promise besides that it still holds the same
// two.
ghost use Rattle.needed.specs.Rules.{hall_in};
ghost use Rattle.walk.specs.Node.{Node};
ghost use Rattle.walk.specs.Walk.{AtEntries, WalksPlan, WalksEntries};

use crate::kept::{Price, State};
use crate::meter::Spent;
use crate::node::{Opening, open_node};
use crate::plan::{cost_of, hold, is_free, release};
use needed::Coded;

// Walks a plan to its end.
#[cycle(walk_entries_walk_plan)]
pub(crate) fn walk_plan(
    hall: &Coded<'_>,
    plan: &mut [u8],
    kept: &mut [u8],
    state: State,
    price: Price,
) -> Result<State, Spent>
    requires { Node (hall_in hall.now) plan.old kept.old state price }
    ensures { WalksPlan (hall_in hall.now) plan.old kept.old state result plan.new kept.new }
{
    match open_node(hall, plan, kept, state, price)? {
        Opening::Leaf(next) => Ok(next),
        Opening::Branch(rule, next) => walk_entries(hall, rule, plan, kept, next, price),
    }
}

// Goes through the entries of a node's rule: step 3.
#[cycle(walk_entries_walk_plan)]
fn walk_entries(
    hall: &Coded<'_>,
    rule: &[u16],
    plan: &mut [u8],
    kept: &mut [u8],
    mut state: State,
    price: Price,
) -> Result<State, Spent>
    requires { AtEntries (hall_in hall.now) rule.now plan.old kept.old state price }
    ensures { WalksEntries (hall_in hall.now) rule.now plan.old kept.old state result plan.new kept.new }
{
    for &code in rule {
        if !is_free(plan, code) {
            continue;
        }
        hold(plan, code);
        let child = Price {
            cost: price.cost + cost_of(hall.costs, code),
            held: price.held + 1,
        };
        let went = walk_plan(hall, plan, kept, state, child);
        release(plan, code);
        state = went?;
    }
    Ok(state)
}
