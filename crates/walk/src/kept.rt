// What a walk keeps of the plans that meet every rule: the best so far, and those that tie with it. 01, "The walk", step 1; 02, request 5.
//
// One room serves both: the best plan lies in front, and behind it lie the plans equal to it in price, each once and in the order in which
// they were opened, up to as many as are asked for. Where none is asked for, as for the least plan alone, nothing but the best is written.
// The plans are put in order later, once: doing so at every leaf would be dear.
ghost use Rattle.std.specs.Prelude.{◌≡◌, length, take, drop};
ghost use Rattle.walk.specs.Best.{compared, is_better, Settles};
ghost use Rattle.walk.specs.Kept.{IsNoted, Notable, Notes, Reties, Roomy, Keeps};

use crate::meter::Meter;
use std::cmp::Ordering;

// A plan's cost and the number of devices that it holds. The lower price is the lower cost or, at equal cost, fewer devices.
#[derive(Clone, Copy, PartialEq, Eq, PartialOrd, Ord)]
pub(crate) struct Price {
    pub(crate) cost: u64,
    pub(crate) held: u32,
}

// How many of the plans that tie are asked for, and how many were found: no more is counted than one beyond those asked for.
#[derive(Clone, Copy)]
pub(crate) struct Ties {
    pub(crate) most: u32,
    pub(crate) count: u32,
}

// What a walk carries from node to node: `best` is the price of the best plan so far.
#[derive(Clone, Copy)]
pub(crate) struct State {
    pub(crate) meter: Meter,
    pub(crate) best: Option<Price>,
    pub(crate) ties: Ties,
}

// How the price of a plan that meets every rule compares with that of the best so far: the first such plan is the lower one. Both prices
// travel as two arguments, since one is kept and the other passes by.
fn compared(best: Option<Price>, price: Price) -> Ordering
    ensures { result ≡ compared best price }
{
    match best {
        Some(least) => price.cmp(&least),
        None => Ordering::Less,
    }
}

// The question of step 1.
fn is_better(plan: &[u8], best_plan: &[u8], best: Option<Price>, price: Price) -> bool
    ensures { result ≡ is_better best best_plan.now plan.now price }
{
    match compared(best, price) {
        Ordering::Less => true,
        Ordering::Equal => plans::comes_before(plan, best_plan),
        Ordering::Greater => false,
    }
}

// Step 1, at a plan that meets every rule.
fn settle(plan: &[u8], best_plan: &mut [u8], best: Option<Price>, price: Price) -> Option<Price>
    requires { length best_plan.old ≡ length plan.now }
    ensures { Settles best best_plan.old plan.now price result best_plan.new }
{
    if is_better(plan, best_plan, best, price) {
        plans::write_plan(plan, best_plan);
        return Some(price);
    }
    best
}

// Whether a plan is one of the `count` plans of a run. A plan of no devices is the only one of its hall.
fn is_noted(plan: &[u8], run: &[u8], count: u32) -> bool
    ensures { IsNoted plan.now run.now count result }
{
    if plan.is_empty() {
        return 0 < count;
    }
    plans::stands_in(plan, run)
}

// A plan that ties goes behind the others, where it is not there yet and is asked for.
fn note(plan: &[u8], run: &mut [u8], ties: Ties) -> Ties
    requires { Notable (length plan.now) run.old ties }
    ensures { Notes plan.now run.old ties result run.new }
{
    if ties.most < ties.count {
        return ties;
    }
    let end = ties.count as usize * plan.len();
    if is_noted(plan, &run[..end], ties.count) {
        return ties;
    }
    if ties.count < ties.most {
        plans::write_plan(plan, &mut run[end..]);
    }
    Ties {
        count: ties.count + 1,
        ..ties
    }
}

// The plans that tie, after a plan that meets every rule.
fn retie(plan: &[u8], run: &mut [u8], ties: Ties, best: Option<Price>, price: Price) -> Ties
    requires { Notable (length plan.now) run.old ties }
    ensures { Reties plan.now run.old ties best price result run.new }
{
    match compared(best, price) {
        Ordering::Less => note(plan, run, Ties { count: 0, ..ties }),
        Ordering::Equal => note(plan, run, ties),
        Ordering::Greater => ties,
    }
}

// Both, at a plan that meets every rule.
pub(crate) fn keep(plan: &[u8], kept: &mut [u8], state: State, price: Price) -> State
    requires { Roomy (length plan.now) kept.old state.ties }
    ensures { Keeps plan.now kept.old state price result kept.new }
{
    let (best_plan, run) = kept.split_at_mut(plan.len());
    let ties = retie(plan, run, state.ties, state.best, price);
    let best = settle(plan, best_plan, state.best, price);
    State {
        best,
        ties,
        ..state
    }
}
