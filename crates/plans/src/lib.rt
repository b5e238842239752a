// Plans as bytes: which of two comes first, whether one stands in a run of plans, writing one into a room, and a run of plans put in
// order into a room. A run is bytes in which plans of n marks each lie one behind the other; it travels with n, as the rooms that C lends
// are bytes too. 02, request 5.
#![tactic(auto)]

ghost use Rattle.std.specs.Prelude.{◌≡◌, length, option_map};
ghost use Rattle.hall.specs.Order.{less};
ghost use Rattle.hall.specs.Ties.{stands_in};
ghost use Rattle.plans.specs.Runs.{plans_in, written_in, PutsInOrder, behind, first_of};

// The last word between two plans of equal cost and held number. `cmp` passes equal marks many at a time, where `<` goes one by one.
#[tactic(auto, using(crate::proofs::Marks::less_is))]
pub fn comes_before(a: &[u8], b: &[u8]) -> bool
    ensures { result ≡ less a.now b.now }
{
    a.cmp(&b).is_lt()
}

// The plans of the run are as long as the plan asked for.
pub fn stands_in(plan: &[u8], run: &[u8]) -> bool
    ensures { result ≡ stands_in plan.now (plans_in (length plan.now) run.now) }
{
    !plan.is_empty() && run.chunks_exact(plan.len()).any(|other| other == plan)
}

// A room that is too short for the plan stays as it is. A loop: with `copy_from_slice` the archive for C asks for `memmove`.
pub fn write_plan(plan: &[u8], room: &mut [u8])
    ensures { room.new ≡ written_in plan.now room.old }
{
    let n = plan.len();
    if n <= room.len() {
        for i in 0..n {
            room[i] = plan[i];
        }
    }
}

// The first in order of those plans of a run that come behind `last`.
fn next_behind<'a>(n: usize, run: &'a [u8], last: &[u8]) -> Option<&'a [u8]>
    ensures { option_map (λ p. p.now) result ≡ first_of (behind last.now (plans_in n run.now)) }
{
    if n == 0 {
        return None;
    }
    run.chunks_exact(n)
        .filter(|plan| comes_before(last, plan))
        .min()
}

// Again and again the next plan in order, written into the part of the room behind the last one. False where the room is too short: what
// is refused then, and where, is the caller's to say.
pub fn put_in_order(n: usize, run: &[u8], room: &mut [u8]) -> bool
    ensures { PutsInOrder n run.now room.old result room.new }
{
    if room.len() < run.len() {
        return false;
    }
    let mut last: &[u8] = &[];
    let mut at = 0;
    while let Some(next) = next_behind(n, run, last) {
        write_plan(next, &mut room[at..]);
        at += next.len();
        last = next;
    }
    true
}
