// The rules of a hall, and the first one that a plan does not meet. 01, "The walk", step 3.
//
// None of the rules here names both positions of a device: those were left out before (`needed`). The test of a rule stops at its first
// held entry: it is nearly all of what a node costs.
ghost use Rattle.std.specs.Prelude.{◌≡◌, ◌<◌, ◌/◌, length, map};
ghost use Rattle.hall.specs.Hall as hall;
ghost use Rattle.sheet.specs.Coded.{entry_of};
ghost use Rattle.needed.specs.Rules.{hall_in};
ghost use Rattle.walk.specs.Rules.{Entries, FirstUnmet};

use needed::Coded;

// Whether an entry makes its rule met.
fn holds(plan: &[u8], code: u16) -> bool
    requires { code / 2 < length plan.now }
    ensures { result ≡ hall.holds plan.now (entry_of code) }
{
    plan[(code / 2) as usize] == (1 + code % 2) as u8
}

// Whether one of a rule's entries does. A loop: with `any` in its place a node of 1,500 rules takes a third longer (bench/run).
fn holds_one(plan: &[u8], rule: &[u16]) -> bool
    requires { Entries (length plan.now) rule.now }
    ensures { result ≡ hall.holds_one plan.now (map entry_of rule.now) }
{
    for &code in rule {
        if holds(plan, code) {
            return true;
        }
    }
    false
}

// The codes of the rule to branch on, if there is one.
pub(crate) fn first_unmet<'a>(hall: &Coded<'a>, plan: &[u8]) -> Option<&'a [u16]>
    requires { length plan.now ≡ length hall.now.costs.now }
    ensures { FirstUnmet (hall_in hall.now) plan.now result }
{
    for r in 0..hall.rules {
        let rule = hall.rule(r);
        if !holds_one(plan, rule) {
            return Some(rule);
        }
    }
    None
}
