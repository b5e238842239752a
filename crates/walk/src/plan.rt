// A plan in its room: one byte for each device, 0 free, 1 held at 1, 2 held at 0, which are the marks of the plan room that C lends. A
// device is held and released in place. That a code names a device of the plan is asked by each function: it is about both.
ghost use Rattle.std.specs.Prelude.{◌≡◌, ◌/◌, ◌<◌, length, get_or};
ghost use Rattle.hall.specs.Hall as hall;
ghost use Rattle.sheet.specs.Coded.{entry_of};
ghost use Rattle.walk.specs.Plan as plans;

// Whether an entry opens a child.
pub(crate) fn is_free(plan: &[u8], code: u16) -> bool
    requires { code / 2 < length plan.now }
    ensures { result ≡ hall.is_free plan.now (entry_of code) }
{
    plan[(code / 2) as usize] == 0
}

// From a node to its child; called in one place.
pub(crate) fn hold(plan: &mut [u8], code: u16)
    requires { code / 2 < length plan.old }
    ensures { plan.new ≡ hall.hold plan.old (entry_of code) }
{
    plan[(code / 2) as usize] = (1 + code % 2) as u8;
}

// From a child back to its node; called in one place.
pub(crate) fn release(plan: &mut [u8], code: u16)
    requires { code / 2 < length plan.old }
    ensures { plan.new ≡ plans.release plan.old (entry_of code) }
{
    plan[(code / 2) as usize] = 0;
}

// What holding the device of a code adds to a plan's cost.
pub(crate) fn cost_of(costs: &[u32], code: u16) -> u64
    requires { code / 2 < length costs.now }
    ensures { result ≡ get_or costs.now (code / 2) 0 }
{
    costs[(code / 2) as usize] as u64
}
