// The lines of the plans that are listed.
ghost use Rattle.std.specs.Prelude.{◌*◌, ◌≤◌, length};
ghost use Rattle.plans.specs.Runs.{plans_from};
ghost use Rattle.printing.specs.Contract.{Puts};
ghost use Rattle.foreman.specs.Printed.{hold_lines};

use printing::Page;

// A line for each of so many plans of n marks each, which lie in a run, one behind the other. A hall of no devices has one plan, of no
// marks, which no `chunks_exact` would give.
pub(crate) fn put_plans(n: usize, number: u32, run: &[u8], page: &mut Page<'_>)
    requires { number * n ≤ length run.now }
    ensures { Puts (hold_lines (plans_from number n run.now)) page.old page.new }
{
    for i in 0..number as usize {
        let from = i * n;
        page.put_hold(&run[from..from + n]);
    }
}
