// The held devices of a plan, as the entries of a line.
ghost use Rattle.std.specs.Prelude.{[], ◌+◌, ◌^◌, ◌<◌};
ghost use Rattle.hall.specs.Order.{held_by, held_entries};
ghost use Rattle.printing.specs.Lines.{printed_entries};
ghost use Rattle.printing.specs.Contract.{Puts};

use crate::Page;

// One device, by its mark; devices are numbered from 0 here.
fn put_device(mark: u8, device: usize, page: &mut Page<'_>)
    requires { device + 1 < 2 ^ 64 }
    ensures { Puts (printed_entries (held_by mark device [])) page.old page.new }
{
    match mark {
        1 => page.put_number(b" ", (device + 1) as u64),
        2 => page.put_number(b" -", (device + 1) as u64),
        _ => {}
    }
}

// The devices that a plan holds, in rising order.
pub(crate) fn put_devices(plan: &[u8], page: &mut Page<'_>)
    ensures { Puts (printed_entries (held_entries plan.now)) page.old page.new }
{
    for (device, mark) in plan.iter().enumerate() {
        put_device(*mark, device, page);
    }
}
