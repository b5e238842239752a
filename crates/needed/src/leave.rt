// Leaves out the rules that name both positions of a device: every plan meets them. 02, request 3.
//
// Each code has a stamp: the number, from 1, of the last rule in which it was seen. So nothing is cleared between rules, and all of it
// takes time linear in the entries. The rules that stay move down over those left out, in the arrays in which they lie.
ghost use Rattle.std.specs.Prelude.{◌≡◌, ◌<◌, ◌/◌, replicate};
ghost use Rattle.needed.specs.Leaving.{Opposes, Stampable, Stamps, Movable, Moves, Leavable, LeavesOut};

// The code of the other entry of the same device.
fn opposite(code: u16) -> u16
    requires { code / 2 < 200 }
    ensures { Opposes code result }
{
    code + 1 - 2 * (code % 2)
}

// Whether the entries from one place to another name both positions of a device.
fn names_both(codes: &[u16], from: usize, end: usize, rule: u16, stamps: &mut [u16]) -> bool
    requires { Stampable codes.now from end rule stamps.old }
    ensures { Stamps codes.now from end rule result stamps.new }
{
    for &code in &codes[from..end] {
        if stamps[opposite(code) as usize] == rule {
            return true;
        }
        stamps[code as usize] = rule;
    }
    false
}

// Moves the entries from one place to another down to a third, and gives the place behind them.
fn move_down(codes: &mut [u16], from: usize, end: usize, to: usize) -> usize
    requires { Movable codes.old from end to }
    ensures { Moves codes.old from end to result codes.new }
{
    codes.copy_within(from..end, to);
    to + (end - from)
}

// Leaves out the rules that name both positions of a device, and gives the number of those left.
pub(crate) fn leave_out(codes: &mut [u16], starts: &mut [u16], m: usize) -> usize
    requires { Leavable codes.old starts.old m }
    ensures { LeavesOut codes.old starts.old m result codes.new starts.new }
{
    let mut stamps = [0u16; 400];
    let mut end = starts[0] as usize;
    let mut to = end;
    let mut left: usize = 0;
    for r in 0..m {
        let from = end;
        end = starts[r + 1] as usize;
        if names_both(codes, from, end, (r + 1) as u16, &mut stamps) {
            continue;
        }
        to = move_down(codes, from, end, to);
        left += 1;
        starts[left] = to as u16;
    }
    left
}
