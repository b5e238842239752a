// Reads a hall sheet without the rules that every plan meets. 02, request 3: "From now on every plan meets such a rule".
//
// `sheet` reads the whole sheet; the rules that name both positions of a device are then left out (leave), once per call, so that
// what goes through the rules of a hall afterwards has the others alone before it.
#![tactic(auto)]

ghost use Rattle.needed.specs.Contract.{ReadsNeeded};

mod coded;
mod leave;

pub use coded::Coded;
use leave::leave_out;
use refusals::{Refusal, Refused};
use sheet::Size;

// Reads a sheet as `sheet::read` does, with the same refusals; a hall's number of rules is that of the rules left. Its costs, the
// codes of those rules and their starts go to the front of the arrays.
pub fn read(
    words: &[i32],
    room: usize,
    costs: &mut [u32; 200],
    codes: &mut [u16; 16384],
    starts: &mut [u16; 2001],
) -> Result<Size, Refused<Refusal>>
    ensures { ReadsNeeded words.now room costs.old codes.old starts.old result costs.new codes.new starts.new }
{
    let size = sheet::read(words, room, costs, codes, starts)?;
    Ok(Size {
        rules: leave_out(codes, starts, size.rules),
        ..size
    })
}
