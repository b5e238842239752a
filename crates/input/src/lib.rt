// Standard input, read into a lent room. Shared by the programs that answer what they are fed. What each does with it, in three lines, it
// does itself: one function over what answers would be no plainer, public, and have to require of what it is given that it fits the room.
#![tactic(auto)]

ghost use Rattle.input.specs.Input.{Within};

use std::io;
use std::io::Read;

// Reads until the input ends or the room is full, and tells how many bytes came. A pipe or a terminal gives its bytes in as many parts as
// it likes, each of as much as it has ready; so this is no loop over an index.
pub fn read_input<R: Read>(reader: &mut R, room: &mut [u8]) -> io::Result<usize>
    ensures { Within result room.new }
{
    let mut n: usize = 0;
    while n < room.len() {
        let more = reader.read(&mut room[n..])?;
        if more == 0 {
            break;
        }
        n += more;
    }
    Ok(n)
}
