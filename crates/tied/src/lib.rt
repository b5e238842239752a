// Lists the least restriction plans of a hall sheet: all that equal the least one in cost and held number, best first. 02, request 5.
//
// `walk` reads the sheet and walks it. The plans that tie go into a room of our own, as they are opened; `plans` puts them in order into
// the caller's room, which is written once, and only where it holds them all.
#![tactic(auto)]

ghost use Rattle.tied.specs.Contract.{ListsTies};

use refusals::{Refused, RoomRefusal};
use walk::Outcome;

// The kinds of refusal: those of a sheet; or a room that is too short for the plans, or more than 256 of them, which has the code 51.
pub type Hindrance = RoomRefusal<51>;

// Cost, devices held, number of plans and nodes opened; or nodes opened, where there is no plan or the budget is spent.
#[derive(Clone, Copy, PartialEq, Eq)]
pub enum Tied {
    Plans {
        cost: u64,
        held: u32,
        number: u32,
        opened: u32,
    },
    None(u32),
    Spent(u32),
}

// The least plans of a sheet, under a budget of trial plans; they go to the front of the room, each behind the last one.
pub fn least_plans(words: &[i32], budget: u32, room: &mut [u8]) -> Result<Tied, Refused<Hindrance>>
    ensures { ListsTies words.now budget room.old result room.new }
{
    let mut run = rooms::ties_room();
    let found = walk::ties_of(words, budget, &mut run).map_err(Refused::under)?;
    match found {
        Outcome::Best {
            devices,
            cost,
            held,
            plans: number,
            opened,
        } => {
            let short = Refused {
                kind: Hindrance::ShortRoom,
                place: room.len(),
            };
            if 256 < number {
                return Err(short);
            }
            let end = number as usize * devices;
            if !plans::put_in_order(devices, &run[0..end], room) {
                return Err(short);
            }
            Ok(Tied::Plans {
                cost,
                held,
                number,
                opened,
            })
        }
        Outcome::None(opened) => Ok(Tied::None(opened)),
        Outcome::Spent(opened) => Ok(Tied::Spent(opened)),
    }
}
