// WCNF text for MaxSAT solvers: a hall sheet is written into a lent room of bytes by the dual-rail encoding, in either edition. 02,
// request 4.
//
// The sheet is read without the rules that every plan meets (`needed`). Its text is made in a room of our own, which holds the text of any
// sheet, and is copied where the lent room is long enough: so that room is unchanged on every refusal. lines puts the clauses; totals
// counts what the first line of the edition before 2022 says.
#![tactic(auto)]

ghost use Rattle.printing.specs.Contract.{Puts};
ghost use Rattle.needed.specs.Rules.{hall_in};
ghost use Rattle.rails.specs.Rails.{encoded, variables};
ghost use Rattle.wcnf.specs.Contract.{Writes};
ghost use Rattle.wcnf.specs.Wcnf.{text_of};

mod lines;
mod totals;

use lines::put_clauses;
use needed::Coded;
use printing::Page;
use refusals::{Refused, RoomRefusal};
use rooms::{codes_room, costs_room, starts_room, wcnf_room};
use totals::totals_of;

// "Both editions are kept": the one from 2022 on, and the one before.
#[derive(Clone, Copy, PartialEq, Eq)]
pub enum Edition {
    Since2022,
    Before2022,
}

// The kinds of refusal: those of a sheet; or a text room that is too short, which has the code 41.
pub type Obstacle = RoomRefusal<41>;

// The text of a hall that lies in the coded arrays.
fn put_text(edition: Edition, hall: Coded<'_>, page: &mut Page<'_>)
    ensures { Puts (text_of edition (variables (hall_in hall.entry)) (encoded (hall_in hall.entry).rules hall.entry.costs.now)) page.old page.new }
{
    match edition {
        Edition::Since2022 => put_clauses(b"h", hall, page),
        Edition::Before2022 => {
            let totals = totals_of(hall);
            let devices = hall.costs.len() as u64;
            let clauses = hall.rules as u64 + devices + 2 * totals.charged;
            let top = 2 * totals.sum + 1;
            page.put_line(b"p wcnf", &[2 * devices, clauses, top]);
            let mut digits = [0u8; 20];
            let k = io::decimal(top, &mut digits);
            put_clauses(&digits[..k], hall, page);
        }
    }
}

// The text of a sheet goes to the front of the room, and its length is returned; where it is refused, the room stays as it was. A plan
// room of 200 bytes is never too short.
pub fn write(words: &[i32], edition: Edition, out: &mut [u8]) -> Result<usize, Refused<Obstacle>>
    ensures { Writes words.now edition out.old result out.new }
{
    let mut costs = costs_room();
    let mut codes = codes_room();
    let mut starts = starts_room();
    let size = needed::read(words, 200, &mut costs, &mut codes, &mut starts).map_err(
        Refused::under,
    )?;
    let hall = Coded {
        costs: &costs[..size.devices],
        codes: &codes,
        starts: &starts,
        rules: size.rules,
    };
    let mut text = wcnf_room();
    let mut page = Page {
        room: &mut text,
        at: 0,
    };
    put_text(edition, hall, &mut page);
    let length = page.at;
    if out.len() < length {
        return Err(Refused {
            kind: Obstacle::ShortRoom,
            place: length,
        });
    }
    out[..length].copy_from_slice(&text[..length]);
    Ok(length)
}
