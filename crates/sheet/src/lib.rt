// Reads a hall sheet: 01, "The hall sheet" and "The answer sheet of the search"; 02, request 1. Codes 11 to 19.
//
// The sheet is checked first, from left to right, and nothing is written (check). A good sheet is then coded into the arrays that
// the caller lends (coding). The kinds of refusal, and a word with its sign split off, are those of `refusals`.
#![tactic(auto)]

ghost use Rattle.sheet.specs.Contract.{Decodes};

mod check;
mod coding;
mod word;

use refusals::{Refusal, Refused};

// The numbers of devices and of rules of a hall.
#[derive(Clone, Copy, PartialEq, Eq)]
pub struct Size {
    pub devices: usize,
    pub rules: usize,
}

// Reads a sheet for a plan room of so many bytes. A hall is coded into the three arrays: the costs; all entries in one run of codes;
// and where each rule's codes start, with the end of the last. They stay three parameters: the contract says something else of each, and
// a struct of them would be taken apart again at once.
pub fn read(
    words: &[i32],
    room: usize,
    costs: &mut [u32; 200],
    codes: &mut [u16; 16384],
    starts: &mut [u16; 2001],
) -> Result<Size, Refused<Refusal>>
    ensures { Decodes words.now room costs.old codes.old starts.old result costs.new codes.new starts.new }
{
    let size = check::check(words, room)?;
    coding::put_costs(words, size.devices, costs);
    coding::put_rules(words, size.devices, size.rules, codes, starts);
    Ok(size)
}
