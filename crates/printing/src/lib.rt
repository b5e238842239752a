// Bytes, numbers and lines, put into a lent room from a place on. Whatever a program prints comes into its room here.
//
// A page is a lent room and the place behind what was put. What has no place in the room is left out, and nothing else is written: so no
// caller has to count ahead, and one that knows that all of its bytes fit knows what its room holds. held puts the devices of a plan. It
// is no writer of formats: what `write!` to a page promises would say nothing of bytes that have no place.
#![tactic(auto)]

ghost use Rattle.std.specs.Prelude.{◌++◌, ◌≤◌, length};
ghost use Rattle.lists.specs.Bytes.{bytes};
ghost use Rattle.typed.specs.Printing.{digits_of};
ghost use Rattle.printing.specs.Lines.{spaced, line_end, hold_line};
ghost use Rattle.printing.specs.Contract.{Stores, Puts, PutsLine, PrintsRefused};

mod held;

use held::put_devices;
use refusals::{Kind, Refused};

// A lent room, and the place in it where the next byte goes.
#[derive(Drop)]
pub struct Page<'a> {
    pub room: &'a mut [u8],
    pub at: usize,
}

// Bytes into a room from a place on; the place behind the last that was stored is returned. A loop: with `copy_from_slice` the archive
// for C asks for `memmove`.
#[tactic(auto, using(crate::proofs::Putting::copy_more, crate::proofs::Putting::copy_end))]
fn store(bytes: &[u8], at: usize, room: &mut [u8]) -> usize
    ensures { Stores bytes.now at room.old result room.new }
{
    let count = bytes.len().min(room.len().saturating_sub(at));
    for i in 0..count {
        room[at + i] = bytes[i];
    }
    at + count
}

impl Page<'_> {
    // Bytes as they are.
    pub fn put(&mut self, bytes: &[u8])
        ensures { Puts bytes.now self.old self.new }
    {
        self.at = store(bytes, self.at, self.room);
    }

    // The digits of a number, behind what stands in front of it: a blank, or a blank and a minus.
    pub fn put_number(&mut self, front: &[u8], n: u64)
        ensures { Puts (front.now ++ digits_of n) self.old self.new }
    {
        let mut digits = [0u8; 20];
        let k = io::decimal(n, &mut digits);
        self.put(front);
        self.put(&digits[..k]);
    }

    // The numbers of a line, each behind a blank.
    fn put_numbers(&mut self, numbers: &[u64])
        ensures { Puts (spaced digits_of numbers.now) self.old self.new }
    {
        for number in numbers {
            self.put_number(b" ", *number);
        }
    }

    // 01, "each line closed by byte 10".
    pub fn close_line(&mut self)
        ensures { Puts line_end self.old self.new }
    {
        self.put(b"\n");
    }

    // A line of a word and numbers. The contract says how long it is at most, so that a caller with place for that much need not know its
    // numbers.
    pub fn put_line(&mut self, word: &[u8], numbers: &[u64])
        ensures { PutsLine word.now numbers.now self.old self.new }
    {
        self.put(word);
        self.put_numbers(numbers);
        self.close_line();
    }

    // The line of a refusal, of whichever reader: it has at most three numbers.
    #[tactic(auto, using(refusals::proofs::ToldNumbers::told_front))]
    pub fn put_refused<K: Kind>(&mut self, refused: Refused<K>)
        ensures line { PutsLine (bytes "refused") (K.told refused.kind refused.place) self.old self.new }
        ensures few { length (K.told refused.kind refused.place) ≤ 3 }
    {
        let mut numbers = [0; 4];
        let count = refused.tell(&mut numbers);
        self.put_line(b"refused", &numbers[..count]);
    }

    // The line of the devices that a plan holds; a mark other than 1 and 2 holds nothing. The word alone where nothing is held.
    pub fn put_hold(&mut self, plan: &[u8])
        ensures { Puts (hold_line plan.now) self.old self.new }
    {
        self.put(b"hold");
        put_devices(plan, self);
        self.close_line();
    }
}

// The line of a refusal alone, at the front of a room; the place behind it is returned.
pub fn print_refused<K: Kind>(refused: Refused<K>, room: &mut [u8]) -> usize
    ensures { PrintsRefused (K.told refused.kind refused.place) room.old result room.new }
{
    let mut page = Page { room, at: 0 };
    page.put_refused(refused);
    page.at
}
