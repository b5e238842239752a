// What `ties` prints, as bytes in a lent room, and the whole way to it: from a typed text to all plans that tie with the least one of its
// sheet. 02, request 5.
//
// `tied` lists the plans in a room of our own, in order; holds puts a line for each.
#![tactic(auto)]

ghost use Rattle.std.specs.Prelude.{◌≡◌};
ghost use Rattle.hall.specs.Due.{devices_on};
ghost use Rattle.foreman.specs.Contract.{ListsSheet, ListsText};

mod holds;

use holds::put_plans;
use printing::{Page, print_refused};
use refusals::Split;
use tied::Tied;

// The sheet's number of devices, which is its first word: so many marks has each of its plans. By `Split`, which alone reads a signed word.
fn devices_on(words: &[i32]) -> usize
    ensures { result ≡ devices_on words.now }
{
    match words {
        [] => 0,
        [first, ..] => match Split::from(*first) {
            Split::Up(n) => n as usize,
            Split::Down(k) => k as usize + 1,
        },
    }
}

// Behind the reader: the least plans of a sheet are listed, and the answer is printed.
fn list_sheet(words: &[i32], out: &mut [u8; 230000]) -> usize
    ensures { ListsSheet words.now out.old result out.new }
{
    let mut room = rooms::ties_room();
    let mut page = Page { room: out, at: 0 };
    let found = match tied::least_plans(words, 1000000, &mut room) {
        Ok(found) => found,
        Err(hindered) => {
            page.put_refused(hindered);
            return page.at;
        }
    };
    match found {
        Tied::Plans {
            cost,
            held,
            number,
            opened,
        } => {
            page.put_line(b"least", &[cost, u64::from(held), u64::from(opened)]);
            page.put_line(b"plans", &[u64::from(number)]);
            put_plans(devices_on(words), number, &room, &mut page);
        }
        Tied::None(opened) => page.put_line(b"none", &[u64::from(opened)]),
        Tied::Spent(opened) => page.put_line(b"spent", &[u64::from(opened)]),
    }
    page.at
}

// The whole way: the typed text is read into words, the least plans of their sheet are listed, and the answer is printed.
pub fn list_plans(text: &[u8], out: &mut [u8; 230000]) -> usize
    ensures { ListsText text.now out.old result out.new }
{
    let mut words = rooms::words_room();
    match typed::read(text, &mut words) {
        Ok(count) => list_sheet(&words[0..count], out),
        Err(mistaken) => print_refused(mistaken, out),
    }
}
