// What `maxsat` prints, as bytes in a lent room, and the whole way to it: from a typed text to the WCNF text of its sheet. 02, request 4.
#![tactic(auto)]

ghost use Rattle.std.specs.Prelude.{◌≡◌};
ghost use Rattle.handing.specs.Contract.{chosen, HandsSheet, Hands};

use printing::print_refused;
use wcnf::Edition;

// The edition that a program's arguments ask for, by how many they are, the program's name among them, and the first behind the name: none
// asks for the edition from 2022, `old` alone for the one before, and any other for none that there is. 02, request 4: "Both editions are
// kept".
pub fn edition_for(count: usize, word: &[u8]) -> Option<Edition>
    ensures { result ≡ chosen count word.now }
{
    match count {
        0 | 1 => Some(Edition::Since2022),
        2 if word == b"old".as_slice() => Some(Edition::Before2022),
        _ => None,
    }
}

// Behind the reader: the text of a sheet, or the line of its refusal.
fn hand_sheet(words: &[i32], edition: Edition, out: &mut [u8; 100000]) -> usize
    ensures { HandsSheet words.now edition out.old result out.new }
{
    match wcnf::write(words, edition, out) {
        Ok(size) => size,
        Err(obstacle) => print_refused(obstacle, out),
    }
}

// The whole way: the typed text is read into words, and the text of their sheet is written.
pub fn hand_over(text: &[u8], edition: Edition, out: &mut [u8; 100000]) -> usize
    ensures { Hands text.now edition out.old result out.new }
{
    let mut words = rooms::words_room();
    match typed::read(text, &mut words) {
        Ok(count) => hand_sheet(&words[0..count], edition, out),
        Err(mistaken) => print_refused(mistaken, out),
    }
}
