// How a row is run and its answer printed. Each plan room holds nines before it is lent.
ghost use Rattle.std.specs.Prelude.{◌<◌, ◌^◌};

use refusals::{Kind, Refused};
use search::Answer;
use std::io;

// The numbers of a refusal: `refused CODE PLACE`, for a width `refused 19 PLACE RULE`. `damaged` has the same, and says why.
fn tell_refusal<K: Kind>(rt: &HostRuntime, refused: Refused<K>) -> io::Result<()> {
    let mut numbers = [0; 4];
    let count = refused.tell(&mut numbers);
    print!(rt; "refused")?;
    for n in &numbers[..count] {
        print!(rt; " {n}")?;
    }
    Ok(())
}

// `least COST HELD OPENED`, `none OPENED` or `spent OPENED`.
fn tell_answer(rt: &HostRuntime, answer: Answer) -> io::Result<()> {
    match answer {
        Answer::Least { cost, held, opened } => print!(rt; "least {cost} {held} {opened}"),
        Answer::None(opened) => print!(rt; "none {opened}"),
        Answer::Spent(opened) => print!(rt; "spent {opened}"),
    }
}

// The text is read into words, and the words are searched.
fn search_text(rt: &HostRuntime, text: &[u8], budget: u32, room: &mut [u8]) -> io::Result<()> {
    let mut words = [0; 32];
    match typed::read(text, &mut words) {
        Ok(count) => match search::least_plan(&words[..count], budget, room) {
            Ok(answer) => tell_answer(rt, answer),
            Err(refused) => tell_refusal(rt, refused),
        },
        Err(refused) => tell_refusal(rt, refused),
    }
}

// A row with a plan room of N bytes, which is no larger than an array may be.
pub(crate) fn row<const N: usize>(rt: &HostRuntime, text: &[u8], budget: u32) -> io::Result<()>
    requires { N < 2 ^ 63 }
{
    let mut room = [9; N];
    search_text(rt, text, budget, &mut room)?;
    print!(rt; ", room")?;
    for mark in &room {
        print!(rt; " {mark}")?;
    }
    print!(rt; "\n")
}
