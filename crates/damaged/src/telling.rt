// How an answer is printed.
use refusals::{Kind, Refusal, Refused};
use sheet::Size;
use std::io;
use typed::Mistake;

// The numbers of a refusal: `refused CODE PLACE`, for a width `refused 19 PLACE RULE`. `rows` has the same: a crate for these lines alone,
// or an `impl Display` in `refusals`, would be no plainer, and public code that no contract speaks of.
fn tell_refusal<K: Kind>(rt: &HostRuntime, refused: Refused<K>) -> io::Result<()> {
    let mut numbers = [0; 4];
    let count = refused.tell(&mut numbers);
    print!(rt; "refused")?;
    for n in &numbers[..count] {
        print!(rt; " {n}")?;
    }
    Ok(())
}

// `hall DEVICES RULES`, or a refusal.
pub(crate) fn tell_sheet(
    rt: &HostRuntime,
    answer: Result<Size, Refused<Refusal>>,
) -> io::Result<()> {
    match answer {
        Ok(Size { devices, rules }) => print!(rt; "hall {devices} {rules}")?,
        Err(refused) => tell_refusal(rt, refused)?,
    }
    print!(rt; "\n")
}

// `words W` or `refused CODE PLACE`, then the room afterwards.
pub(crate) fn tell_text(
    rt: &HostRuntime,
    answer: Result<usize, Refused<Mistake>>,
    room: &[i32],
) -> io::Result<()> {
    match answer {
        Ok(count) => print!(rt; "words {count}")?,
        Err(refused) => tell_refusal(rt, refused)?,
    }
    print!(rt; ", room")?;
    for word in room {
        print!(rt; " {word}")?;
    }
    print!(rt; "\n")
}
