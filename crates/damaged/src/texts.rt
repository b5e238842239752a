// Typed texts with every kind of mistake, and rooms of every size. Each room holds sevens before it is lent.
ghost use Rattle.std.specs.Prelude.{◌*◌, ◌<◌, ◌^◌};

use crate::telling::tell_text;
use std::io;

// A room of N words, which is no larger than an array may be.
fn with_room<const N: usize>(rt: &HostRuntime, text: &[u8]) -> io::Result<()>
    requires { N * 4 < 2 ^ 63 }
{
    let mut room = [7; N];
    let answer = typed::read(text, &mut room);
    tell_text(rt, answer, &room)
}

// No token at all; separators between tokens and at both ends.
pub(crate) fn separators(rt: &HostRuntime) -> io::Result<()> {
    with_room::<2>(rt, b"")?;
    with_room::<2>(rt, b"   ")?;
    with_room::<2>(rt, &[9, 10, 13, 32])?;
    with_room::<2>(rt, &[9, 49, 13, 50, 9])?;
    with_room::<2>(rt, &[13, 49, 9, 9, 50, 13])?;
    with_room::<2>(rt, &[10, 32, 49, 10, 50, 32, 10])?;
    Ok(())
}

// A wrong byte alone, and between two digits.
fn wrong_byte(rt: &HostRuntime, b: u8) -> io::Result<()> {
    with_room::<2>(rt, &[b])?;
    with_room::<2>(rt, &[52, b, 50])?;
    Ok(())
}

pub(crate) fn wrong_bytes(rt: &HostRuntime) -> io::Result<()> {
    wrong_byte(rt, 0)?;
    wrong_byte(rt, 11)?;
    wrong_byte(rt, 12)?;
    wrong_byte(rt, 43)?;
    wrong_byte(rt, 128)?;
    wrong_byte(rt, 255)?;
    Ok(())
}

// What is and what is not a token.
pub(crate) fn tokens(rt: &HostRuntime) -> io::Result<()> {
    with_room::<2>(rt, b"-")?;
    with_room::<2>(rt, b"4 -")?;
    with_room::<2>(rt, b"--1")?;
    with_room::<2>(rt, b"1-")?;
    with_room::<2>(rt, b"1-1")?;
    with_room::<2>(rt, b"- 1")?;
    with_room::<2>(rt, b"-0")?;
    with_room::<2>(rt, b"007")?;
    with_room::<2>(rt, b"1234567890")?;
    with_room::<2>(rt, b"0000000001")?;
    with_room::<2>(rt, b"12345678901")?;
    with_room::<2>(rt, b"00000000001")?;
    with_room::<2>(rt, b"2147483647")?;
    with_room::<2>(rt, b"2147483648")?;
    with_room::<2>(rt, b"-2147483648")?;
    with_room::<2>(rt, b"-2147483649")?;
    with_room::<2>(rt, b"4 -2147483649")?;
    Ok(())
}

// A room of none, of exactly as many words as tokens, and of one less; mistakes before and behind the end of the room.
pub(crate) fn rooms(rt: &HostRuntime) -> io::Result<()> {
    with_room::<0>(rt, b"")?;
    with_room::<0>(rt, b"1")?;
    with_room::<0>(rt, b"12345678901")?;
    with_room::<0>(rt, b"12345678901x")?;
    with_room::<2>(rt, b"5 6")?;
    with_room::<3>(rt, b"5 6 -8")?;
    with_room::<2>(rt, b"5 6 -8")?;
    with_room::<2>(rt, b"5 6 x")?;
    with_room::<2>(rt, b"5 6 12345678901")?;
    with_room::<2>(rt, b"5 6 8 x")?;
    with_room::<2>(rt, b"5 x 8")?;
    Ok(())
}

// A token and blanks, of 60,000 bytes and of one more; 60,001 bytes whose first is wrong.
pub(crate) fn long_texts(rt: &HostRuntime) -> io::Result<()> {
    let mut text = [32u8; 60001];
    text[0] = 57;
    with_room::<2>(rt, &text[0..60000])?;
    with_room::<2>(rt, &text)?;
    text[0] = 0;
    with_room::<2>(rt, &text)?;
    Ok(())
}
