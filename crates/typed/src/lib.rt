// Sheets typed as text: a lent room of words is filled with the values of a text's tokens. And one token by itself, for the readers of
// other texts.
//
// The text is read twice: `scan` finds the first mistake or the number of words and writes nothing, `fill` writes. So the room
// is unchanged on every refusal, and no copy of it is needed. A text and a place in it travel as two arguments: a place is all that a token
// found tells, and a value of both would only be taken apart again.
#![tactic(auto)]

ghost use Rattle.std.specs.Prelude.{◌≡◌, [], ◌∷◌};
ghost use Rattle.typed.specs.Text.{mistake_code, tokens_at};
ghost use Rattle.typed.specs.Answer.{Reads};
ghost use Rattle.typed.specs.Next.{span_of, next_of};

mod bytes;
mod token;
mod words;

use bytes::{token_len, token_start};
use refusals::{Kind, Refused, tell_code};
use token::said_by;
use words::{fill, scan};

// The kinds of mistake, in the table's order.
#[derive(Clone, Copy, PartialEq, Eq)]
pub enum Mistake {
    WrongByte,
    BadNumber,
    TooLong,
    NoRoom,
}

impl Kind for Mistake {
    // The paper's code of each kind of mistake, and its place.
    ghost told = { λ mistake place. mistake_code mistake ∷ place ∷ [] };

    fn tell(self, place: usize, numbers: &mut [u64; 4]) -> usize {
        match self {
            Mistake::WrongByte => tell_code(21, place, numbers),
            Mistake::BadNumber => tell_code(22, place, numbers),
            Mistake::TooLong => tell_code(23, place, numbers),
            Mistake::NoRoom => tell_code(24, place, numbers),
        }
    }
}

// Where a token starts and ends.
#[derive(Clone, Copy, PartialEq, Eq)]
pub struct Span {
    pub start: usize,
    pub end: usize,
}

// A word, with the places where its token starts and ends.
#[derive(Clone, Copy, PartialEq, Eq)]
pub struct Found {
    pub word: i32,
    pub start: usize,
    pub end: usize,
}

// The next token from a place on, at which none is going on. Behind the text's end there is none.
#[tactic(auto, using(crate::proofs::Splitting::next_span, crate::proofs::Splitting::span_past))]
pub fn next_token(text: &[u8], from: usize) -> Option<Span>
    ensures { result ≡ span_of (tokens_at text.now from) }
{
    let start = from + token_start(text.get(from..)?)?;
    let end = start + token_len(&text[start..]);
    Some(Span { start, end })
}

// The next word from a place on, at which no token is going on.
#[tactic(auto, using(crate::proofs::Splitting::span_within))]
pub fn next_word(text: &[u8], from: usize) -> Result<Option<Found>, Refused<Mistake>>
    ensures { result ≡ next_of (tokens_at text.now from) }
{
    let Some(Span { start, end }) = next_token(text, from) else {
        return Ok(None);
    };
    let word = said_by(&text[start..end], start)?;
    Ok(Some(Found { word, start, end }))
}

// The values of a text's tokens go to the front of the room; how many they are is returned. Where there is a mistake, the room stays
// as it was.
pub fn read(text: &[u8], room: &mut [i32]) -> Result<usize, Refused<Mistake>>
    ensures { Reads text.now room.old result room.new }
{
    if 60000 < text.len() {
        return Err(Refused {
            kind: Mistake::TooLong,
            place: 60000,
        });
    }
    let words = scan(text, room.len())?;
    fill(text, &mut room[..words]);
    Ok(words)
}
