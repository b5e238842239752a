// One word of a sheet.
ghost use Rattle.std.specs.Prelude.{◌≡◌, ◌≤◌, ◌<◌, IfOk, length};
ghost use Rattle.std.proofs.Math.ListN.{get_elem?};
ghost use Rattle.hall.specs.Reading.{up_to, word, entry};
ghost use Rattle.refusals.specs.Contract.{fault_of};
ghost use Rattle.sheet.specs.Word.{split_at, value_at, code_at};
ghost use Rattle.sheet.specs.Check.{count_of, code_of};

use refusals::{Refusal, Refused, Split};

// The word at a place, with its sign split off.
#[tactic(auto, using(crate::proofs::Items::word_laws))]
fn word_at(words: &[i32], at: usize) -> Result<Split, Refused<Refusal>>
    ensures reads { result ≡ split_at (length words.now) (get_elem? words.now at) }
    ensures here { IfOk result (λ split. at < length words.now) }
{
    match words.get(at) {
        Some(word) => Ok(Split::from(*word)),
        None => Err(Refused {
            kind: Refusal::TooShort,
            place: words.len(),
        }),
    }
}

// A number from 0 to `most`; where the word is none, what is refused is of this kind.
pub(crate) fn number_at(
    words: &[i32],
    at: usize,
    most: u32,
    kind: Refusal,
) -> Result<u32, Refused<Refusal>>
    ensures reads { result ≡ count_of (word (fault_of kind) (up_to most) words.now at) }
    ensures small { IfOk result (λ v. v ≤ most) }
    ensures here { IfOk result (λ v. at < length words.now) }
{
    match word_at(words, at)? {
        Split::Up(v) if v <= most => Ok(v),
        _ => Err(Refused { kind, place: at }),
    }
}

// An entry of one of n devices, of which there are at most 200, so that a byte counts them, as its code.
#[tactic(auto, unfolding(crate::specs::Coded::entry_code))]
pub(crate) fn entry_at(words: &[i32], at: usize, n: u8) -> Result<u16, Refused<Refusal>>
    ensures { result ≡ code_of (entry n words.now at) }
{
    match word_at(words, at)? {
        Split::Up(v) if 0 < v && v <= n as u32 => Ok((2 * (v - 1)) as u16),
        Split::Down(k) if k < n as u32 => Ok((2 * k + 1) as u16),
        _ => Err(Refused {
            kind: Refusal::BadEntry,
            place: at,
        }),
    }
}

// The number that stands at a place of a good sheet.
pub(crate) fn value_at(words: &[i32], at: usize) -> u32
    ensures { result ≡ value_at words.now at }
{
    match word_at(words, at) {
        Ok(Split::Up(v)) => v,
        _ => 0,
    }
}

// The code of the entry that stands at a place of a good sheet.
pub(crate) fn code_at(words: &[i32], at: usize, n: u8) -> u16
    ensures { result ≡ code_at n words.now at }
{
    entry_at(words, at, n).unwrap_or(0)
}
