// One token: an optional minus and 1 to 10 digits, whose value fits a word.
ghost use Rattle.std.specs.Prelude.{◌≡◌, ◌+◌, ◌^◌, ◌≤◌, ◌<◌, cond, length};
ghost use Rattle.typed.specs.Text.{digits_in, decimal, signed, number_of, value_of, placed};
ghost use Rattle.typed.specs.Steps.{fitted, said_of};

use crate::Mistake;
use crate::bytes::digits_in;
use refusals::Refused;

// The number that at most 10 digits say.
#[tactic(auto, using(crate::proofs::Decimals::byte_range, crate::proofs::Decimals::bounded, crate::proofs::Decimals::summed_all))]
fn value_of(digits: &[u8]) -> u64
    requires { (length digits.now ≤ 10) × (digits_in digits.now ≡ length digits.now) }
    ensures says { result ≡ decimal 0 digits.now }
    ensures small { result < 10 ^ 10 }
{
    let mut n = 0;
    for b in digits {
        n = n * 10 + u64::from(b - b'0');
    }
    n
}

// A size with its sign as a word, if it is one.
fn signed_of(minus: bool, size: u64) -> Option<i32>
    requires { size < 10 ^ 10 }
    ensures { result ≡ fitted (signed minus size) }
{
    let size = size as i64;
    i32::try_from(if minus { -size } else { size }).ok()
}

// What stands behind the optional minus of the token at `place`.
#[tactic(auto, using(crate::proofs::Fronts::front_counted, crate::proofs::Fronts::front_length), unfolding(crate::specs::Text::number_of))]
fn number_of(digits: &[u8], minus: bool, place: usize) -> Result<i32, Refused<Mistake>>
    requires { place + cond minus 1 0 + length digits.now < 2 ^ 64 }
    ensures { result ≡ said_of (number_of minus place digits.now) }
{
    let count = digits_in(digits);
    if count == 0 || count < digits.len() {
        return Err(Refused {
            kind: Mistake::WrongByte,
            place: place + usize::from(minus) + count,
        });
    }
    let bad = Refused {
        kind: Mistake::BadNumber,
        place,
    };
    if 10 < digits.len() {
        return Err(bad);
    }
    signed_of(minus, value_of(digits)).ok_or(bad)
}

// The token at `place`, whole.
pub(crate) fn said_by(token: &[u8], place: usize) -> Result<i32, Refused<Mistake>>
    requires { (0 < length token.now) × (place + length token.now < 2 ^ 64) }
    ensures { result ≡ said_of (value_of (placed place token.now)) }
{
    match token {
        [b'-', digits @ ..] => number_of(digits, true, place),
        _ => number_of(token, false, place),
    }
}
