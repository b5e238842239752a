// What stands before the first token: separators, and the lines that start with `c`.
ghost use Rattle.std.specs.Prelude.{◌≡◌};
ghost use Rattle.dimacs.specs.File.{line_byte, spot_after, lead_length};
ghost use Rattle.dimacs.specs.declared.lead.Spot.TheVariants.{LineStart};

// Where a byte of a file leads: to the start of a line, to separators behind one, into a comment, or to the first token.
#[derive(Clone, Copy)]
pub(crate) enum Spot {
    LineStart,
    Blank,
    Comment,
    TokenStart,
}

// A byte of a line that is no comment.
fn line_byte(b: u8) -> Spot
    ensures { result ≡ line_byte b }
{
    match b {
        b'\n' => Spot::LineStart,
        b'\t' | b'\r' | b' ' => Spot::Blank,
        _ => Spot::TokenStart,
    }
}

// Where a byte leads from a spot. By the spot first: with a `match` of the pair a file of comment lines takes a quarter more time.
fn spot_after(spot: Spot, b: u8) -> Spot
    ensures { result ≡ spot_after spot b }
{
    match spot {
        Spot::LineStart => {
            if b == b'c' {
                Spot::Comment
            } else {
                line_byte(b)
            }
        }
        Spot::Blank => line_byte(b),
        Spot::Comment => {
            if b == b'\n' {
                Spot::LineStart
            } else {
                Spot::Comment
            }
        }
        Spot::TokenStart => Spot::TokenStart,
    }
}

// How many bytes stand before the first token.
pub(crate) fn lead_end(text: &[u8]) -> usize
    ensures { result ≡ lead_length LineStart text.now }
{
    let mut spot = Spot::LineStart;
    for (i, b) in text.iter().enumerate() {
        spot = spot_after(spot, *b);
        if let Spot::TokenStart = spot {
            return i;
        }
    }
    text.len()
}
