// The header's two words, `p` and `cnf`, each a whole token.
ghost use Rattle.dimacs.specs.Steps.{WordIs, HeaderIs};

use crate::Flaw;
use crate::lead::lead_end;
use refusals::Refused;

// Where the next token from a place on ends: it has to be this word.
fn word_end(text: &[u8], from: usize, word: &[u8]) -> Result<usize, Refused<Flaw>>
    ensures { WordIs text.now from word.now result }
{
    match typed::next_token(text, from) {
        Some(token) if &text[token.start..token.end] == word => Ok(token.end),
        Some(token) => Err(Refused {
            kind: Flaw::NoHeader,
            place: token.start,
        }),
        None => Err(Refused {
            kind: Flaw::NoHeader,
            place: text.len(),
        }),
    }
}

// Where both words end, behind the comments.
pub(crate) fn header_end(text: &[u8]) -> Result<usize, Refused<Flaw>>
    ensures { HeaderIs text.now result }
{
    let p = word_end(text, lead_end(text), b"p")?;
    word_end(text, p, b"cnf")
}
