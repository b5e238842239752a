// The next number of a file: a word of a typed text, whose mistakes are flaws of the file.
ghost use Rattle.std.specs.Prelude.{◌≡◌};
ghost use Rattle.typed.specs.Text.{tokens_at};
ghost use Rattle.typed.specs.Next.{next_of};
ghost use Rattle.dimacs.specs.Steps.{flawed};

use crate::Flaw;
use refusals::Refused;
use typed::Found;

// The next number from a place on, at which no token is going on.
pub(crate) fn next_number(text: &[u8], from: usize) -> Result<Option<Found>, Refused<Flaw>>
    ensures { result ≡ flawed (next_of (tokens_at text.now from)) }
{
    typed::next_word(text, from).map_err(Refused::under)
}
