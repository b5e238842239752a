// The words of a text, token by token: the first pass counts them, the second writes them.
ghost use Rattle.std.specs.Prelude.{◌≡◌, ◌≤◌, length, IfOk};
ghost use Rattle.typed.specs.Text.{got, tokens, read_tokens};
ghost use Rattle.typed.specs.Answer.{reading_of};

use crate::{Mistake, next_word};
use refusals::Refused;

// The first pass, for a room of so many words: it writes nothing. How many words there are is returned.
pub(crate) fn scan(text: &[u8], room: usize) -> Result<usize, Refused<Mistake>>
    ensures says { result ≡ reading_of (read_tokens room (tokens text.now)) }
    ensures within { IfOk result (λ words. words ≤ room) }
{
    let mut at = 0;
    let mut count = 0;
    while let Some(found) = next_word(text, at)? {
        if room <= count {
            return Err(Refused {
                kind: Mistake::NoRoom,
                place: found.start,
            });
        }
        count += 1;
        at = found.end;
    }
    Ok(count)
}

// The second pass, over a text in which the first found as many words as the room has.
pub(crate) fn fill(text: &[u8], room: &mut [i32])
    requires { reading_of (read_tokens (length room.old) (tokens text.now)) ≡ Ok (length room.old) }
    ensures { read_tokens (length room.old) (tokens text.now) ≡ got room.new }
{
    let mut at = 0;
    for word in room {
        let Ok(Some(found)) = next_word(text, at) else {
            unreachable!();
        };
        *word = found.word;
        at = found.end;
    }
}
