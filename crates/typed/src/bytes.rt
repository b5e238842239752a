// The bytes of a text, and how far a run of like bytes goes.
ghost use Rattle.std.specs.Prelude.{◌≡◌, ◌≤◌, length, position};
ghost use Rattle.std.specs.List.{prefix_len};
ghost use Rattle.typed.specs.Text.{is_separator, in_token, is_digit};

// 01, "separated by one or more of the bytes 9, 10, 13 and 32". As four tests: with `matches!` a text takes a sixth more instructions.
fn is_separator(b: u8) -> bool
    ensures { result ≡ is_separator b }
{
    b == 9 || b == 10 || b == 13 || b == 32
}

// Where the first token begins, if there is one.
pub(crate) fn token_start(bytes: &[u8]) -> Option<usize>
    ensures { result ≡ position in_token bytes.now }
{
    bytes.iter().position(|b| !is_separator(*b))
}

// How many bytes of a token stand at the front.
pub(crate) fn token_len(bytes: &[u8]) -> usize
    ensures counted { result ≡ prefix_len in_token bytes.now }
    ensures within { result ≤ length bytes.now }
{
    bytes.iter().take_while(|b| !is_separator(**b)).count()
}

// How many digits stand at the front.
pub(crate) fn digits_in(bytes: &[u8]) -> usize
    ensures { result ≡ prefix_len is_digit bytes.now }
{
    bytes.iter().take_while(|b| b.is_ascii_digit()).count()
}
