// The rooms of fixed size that one function makes and others are lent, each filled with 0.
//
// Each is made by a function of its own: where a function that proves something wrote `[0; 16384]` itself, the elements would be spelled
// out in its every goal. They are eleven and not one over a type and a size: a call of that one would be no plainer than `[0; 16384]`, and
// each has its size in its contract, with two wrong programs that are about this room.
#![tactic(auto)]

ghost use Rattle.std.specs.Prelude.{◌≡◌, replicate, pos};

// One byte more than the longest text that is not refused for its length.
pub fn text_room() -> [u8; 60001]
    ensures { result ≡ replicate 60001 0 }
{
    [0u8; 60001]
}

// The words of any sheet.
pub fn words_room() -> [i32; 16384]
    ensures { result ≡ replicate 16384 (pos 0) }
{
    [0i32; 16384]
}

// The costs of any hall.
pub fn costs_room() -> [u32; 200]
    ensures { result ≡ replicate 200 0 }
{
    [0u32; 200]
}

// The codes of the entries of any sheet.
pub fn codes_room() -> [u16; 16384]
    ensures { result ≡ replicate 16384 0 }
{
    [0u16; 16384]
}

// The starts of all rules, and the end of the last.
pub fn starts_room() -> [u16; 2001]
    ensures { result ≡ replicate 2001 0 }
{
    [0u16; 2001]
}

// A plan of any hall, with nothing held.
pub fn plan_room() -> [u8; 200]
    ensures { result ≡ replicate 200 0 }
{
    [0u8; 200]
}

// The lines of any answer.
pub fn reply_room() -> [u8; 1024]
    ensures { result ≡ replicate 1024 0 }
{
    [0u8; 1024]
}

// The WCNF text of any sheet, in either edition.
pub fn wcnf_room() -> [u8; 100000]
    ensures { result ≡ replicate 100000 0 }
{
    [0u8; 100000]
}

// 256 plans of any hall.
pub fn ties_room() -> [u8; 51200]
    ensures { result ≡ replicate 51200 0 }
{
    [0u8; 51200]
}

// The best plan of any hall, and 256 that equal it.
pub fn kept_room() -> [u8; 51400]
    ensures { result ≡ replicate 51400 0 }
{
    [0u8; 51400]
}

// The lines of any list: two of numbers, and those of 256 plans.
pub fn list_room() -> [u8; 230000]
    ensures { result ≡ replicate 230000 0 }
{
    [0u8; 230000]
}
