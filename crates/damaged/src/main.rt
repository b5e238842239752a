// Runs damaged sheets and texts through the readers and prints each answer on a line. What it must print is worked out by
// tests/damaged.py, from document 01.
#![tactic(auto)]

mod sheets;
mod telling;
mod texts;

use std::io;

fn main(rt: HostRuntime) -> io::Result<()> {
    sheets::prefixes(&rt)?;
    sheets::replacements(&rt)?;
    sheets::extras(&rt)?;
    sheets::long_sheets(&rt)?;
    texts::separators(&rt)?;
    texts::wrong_bytes(&rt)?;
    texts::tokens(&rt)?;
    texts::rooms(&rt)?;
    texts::long_texts(&rt)?;
    Ok(())
}
