// Runs every row of the tables of known answers from its typed text, with its own budget and plan room, and prints each answer with
// the plan room afterwards. What it must print is in tests/rows.py.
#![tactic(auto)]

mod tables;
mod telling;

use std::io;

fn main(rt: HostRuntime) -> io::Result<()> {
    tables::starred_small(&rt)?;
    tables::starred_pairs(&rt)?;
    tables::starred_large(&rt)?;
    tables::refused_counts(&rt)?;
    tables::refused_rules(&rt)?;
    tables::astray_steps(&rt)?;
    tables::astray_order(&rt)?;
    tables::astray_ends(&rt)?;
    tables::counts(&rt)?;
    tables::doors(&rt)?;
    Ok(())
}
