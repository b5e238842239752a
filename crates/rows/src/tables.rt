// The rows of document 01's table, and rows of our own: ways a planner goes astray, which count was wrong, and a rule that names both
// positions of a device; as crates/hall/specs/Table.antt has them.
use crate::telling::row;
use std::io;

// Document 01's rows with a star, up to two devices.
pub(crate) fn starred_small(rt: &HostRuntime) -> io::Result<()> {
    row::<8>(rt, b"0 0", 1000)?;
    row::<8>(rt, b"0 1 0", 1000)?;
    row::<8>(rt, b"1 4 2 1 1 1 -1", 1000)?;
    row::<8>(rt, b"2 0 0 1 1 1", 1000)?;
    Ok(())
}

// The rows with a star that offer a choice.
pub(crate) fn starred_pairs(rt: &HostRuntime) -> io::Result<()> {
    row::<8>(rt, b"2 3 3 1 2 2 1", 1000)?;
    row::<8>(rt, b"2 1 10 1 2 1 2", 1000)?;
    row::<8>(rt, b"2 1 10 1 2 1 2", 2)?;
    row::<8>(rt, b"1 4 1 2 -1 1", 1000)?;
    Ok(())
}

// The rows with a star and more devices.
pub(crate) fn starred_large(rt: &HostRuntime) -> io::Result<()> {
    row::<8>(rt, b"4 5 2 4 3 3 2 1 2 2 -2 3 2 -1 4", 1000)?;
    row::<8>(
        rt,
        b"5 1000000000 1000000000 1000000000 1000000000 1000000000 5 1 1 1 2 1 3 1 4 1 5",
        1000,
    )?;
    row::<8>(
        rt,
        b"4 1000000000 1000000000 1000000000 1000000000 3 2 1 4 2 2 4 2 3 4",
        1000,
    )?;
    Ok(())
}

// Document 01's other rows: counts and costs.
pub(crate) fn refused_counts(rt: &HostRuntime) -> io::Result<()> {
    row::<8>(rt, b"", 1000)?;
    row::<8>(rt, b"201", 1000)?;
    row::<8>(rt, b"1 1000000000 0", 1000)?;
    row::<8>(rt, b"1 1000000001 0", 1000)?;
    row::<8>(rt, b"1 5 1 1", 1000)?;
    Ok(())
}

// Document 01's other rows: rules, the end, the room and the budget.
pub(crate) fn refused_rules(rt: &HostRuntime) -> io::Result<()> {
    row::<8>(rt, b"1 5 1 1 2", 1000)?;
    row::<8>(rt, b"1 5 1 33", 1000)?;
    row::<8>(rt, b"1 5 0 7", 1000)?;
    row::<0>(rt, b"1 5 0", 1000)?;
    row::<8>(rt, b"0 0", 0)?;
    Ok(())
}

// Ways astray in the walk's steps.
pub(crate) fn astray_steps(rt: &HostRuntime) -> io::Result<()> {
    row::<8>(rt, b"3 1 1 0 2 2 1 2 1 3", 1000)?;
    row::<8>(rt, b"2 1 1 2 2 1 2 1 1", 1000)?;
    row::<8>(rt, b"1 4 1 2 1 1", 1000)?;
    row::<8>(rt, b"1 0 2 1 1 0", 1000)?;
    Ok(())
}

// Ways astray in the order of plans.
pub(crate) fn astray_order(rt: &HostRuntime) -> io::Result<()> {
    row::<8>(rt, b"2 3 3 1 2 1 2", 1000)?;
    row::<8>(rt, b"3 0 0 0 2 2 2 1 2 3 1", 1000)?;
    row::<8>(rt, b"3 3 1 1 2 2 1 2 2 1 3", 1000)?;
    Ok(())
}

// Ways astray at the budget and in the order of checks.
pub(crate) fn astray_ends(rt: &HostRuntime) -> io::Result<()> {
    row::<8>(rt, b"4 5 2 4 3 3 2 1 2 2 -2 3 2 -1 4", 10)?;
    row::<8>(rt, b"4 5 2 4 3 3 2 1 2 2 -2 3 2 -1 4", 9)?;
    row::<8>(rt, b"1 5 0 7", 0)?;
    row::<0>(rt, b"1 5 0 7", 1000)?;
    row::<8>(rt, b"0 2000 1 1", 1000)?;
    Ok(())
}

// Which count was wrong.
pub(crate) fn counts(rt: &HostRuntime) -> io::Result<()> {
    row::<8>(rt, b"-1", 1000)?;
    row::<8>(rt, b"0 2001", 1000)?;
    row::<8>(rt, b"1 5 -1", 1000)?;
    row::<8>(rt, b"1 5 1 -1", 1000)?;
    row::<8>(rt, b"1 5 4 0 2 1 -1 33", 1000)?;
    row::<8>(rt, b"0 2 0 40 7", 1000)?;
    row::<8>(rt, b"1 5 2 0 1 2", 1000)?;
    row::<8>(rt, b"1 5 2 0", 1000)?;
    Ok(())
}

// A rule that names both positions of a device, by itself and among others; and rules that do not, though they nearly do.
pub(crate) fn doors(rt: &HostRuntime) -> io::Result<()> {
    row::<8>(rt, b"1 4 1 2 -1 1", 1)?;
    row::<8>(rt, b"2 5 7 1 3 1 2 -1", 1000)?;
    row::<8>(rt, b"2 5 7 2 2 1 -1 1 2", 1000)?;
    row::<8>(rt, b"2 5 7 2 2 1 -1 1 2", 1)?;
    row::<8>(rt, b"2 5 7 2 1 2 4 1 1 -1 -1", 1000)?;
    row::<8>(rt, b"2 5 7 3 2 1 -1 2 -2 2 3 2 1 -2", 1000)?;
    row::<8>(rt, b"3 1 1 1 3 1 3 3 1 -3 -1 1 -2", 1000)?;
    row::<8>(rt, b"1 4 2 3 1 -1 1 0", 1000)?;
    row::<8>(rt, b"2 5 7 3 2 -2 2 1 1 1 -1", 1000)?;
    row::<8>(rt, b"1 4 2 2 1 1 2 -1 -1", 1000)?;
    row::<8>(rt, b"2 1 10 1 2 1 -2", 1000)?;
    row::<8>(rt, b"1 4 1 2 -1 -1", 1000)?;
    Ok(())
}
