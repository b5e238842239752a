// A sheet typed on standard input, all plans that tie with its least one on standard output. 02, request 5.
#![tactic(auto)]

use std::io;
use std::io::{Input, Write};

// Reads, lists and writes, and does nothing else.
fn main(rt: HostRuntime) -> io::Result<()> {
    let mut text = rooms::text_room();
    let Ok(n) = input::read_input(&mut rt.reader(), &mut text) else {
        return eprintln!(rt; "ties: standard input could not be read");
    };
    let mut out = rooms::list_room();
    let m = foreman::list_plans(&text[..n], &mut out);
    io::writer(&rt).write_all(&out[..m])
}
