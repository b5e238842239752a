// A DIMACS CNF file on standard input, the least plan of its sheet on standard output. 02, request 2.
#![tactic(auto)]

use std::io;
use std::io::{Input, Write};

// Reads, answers and writes, and does nothing else.
fn main(rt: HostRuntime) -> io::Result<()> {
    let mut text = rooms::text_room();
    let Ok(n) = input::read_input(&mut rt.reader(), &mut text) else {
        return eprintln!(rt; "cnfplan: standard input could not be read");
    };
    let mut out = rooms::reply_room();
    let m = reply::answer_file(&text[..n], &mut out);
    io::writer(&rt).write_all(&out[..m])
}
