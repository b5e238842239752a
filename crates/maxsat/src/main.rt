// A sheet typed on standard input, its WCNF text on standard output, for MaxSAT solvers. 02, request 4.
#![tactic(auto)]

use std::env::{Env, FillError};
use std::io;
use std::io::{Input, Write};
use wcnf::Edition;

// Reads, hands over and writes, and does nothing else.
fn print_text(rt: &HostRuntime, edition: Edition) -> io::Result<()> {
    let mut text = rooms::text_room();
    let Ok(n) = input::read_input(&mut rt.reader(), &mut text) else {
        return eprintln!(rt; "maxsat: standard input could not be read");
    };
    let mut out = rooms::wcnf_room();
    let m = handing::hand_over(&text[..n], edition, &mut out);
    io::writer(rt).write_all(&out[..m])
}

// How many arguments there are, of which one behind the first two counts for all: `edition_for` is asked by a count.
fn count_from_two(rt: &HostRuntime) -> usize {
    let mut word = [0u8; 4];
    match rt.arg(2, &mut word) {
        Err(FillError::NotPresent) => 2,
        _ => 3,
    }
}

// The edition is the one from 2022 on, or with the argument `old` the one before. Four bytes show that an argument is longer than `old`.
fn main(rt: HostRuntime) -> io::Result<()> {
    let mut word = [0u8; 4];
    let asked = match rt.arg(1, &mut word) {
        Ok(size) => handing::edition_for(count_from_two(&rt), &word[0..size]),
        Err(FillError::TooLong) => handing::edition_for(count_from_two(&rt), &word),
        Err(FillError::NotPresent) => handing::edition_for(1, b""),
    };
    match asked {
        Some(edition) => print_text(&rt, edition),
        None => { eprintln!(rt; "maxsat: the only argument is old, for the edition before 2022") }
    }
}
