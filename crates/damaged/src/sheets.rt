// Document 01's four-device sheet, damaged in every way, and sheets as long as they may be.
use crate::telling::tell_sheet;
use std::io;

const FOUR: [i32; 15] = [4, 5, 2, 4, 3, 3, 2, 1, 2, 2, -2, 3, 2, -1, 4];

fn try_sheet(rt: &HostRuntime, words: &[i32], room: usize) -> io::Result<()> {
    let mut costs = [0u32; 200];
    let mut codes = [0u16; 16384];
    let mut starts = [0u16; 2001];
    tell_sheet(
        rt,
        sheet::read(words, room, &mut costs, &mut codes, &mut starts),
    )?;
    Ok(())
}

// Every prefix, from no words to the whole sheet.
pub(crate) fn prefixes(rt: &HostRuntime) -> io::Result<()> {
    let words = FOUR;
    for k in 0..16 {
        try_sheet(rt, &words[0..k], 200)?;
    }
    Ok(())
}

// Each word replaced by each of eight.
pub(crate) fn replacements(rt: &HostRuntime) -> io::Result<()> {
    for i in 0..15 {
        for word in [-2147483648, -1, 0, 33, 201, 2001, 1000000001, 2147483647] {
            let mut words = FOUR;
            words[i] = word;
            try_sheet(rt, &words, 200)?;
        }
    }
    Ok(())
}

// One and many extra words, with room and with too little; too little room; a rule where there is no device.
pub(crate) fn extras(rt: &HostRuntime) -> io::Result<()> {
    let words = [
        4, 5, 2, 4, 3, 3, 2, 1, 2, 2, -2, 3, 2, -1, 4, 0, -7, 2147483647, 5, 5,
    ];
    try_sheet(rt, &words[0..16], 200)?;
    try_sheet(rt, &words, 200)?;
    try_sheet(rt, &words[0..16], 3)?;
    try_sheet(rt, &words, 0)?;
    try_sheet(rt, &words[0..15], 4)?;
    try_sheet(rt, &words[0..15], 3)?;
    let lone = [0, 1, 1, 1];
    try_sheet(rt, &lone, 200)?;
    Ok(())
}

// Word k of a sheet of 14 devices and 528 rules of width 30: 16,384 words.
fn full_word(k: usize) -> i32 {
    if k == 0 {
        return 14;
    }
    if k < 15 {
        return 1;
    }
    if k == 15 {
        return 528;
    }
    let p = (k - 16) % 31;
    if p == 0 {
        return 30;
    }
    ((p - 1) % 14 + 1) as i32
}

fn full() -> [i32; 16385] {
    let mut words = [0i32; 16385];
    for (k, word) in words.iter_mut().enumerate() {
        *word = full_word(k);
    }
    words
}

// Exactly 16,384 words, one more, and one more whose first is bad.
pub(crate) fn long_sheets(rt: &HostRuntime) -> io::Result<()> {
    let mut words = full();
    try_sheet(rt, &words[0..16384], 200)?;
    try_sheet(rt, &words, 200)?;
    words[0] = -1;
    try_sheet(rt, &words, 200)?;
    Ok(())
}
