// Replays the stored list of leaf cases, read from standard input, on the proved leaves, and prints how many agree.
#![tactic(auto)]

mod entry;
mod print;
mod registry;
mod reward;
mod slot;

use std::io;
use std::io::BufRead;
use vectors::{Case, word};

fn agrees(c: Case, words: &[u64], bytes: &[u8], room: &mut [u64]) -> bool {
    let leaf = c.leaf;
    if leaf <= 7 {
        return entry::agrees(c, words);
    }
    if leaf <= 16 {
        return slot::agrees(c, words, bytes);
    }
    if leaf <= 23 {
        return registry::agrees(c, words, room);
    }
    reward::agrees(c, words, bytes)
}

// The tally has all cases at 0 and each leaf's at its number, and those that agree 32 further on.
fn count(tally: &mut [u64], place: usize, more: usize) {
    let n = word(&tally[..], place, more);
    if tally.len() <= place {
        return;
    }
    if tally.len() - place <= more {
        return;
    }
    if n < 18446744073709551615 {
        tally[place + more] = n + 1;
    }
}

// False where the case is malformed.
fn replay_case(
    rt: &impl Print,
    words: &[u64],
    bytes: &[u8],
    at: usize,
    end: usize,
    room: &mut [u64],
    tally: &mut [u64],
) -> io::Result<bool> {
    let c = vectors::read_case(words, at, end);
    if !c.is_whole {
        return Ok(false);
    }
    let leaf = c.leaf;
    let place = leaf as usize;
    count(tally, 0, 0);
    count(tally, place, 0);
    if agrees(c, words, bytes, room) {
        count(tally, 0, 32);
        count(tally, place, 32);
        return Ok(true);
    }
    print::wrong(rt, leaf, word(tally, 0, 0))?;
    Ok(true)
}

// False where a case is malformed.
fn replay_cases(
    rt: &impl Print,
    words: &[u64],
    bytes: &[u8],
    room: &mut [u64],
    tally: &mut [u64],
) -> io::Result<bool> {
    let mut at = vectors::first_case(words);
    for _ in 0..word(words, 0, 0) {
        let end = vectors::next_case(words, at);
        if !replay_case(rt, words, bytes, at, end, room, tally)? {
            return Ok(false);
        }
        at = end;
    }
    Ok(true)
}

// What came of reading a block.
#[derive(Clone, Copy)]
enum Block {
    Ended,
    Replayed,
    Malformed,
}

fn replay_block(
    rt: &impl Print,
    reader: &mut impl BufRead,
    tally: &mut [u64],
) -> io::Result<Block> {
    if reader.fill_buf()?.is_empty() {
        return Ok(Block::Ended);
    }
    let mut bytes = [0u8; 65536];
    if reader.read_exact(&mut bytes).is_err() {
        return Ok(Block::Malformed);
    }
    let mut words = vectors::room();
    if !vectors::fill(&bytes, &mut words) {
        return Ok(Block::Malformed);
    }
    let mut room = vectors::room();
    if replay_cases(rt, &words, &bytes, &mut room, tally)? {
        return Ok(Block::Replayed);
    }
    Ok(Block::Malformed)
}

// A proved loop has to end, and nothing says that the input does: no run uses up these turns.
fn replay(rt: &impl Print, reader: &mut impl BufRead, tally: &mut [u64]) -> io::Result<bool> {
    for _ in 0..u64::MAX {
        match replay_block(rt, reader, tally)? {
            Block::Ended => return Ok(true),
            Block::Replayed => {}
            Block::Malformed => return Ok(false),
        }
    }
    Ok(false)
}

fn print_leaf(rt: &impl Print, tally: &[u64], leaf: usize) -> io::Result<()> {
    rt.print(print::name(leaf as u64))?;
    rt.print(" ")?;
    print::of(rt, word(tally, leaf, 32), word(tally, leaf, 0))?;
    rt.println("")
}

fn print_tally(rt: &impl Print, tally: &[u64]) -> io::Result<()> {
    for leaf in 1..30usize {
        print_leaf(rt, tally, leaf)?;
    }
    print::of(rt, word(tally, 0, 32), word(tally, 0, 0))?;
    rt.println(" leaf cases agree")
}

fn main(rt: HostRuntime) -> io::Result<()> {
    let mut tally = [0u64; 64];
    if replay(&rt, &mut rt.reader(), &mut tally)? {
        return print_tally(&rt, &tally);
    }
    rt.println("bad block")
}
