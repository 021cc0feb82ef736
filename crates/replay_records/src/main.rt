// Replays the stored list of record files, read from standard input, on the proved reading, steps and close, and prints how many
// answers agree: everything that comes back, and every number of the buffers.
#![tactic(auto)]

mod print;
mod read;
mod steps;
mod tally;

use std::io;
use std::io::BufRead;
use vectors::records::{Outcome, Record, in_buffers, in_refusal, unwritten};
use vectors::word;

// Which part of what comes back differs from the stored answer, or 0.
fn given_differs(
    operation: u64,
    r: Record,
    o: Outcome,
    words: &[u64],
    bytes: &[u8],
    registry: &mut [u64],
    slashings: &mut [u64],
) -> u64 {
    match operation {
        0 => read::read_file(r, o, words, bytes, registry, slashings),
        1 => steps::process_justification_and_finalization(r, o, words, bytes),
        7 => in_refusal(steps::process_slashings_reset(r, words, slashings), o),
        9 => steps::close(r, o, words, bytes, registry, slashings),
        _ => in_refusal(steps::step_on_registry(operation, r, words, registry), o),
    }
}

// The same, then the buffers.
fn differs(
    operation: u64,
    r: Record,
    o: Outcome,
    words: &[u64],
    bytes: &[u8],
    registry: &mut [u64],
    slashings: &mut [u64],
) -> u64 {
    let part = given_differs(operation, r, o, words, bytes, registry, slashings);
    in_buffers(part, operation, r, o, words, &registry[..], &slashings[..])
}

// With buffers of the lengths that the record names, in which nothing is written yet.
fn differs_in_room(operation: u64, r: Record, o: Outcome, words: &[u64], bytes: &[u8]) -> u64 {
    let mut registry = vectors::room();
    let mut slashings = vectors::room();
    let n = unwritten(&mut registry, r.closing_registry);
    let m = unwritten(&mut slashings, r.closing_slashings);
    differs(
        operation,
        r,
        o,
        words,
        bytes,
        &mut registry[0..n],
        &mut slashings[0..m],
    )
}

// False where the answers do not fill the record.
fn replay_record(
    rt: &impl Print,
    words: &[u64],
    bytes: &[u8],
    at: usize,
    end: usize,
    tally: &mut [u64],
) -> io::Result<bool> {
    let number = tally::records(tally);
    let r = vectors::records::read_record(words, at, end);
    let answers = r.answers;
    if 10 < answers {
        return print::whole(rt, number, false);
    }
    let mut answer = r.first_answer;
    for operation in 0..answers {
        let o = vectors::records::read_outcome(words, answer, end, operation);
        tally::note(
            rt,
            tally,
            number,
            operation,
            o.refusal,
            differs_in_room(operation, r, o, words, bytes),
        )?;
        answer = o.end;
    }
    print::whole(rt, number, answer == end)
}

// False where a record is malformed.
fn replay_records(
    rt: &impl Print,
    words: &[u64],
    bytes: &[u8],
    tally: &mut [u64],
) -> io::Result<bool> {
    let mut at: usize = 1;
    for _ in 0..word(words, 0, 0) {
        let end = vectors::records::next_record(words, at);
        if !replay_record(rt, words, bytes, at, end, tally)? {
            return Ok(false);
        }
        at = end;
    }
    Ok(true)
}

// What came of reading a block.
#[derive(Clone, Copy)]
enum Block {
    Ended,
    Replayed,
    Malformed,
}

fn replay_block(
    rt: &impl Print,
    reader: &mut impl BufRead,
    tally: &mut [u64],
) -> io::Result<Block> {
    if reader.fill_buf()?.is_empty() {
        return Ok(Block::Ended);
    }
    let mut bytes = [0u8; 65536];
    if reader.read_exact(&mut bytes).is_err() {
        return Ok(Block::Malformed);
    }
    let mut words = vectors::room();
    if !vectors::fill(&bytes, &mut words) {
        return Ok(Block::Malformed);
    }
    if replay_records(rt, &words, &bytes, tally)? {
        return Ok(Block::Replayed);
    }
    Ok(Block::Malformed)
}

// A proved loop has to end, and nothing says that the input does: no run uses up these turns.
fn replay(rt: &impl Print, reader: &mut impl BufRead, tally: &mut [u64]) -> io::Result<bool> {
    for _ in 0..u64::MAX {
        match replay_block(rt, reader, tally)? {
            Block::Ended => return Ok(true),
            Block::Replayed => {}
            Block::Malformed => return Ok(false),
        }
    }
    Ok(false)
}

fn main(rt: HostRuntime) -> io::Result<()> {
    let mut tally = [0u64; 161];
    if replay(&rt, &mut rt.reader(), &mut tally)? {
        return tally::print(&rt, &tally);
    }
    rt.println("the list is malformed")
}
