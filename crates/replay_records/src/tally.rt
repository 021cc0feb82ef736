// How many answers agree. Of each function, 16 numbers apart: at 0 to 6 the answers that agree, by their refusal, 0 where it
// accepts; then all that agree, and all answers. Last, the answers that differ.
use crate::print;
use std::io;
use vectors::word;

const AGREED: usize = 7;

const ASKED: usize = 8;

const DIFFERENCES: usize = 160;

// What is not in the table counts as a difference.
fn place(function: u64, k: usize) -> usize {
    if 9 < function {
        return DIFFERENCES;
    }
    if 15 < k {
        return DIFFERENCES;
    }
    16 * (function as usize) + k
}

fn count(tally: &mut [u64], i: usize) {
    if tally.len() <= i {
        return;
    }
    let n = tally[i];
    if n < 18446744073709551615 {
        tally[i] = n + 1;
    }
}

fn counted(tally: &[u64], function: u64, k: usize) -> u64 {
    word(tally, place(function, k), 0)
}

// How many records were read so far.
pub fn records(tally: &[u64]) -> u64 {
    counted(tally, 0, ASKED)
}

// One answer: which part differs, or 0.
pub fn note(
    rt: &impl Print,
    tally: &mut [u64],
    record: u64,
    function: u64,
    refusal: u64,
    differs: u64,
) -> io::Result<()> {
    count(tally, place(function, ASKED));
    if differs != 0 {
        count(tally, DIFFERENCES);
        return print::difference(rt, function, differs, record);
    }
    count(tally, place(function, AGREED));
    if refusal <= 6 {
        count(tally, place(function, refusal as usize));
    }
    Ok(())
}

fn print_refusal(rt: &impl Print, tally: &[u64], function: u64, refusal: u64) -> io::Result<()> {
    let n = counted(tally, function, refusal as usize);
    if n == 0 {
        return Ok(());
    }
    print!(rt; ", {refusal}: {n}")
}

fn print_refusals(rt: &impl Print, tally: &[u64], function: u64) -> io::Result<()> {
    let accepted = counted(tally, function, 0);
    print!(rt; " (0: {accepted}")?;
    for refusal in 1..7u64 {
        print_refusal(rt, tally, function, refusal)?;
    }
    rt.print(")")
}

fn print_function(rt: &impl Print, tally: &[u64], function: u64) -> io::Result<()> {
    let agreed = counted(tally, function, AGREED);
    let asked = counted(tally, function, ASKED);
    print::function(rt, function)?;
    print!(rt; "{agreed} of {asked} agree")?;
    print_refusals(rt, tally, function)?;
    rt.println("")
}

fn print_functions(rt: &impl Print, tally: &[u64]) -> io::Result<()> {
    for function in 0..10u64 {
        print_function(rt, tally, function)?;
    }
    Ok(())
}

// A line for each function, then whether all agree.
pub fn print(rt: &impl Print, tally: &[u64]) -> io::Result<()> {
    print_functions(rt, tally)?;
    let n = word(tally, DIFFERENCES, 0);
    if n == 0 {
        return rt.println("all agree");
    }
    println!(rt; "{n} differ")
}
