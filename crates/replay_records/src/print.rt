// What is written, in columns.
use std::io;

fn part_of(rt: &impl Print, names: &[u8], from: usize, to: usize) -> io::Result<()> {
    if to < from {
        return Ok(());
    }
    if names.len() < to {
        return Ok(());
    }
    rt.write_all(&names[from..to])
}

// The names of reference/vectors/records.txt, by number, in 20 bytes each.
pub fn function(rt: &impl Print, number: u64) -> io::Result<()> {
    if 9 < number {
        return Ok(());
    }
    let from = 20 * (number as usize);
    part_of(
        rt,
        b"read                justification       inactivity          rewards             registry            slashings           effective-balances  slashings-reset     participation-flags close               ",
        from,
        from + 20,
    )
}

// The parts of an answer, by their numbers in vectors::records, in 10 bytes each.
fn part(rt: &impl Print, differs: u64) -> io::Result<()> {
    if 8 < differs {
        return Ok(());
    }
    let from = 10 * (differs as usize);
    part_of(
        rt,
        b"          refusal   position  settings  finality  roots     registry  slashings raised    ",
        from,
        from + 10,
    )
}

pub fn difference(rt: &impl Print, number: u64, differs: u64, record: u64) -> io::Result<()> {
    function(rt, number)?;
    part(rt, differs)?;
    println!(rt; "differs in record {record}")
}

// Says so where a record is not whole, and passes that on.
pub fn whole(rt: &impl Print, record: u64, is_whole: bool) -> io::Result<bool> {
    if is_whole {
        return Ok(true);
    }
    println!(rt; "malformed: record {record}")?;
    Ok(false)
}
