// Input and output around the listing of a record file.
#![tactic(auto)]

ghost use Rattle.std.specs.Prelude.{◌≡◌, ◌≤◌, length, take};

pub mod outage_console;

use definitions_file::{LONGEST_LISTING, MOST_INPUT};
use listing::list_file;
use std::io::Read;

// One byte more than a record file may have: input that fills it is too long.
fn input() -> [u8; MOST_INPUT + 1]
    ensures { 65537 ≡ length result }
{
    [0; MOST_INPUT + 1]
}

// As long as the longest listing.
fn output() -> [u8; LONGEST_LISTING]
    ensures { 103585 ≡ length result }
{
    [0; LONGEST_LISTING]
}

// Fills the buffer's front, and returns how much of it. A read that fails ends the input.
fn read_full(reader: &mut impl Read, to: &mut [u8]) -> usize
    ensures { (result ≤ length to.new) × (result ≡ length (take result to.new)) }
{
    let mut done = 0;
    while done < to.len() {
        match reader.read(&mut to[done..]) {
            Ok(0) | Err(_) => return done,
            Ok(n) => done += n,
        }
    }
    done
}

// A program ends with 0 whatever it prints: what could not be printed whole is said on standard error.
pub fn print(rt: &(impl Print + Eprint), text: &[u8]) {
    if rt.write_all(text).is_err() {
        let _ = rt.eprintln("the text could not be written whole");
    }
}

// Reads a record file. Nothing is printed before all of the input is read and listed.
pub fn close_from(rt: &(impl Print + Eprint), reader: &mut impl Read) {
    let mut bytes = input();
    let n = read_full(reader, &mut bytes);
    let mut text = output();
    let end = list_file(&bytes[..n], &mut text);
    print(rt, &text[..end]);
}
