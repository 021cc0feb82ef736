// What a closing buffer holds afterwards: the opening with the stored changes; on 4 and 5 the opening; on any other refusal what
// it held before.
ghost use Rattle.std.specs.Prelude.{◌≤◌, length};

use crate::word;

// What every buffer holds before a call: 0xAAAA..., which no record of the list holds.
const UNWRITTEN: u64 = 12297829382473034410;

// The first n words are set to that, as far as the buffer goes; and how many.
pub fn unwritten(to: &mut [u64], n: usize) -> usize
    ensures { result ≤ length to.new }
{
    let mut i: usize = 0;
    while i < n {
        if i == to.len() {
            return i;
        }
        to[i] = UNWRITTEN;
        i += 1;
    }
    i
}

// The number that the changes name at a place, or the one before.
fn changed(changes: &[u64], place: u64, before: u64) -> u64 {
    let n = changes.len() / 2;
    for k in 0..n {
        let at = 2 * k;
        if changes[at] == place {
            return changes[at + 1];
        }
    }
    before
}

fn expected(refusal: u64, opening: &[u64], changes: &[u64], i: usize) -> u64 {
    match refusal {
        0 => changed(changes, i as u64, word(opening, i, 0)),
        4 | 5 => word(opening, i, 0),
        _ => UNWRITTEN,
    }
}

// Whether a closing buffer holds that, number by number.
pub fn after(refusal: u64, opening: &[u64], changes: &[u64], closing: &[u64]) -> bool {
    let n = closing.len();
    for i in 0..n {
        if closing[i] != expected(refusal, opening, changes, i) {
            return false;
        }
    }
    true
}
