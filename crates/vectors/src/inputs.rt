// What a case hands to its leaf.
ghost use Rattle.std.specs.Prelude.{◌≤◌, length};

use crate::case::Case;
use crate::words::{bytes_part, part, past, word};
use definitions::{Checkpoint, Finality, Settings};
use fields::settings_from;

// The settings of nineteen words at a place; zeros where they do not lie inside.
pub fn settings_at(words: &[u64], at: usize) -> Settings {
    let w = part(words, at, 19);
    if w.len() != 19 {
        return settings_from(&[0u64; 19]);
    }
    settings_from(w)
}

pub fn settings(c: Case, words: &[u64]) -> Settings {
    settings_at(words, c.settings)
}

pub fn number(c: Case, words: &[u64], k: usize) -> u64 {
    word(words, c.numbers, k)
}

pub fn lent(c: Case, words: &[u64]) -> &[u64] {
    part(words, c.lent, c.lent_words)
}

fn copy(from: &[u64], to: &mut [u64]) -> usize
    ensures { result ≤ length to.new }
{
    let mut i: usize = 0;
    while i < from.len() {
        if i == to.len() {
            return i;
        }
        to[i] = from[i];
        i += 1;
    }
    i
}

// What is lent, at the start of the buffer, as far as that goes; and how many words.
pub fn copy_lent(c: Case, words: &[u64], to: &mut [u64]) -> usize
    ensures { result ≤ length to.new }
{
    copy(lent(c, words), to)
}

pub fn roots(c: Case, bytes: &[u8]) -> &[u8] {
    bytes_part(bytes, c.roots, c.roots_bytes)
}

fn root_of(b: &[u8]) -> [u8; 32] {
    let mut r = [0u8; 32];
    if b.len() != 32 {
        return r;
    }
    for i in 0..32usize {
        r[i] = b[i];
    }
    r
}

fn checkpoint(words: &[u64], bytes: &[u8], at: usize) -> Checkpoint {
    let root = root_of(bytes_part(bytes, past(at, 1, words.len()), 32));
    Checkpoint {
        epoch: word(words, at, 0),
        root,
    }
}

// The finality of seventeen words at a place.
pub fn finality_at(words: &[u64], bytes: &[u8], at: usize) -> Finality {
    let previous = checkpoint(words, bytes, past(at, 2, words.len()));
    let current = checkpoint(words, bytes, past(at, 7, words.len()));
    let finalized = checkpoint(words, bytes, past(at, 12, words.len()));
    Finality {
        slot: word(words, at, 0),
        justification_bits: word(words, at, 1),
        previous_justified_checkpoint: previous,
        current_justified_checkpoint: current,
        finalized_checkpoint: finalized,
    }
}

pub fn finality(c: Case, words: &[u64], bytes: &[u8]) -> Finality {
    finality_at(words, bytes, c.finality)
}
