// A record: its file, what is lent of it, and where its answers stand. The file starts at a whole word, so that its numbers are
// words of the block.
ghost use Rattle.std.specs.Prelude.{◌≤◌};

use crate::{NOWHERE, bytes_part, finality_at, part, past, settings_at, whole_words, word};
use definitions::{Finality, Settings};

// `file` and `first_answer` are places of words. The lengths are of the registry, slashings and roots that are lent, the front of
// the file's, and of the buffers that are written. There are ten answers, or the reading's alone where the header is bad.
#[derive(Clone, Copy)]
pub struct Record {
    pub file: usize,
    pub file_bytes: usize,
    pub registry_words: usize,
    pub slashings_words: usize,
    pub roots_bytes: usize,
    pub closing_registry: usize,
    pub closing_slashings: usize,
    pub answers: u64,
    pub first_answer: usize,
}

// Where the record at a place ends; 0 where that is not inside the block.
pub fn next_record(words: &[u64], at: usize) -> usize {
    let n = word(words, at, 0) as usize;
    let end = past(at, n, words.len());
    if end == NOWHERE {
        return 0;
    }
    end
}

pub fn read_record(words: &[u64], at: usize, end: usize) -> Record {
    let file_bytes = word(words, at, 1) as usize;
    let file = past(at, 2, end);
    let lent = past(file, whole_words(file_bytes), end);
    Record {
        file,
        file_bytes,
        registry_words: word(words, lent, 0) as usize,
        slashings_words: word(words, lent, 1) as usize,
        roots_bytes: word(words, lent, 2) as usize,
        closing_registry: word(words, lent, 3) as usize,
        closing_slashings: word(words, lent, 4) as usize,
        answers: word(words, lent, 5),
        first_answer: past(lent, 6, end),
    }
}

// The parts of the file at a place. Its header counts 65,536 of each at the most, which is more than a block has words.

fn count(file: usize, words: &[u64], place: usize) -> usize
    ensures { result ≤ 65536 }
{
    let n = word(words, file, place);
    if 65536 < n {
        return 65536;
    }
    n as usize
}

pub fn finality_place(file: usize, words: &[u64]) -> usize {
    past(file, 29, words.len())
}

fn roots_place(file: usize, words: &[u64]) -> usize {
    let n = 46 + 10 * count(file, words, 2);
    past(file, n, words.len())
}

fn slashings_place(file: usize, words: &[u64]) -> usize {
    let n = 4 * count(file, words, 3);
    past(roots_place(file, words), n, words.len())
}

// The nineteen numbers.
pub fn settings_words(file: usize, words: &[u64]) -> &[u64] {
    part(words, past(file, 10, words.len()), 19)
}

pub fn settings(file: usize, words: &[u64]) -> Settings {
    settings_at(words, past(file, 10, words.len()))
}

pub fn finality(file: usize, words: &[u64], bytes: &[u8]) -> Finality {
    finality_at(words, bytes, finality_place(file, words))
}

pub fn slot(file: usize, words: &[u64]) -> u64 {
    word(words, finality_place(file, words), 0)
}

pub fn finalized_epoch(file: usize, words: &[u64]) -> u64 {
    word(words, finality_place(file, words), 12)
}

// The first n numbers of the registry, and so on.
pub fn registry(file: usize, words: &[u64], n: usize) -> &[u64] {
    part(words, past(file, 46, words.len()), n)
}

pub fn slashings(file: usize, words: &[u64], n: usize) -> &[u64] {
    part(words, slashings_place(file, words), n)
}

pub fn roots<'a>(file: usize, words: &[u64], bytes: &'a [u8], n: usize) -> &'a [u8] {
    bytes_part(bytes, roots_place(file, words), n)
}

// All of them.
pub fn all_roots<'a>(file: usize, words: &[u64], bytes: &'a [u8]) -> &'a [u8] {
    let n = 32 * count(file, words, 3);
    roots(file, words, bytes, n)
}
