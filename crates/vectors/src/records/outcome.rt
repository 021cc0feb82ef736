// One of a record's answers: its refusal, and where what is stored with it stands. 0 is the reading; the eight steps are numbered
// from 1 in their order, and the close is 9.
use crate::{NOWHERE, counted, past, word};

// Places of words. `given` is what comes back besides the refusal: the position of the reading, or the finality and which totals were
// raised. Changes are a place and a number each, so two words.
#[derive(Clone, Copy)]
pub struct Outcome {
    pub refusal: u64,
    pub given: usize,
    pub registry: usize,
    pub registry_words: usize,
    pub slashings: usize,
    pub slashings_words: usize,
    pub end: usize,
}

// Nothing is stored with a refusal, but for the position of the reading.

fn given_words(operation: u64, refusal: u64) -> usize {
    if operation == 0 {
        return 1;
    }
    if refusal != 0 {
        return 0;
    }
    match operation {
        1 | 9 => 20,
        _ => 0,
    }
}

// 1 where the closing registry is lent: the number of its changes stands first.
fn registry_counts(operation: u64, refusal: u64) -> usize {
    if refusal != 0 {
        return 0;
    }
    match operation {
        0 | 1 | 7 => 0,
        _ => 1,
    }
}

// 1 where the closing slashings are lent.
fn slashings_counts(operation: u64, refusal: u64) -> usize {
    if refusal != 0 {
        return 0;
    }
    match operation {
        7 | 9 => 1,
        _ => 0,
    }
}

fn twice(n: usize) -> usize {
    if 65536 < n {
        return NOWHERE;
    }
    2 * n
}

pub fn read_outcome(words: &[u64], at: usize, end: usize, operation: u64) -> Outcome {
    let refusal = word(words, at, 0);
    let given = past(at, 1, end);
    let in_registry = registry_counts(operation, refusal);
    let in_slashings = slashings_counts(operation, refusal);
    let registry_count = past(given, given_words(operation, refusal), end);
    let registry_words = twice(counted(words, registry_count, in_registry));
    let registry = past(registry_count, in_registry, end);
    let slashings_count = past(registry, registry_words, end);
    let slashings_words = twice(counted(words, slashings_count, in_slashings));
    let slashings = past(slashings_count, in_slashings, end);
    Outcome {
        refusal,
        given,
        registry,
        registry_words,
        slashings,
        slashings_words,
        end: past(slashings, slashings_words, end),
    }
}
