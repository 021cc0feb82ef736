// Whether a leaf's answer is the one stored: the same refusal, and the same words where there is none.
use crate::case::Case;
use crate::words::{bytes_part, part, past, word};
use definitions::{Checkpoint, Deltas, Finality, Refusal, Total};

fn is_refused(c: Case, refusal: Refusal) -> bool {
    c.refusal == refusal.number()
}

pub fn number_agrees(answer: Result<u64, Refusal>, c: Case, words: &[u64]) -> bool {
    match answer {
        Ok(n) => value_agrees(n, c, words),
        Err(refusal) => is_refused(c, refusal),
    }
}

fn value_agrees(n: u64, c: Case, words: &[u64]) -> bool {
    if c.refusal != 0 {
        return false;
    }
    word(words, c.answer, 0) == n
}

pub fn truth_agrees(answer: Result<bool, Refusal>, c: Case, words: &[u64]) -> bool {
    match answer {
        Ok(yes) => value_agrees(yes as u64, c, words),
        Err(refusal) => is_refused(c, refusal),
    }
}

pub fn deltas_agree(answer: Result<Deltas, Refusal>, c: Case, words: &[u64]) -> bool {
    match answer {
        Ok(d) => both_agree(d, c, words),
        Err(refusal) => is_refused(c, refusal),
    }
}

fn both_agree(d: Deltas, c: Case, words: &[u64]) -> bool {
    if word(words, c.answer, 1) != d.penalty {
        return false;
    }
    value_agrees(d.reward, c, words)
}

pub fn total_agrees(answer: Result<Total, Refusal>, c: Case, words: &[u64]) -> bool {
    match answer {
        Ok(t) => balance_agrees(t, c, words),
        Err(refusal) => is_refused(c, refusal),
    }
}

fn balance_agrees(t: Total, c: Case, words: &[u64]) -> bool {
    if word(words, c.answer, 1) != t.raised {
        return false;
    }
    value_agrees(t.balance, c, words)
}

// What a list should hold at i: the answer from `at` on, what it held elsewhere.
fn expected(before: &[u64], at: usize, answer: &[u64], i: usize) -> u64 {
    if i < at {
        return word(before, i, 0);
    }
    if i - at < answer.len() {
        return word(answer, i - at, 0);
    }
    word(before, i, 0)
}

// The lent list holds the stored answer from `at` on, and is as it was elsewhere: all of it where the leaf refuses.
pub fn lent_agrees(refusal: u64, c: Case, words: &[u64], after: &[u64], at: usize) -> bool {
    if c.refusal != refusal {
        return false;
    }
    let before = part(words, c.lent, c.lent_words);
    if before.len() != after.len() {
        return false;
    }
    let answer = part(words, c.answer, c.answer_words);
    let n = after.len();
    for i in 0..n {
        if after[i] != expected(before, at, answer, i) {
            return false;
        }
    }
    true
}

fn stored_bytes(refusal: u64) -> usize {
    if refusal == 0 {
        return 32;
    }
    0
}

// The root's 32 bytes, or none where the leaf refuses.
pub fn root_agrees(refusal: u64, root: &[u8], c: Case, bytes: &[u8]) -> bool {
    if c.refusal != refusal {
        return false;
    }
    let n = stored_bytes(refusal);
    root == bytes_part(bytes, c.answer, n)
}

fn checkpoint_stands(p: Checkpoint, words: &[u64], bytes: &[u8], at: usize) -> bool {
    if word(words, at, 0) != p.epoch {
        return false;
    }
    let root = p.root;
    &root[..] == bytes_part(bytes, past(at, 1, words.len()), 32)
}

// The finality is that of seventeen words at a place.
pub fn finality_stands(f: Finality, words: &[u64], bytes: &[u8], at: usize) -> bool {
    if word(words, at, 0) != f.slot {
        return false;
    }
    if word(words, at, 1) != f.justification_bits {
        return false;
    }
    let n = words.len();
    let previous = f.previous_justified_checkpoint;
    if !checkpoint_stands(previous, words, bytes, past(at, 2, n)) {
        return false;
    }
    let current = f.current_justified_checkpoint;
    if !checkpoint_stands(current, words, bytes, past(at, 7, n)) {
        return false;
    }
    let finalized = f.finalized_checkpoint;
    checkpoint_stands(finalized, words, bytes, past(at, 12, n))
}

pub fn finality_agrees(
    answer: Result<Finality, Refusal>,
    c: Case,
    words: &[u64],
    bytes: &[u8],
) -> bool {
    match answer {
        Ok(f) => weighed_agrees(f, c, words, bytes),
        Err(refusal) => is_refused(c, refusal),
    }
}

fn weighed_agrees(f: Finality, c: Case, words: &[u64], bytes: &[u8]) -> bool {
    if c.refusal != 0 {
        return false;
    }
    finality_stands(f, words, bytes, c.answer)
}
