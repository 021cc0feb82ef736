// Which part of an answer is not the stored one: the first, in this order.
use crate::records::closing::after;
use crate::records::outcome::Outcome;
use crate::records::record::{Record, registry, slashings};
use crate::{finality_stands, part, word};
use definitions::{CloseAnswer, Raised};

pub const NOTHING: u64 = 0;

pub const REFUSAL: u64 = 1;

pub const POSITION: u64 = 2;

pub const SETTINGS: u64 = 3;

pub const FINALITY: u64 = 4;

pub const ROOTS: u64 = 5;

pub const REGISTRY: u64 = 6;

pub const SLASHINGS: u64 = 7;

pub const RAISED: u64 = 8;

pub fn in_refusal(refusal: u64, o: Outcome) -> u64 {
    if o.refusal == refusal {
        return NOTHING;
    }
    REFUSAL
}

// Which totals were raised: as stored behind the finality, or on refusal none.
fn stored_raised(o: Outcome, words: &[u64], at: usize) -> u64 {
    if o.refusal != 0 {
        return 0;
    }
    word(words, o.given, at)
}

fn raised_stands(raised: Raised, o: Outcome, words: &[u64]) -> bool {
    if stored_raised(o, words, 17) != raised.active {
        return false;
    }
    if stored_raised(o, words, 18) != raised.previous {
        return false;
    }
    stored_raised(o, words, 19) == raised.current
}

// The finality that comes back, the stored one, or on refusal the one handed in, which stands at `before`; and which totals were raised.
pub fn in_finality(
    answer: CloseAnswer,
    o: Outcome,
    words: &[u64],
    bytes: &[u8],
    before: usize,
) -> u64 {
    if o.refusal != answer.refusal {
        return REFUSAL;
    }
    let f = answer.finality;
    if !finality_stands(f, words, bytes, stored_finality(o, before)) {
        return FINALITY;
    }
    if raised_stands(answer.raised, o, words) {
        return NOTHING;
    }
    RAISED
}

fn stored_finality(o: Outcome, before: usize) -> usize {
    if o.refusal != 0 {
        return before;
    }
    o.given
}

// A buffer that an operation is not lent is left as a test would leave it.

fn registry_refusal(operation: u64, refusal: u64) -> u64 {
    match operation {
        1 | 7 => 1,
        _ => refusal,
    }
}

fn slashings_refusal(operation: u64, refusal: u64) -> u64 {
    match operation {
        0 | 7 | 9 => refusal,
        _ => 1,
    }
}

// A file is read whole, as far as the buffer goes.
fn opening_words(operation: u64, lent: usize, closing: usize) -> usize {
    if operation == 0 {
        return closing;
    }
    lent
}

fn registry_stands(operation: u64, r: Record, o: Outcome, words: &[u64], closing: &[u64]) -> bool {
    let n = opening_words(operation, r.registry_words, closing.len());
    let opening = registry(r.file, words, n);
    let changes = part(words, o.registry, o.registry_words);
    after(
        registry_refusal(operation, o.refusal),
        opening,
        changes,
        closing,
    )
}

fn slashings_stand(operation: u64, r: Record, o: Outcome, words: &[u64], closing: &[u64]) -> bool {
    let n = opening_words(operation, r.slashings_words, closing.len());
    let opening = slashings(r.file, words, n);
    let changes = part(words, o.slashings, o.slashings_words);
    after(
        slashings_refusal(operation, o.refusal),
        opening,
        changes,
        closing,
    )
}

// What differed already, or else in the two closing buffers.
pub fn in_buffers(
    given: u64,
    operation: u64,
    r: Record,
    o: Outcome,
    words: &[u64],
    closing_registry: &[u64],
    closing_slashings: &[u64],
) -> u64 {
    if given != NOTHING {
        return given;
    }
    if !registry_stands(operation, r, o, words, closing_registry) {
        return REGISTRY;
    }
    if !slashings_stand(operation, r, o, words, closing_slashings) {
        return SLASHINGS;
    }
    NOTHING
}
