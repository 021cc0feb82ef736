// A case's parts: where each stands in its block.
use crate::shape;
use crate::words::{NOWHERE, past, word};

// Places are of words. `roots_bytes` and `lent_words` are 0 where the leaf is handed none.
#[derive(Clone, Copy)]
pub struct Case {
    pub leaf: u64,
    pub settings: usize,
    pub roots: usize,
    pub roots_bytes: usize,
    pub finality: usize,
    pub numbers: usize,
    pub lent: usize,
    pub lent_words: usize,
    pub refusal: u64,
    pub answer: usize,
    pub answer_words: usize,
    pub is_whole: bool,
}

// How many words hold so many bytes.
pub fn whole_words(bytes: usize) -> usize {
    let n = bytes / 8;
    if bytes % 8 == 0 {
        return n;
    }
    n + 1
}

// The count at a place, where one stands there.
pub fn counted(words: &[u64], at: usize, counts: usize) -> usize {
    if counts == 0 {
        return 0;
    }
    word(words, at, 0) as usize
}

// Where a set of settings stands: after the block's two counts. At the block's start where the leaf is handed none.
fn settings_place(words: &[u64], at: usize, handed: usize) -> usize {
    if handed == 0 {
        return 0;
    }
    let place = word(words, at, 0);
    if word(words, 1, 0) <= place {
        return NOWHERE;
    }
    if 65536 < place {
        return NOWHERE;
    }
    2 + 19 * (place as usize)
}

// Where the first case stands.
pub fn first_case(words: &[u64]) -> usize {
    let sets = word(words, 1, 0);
    if 65536 < sets {
        return NOWHERE;
    }
    2 + 19 * (sets as usize)
}

// Where the case at a place ends; 0 where that is not inside the block.
pub fn next_case(words: &[u64], at: usize) -> usize {
    let n = word(words, at, 1) as usize;
    let end = past(at, n, words.len());
    if end == NOWHERE {
        return 0;
    }
    end
}

// The leaf is one of the list, its settings are in the block, and its parts fill the case.
fn is_whole(leaf: u64, settings: usize, last: usize, end: usize) -> bool {
    if leaf == 0 {
        return false;
    }
    if 29 < leaf {
        return false;
    }
    if settings == NOWHERE {
        return false;
    }
    last == end
}

pub fn read_case(words: &[u64], at: usize, end: usize) -> Case {
    let leaf = word(words, at, 0);
    let first = past(at, 2, end);
    let settings = settings_place(words, first, shape::settings_words(leaf));
    let roots_count = past(first, shape::settings_words(leaf), end);
    let roots_bytes = counted(words, roots_count, shape::roots_counts(leaf));
    let roots = past(roots_count, shape::roots_counts(leaf), end);
    let finality = past(roots, whole_words(roots_bytes), end);
    let numbers = past(finality, shape::finality_words(leaf), end);
    let lent_count = past(numbers, shape::numbers_words(leaf), end);
    let lent_words = counted(words, lent_count, shape::lent_counts(leaf));
    let lent = past(lent_count, shape::lent_counts(leaf), end);
    let refusal_at = past(lent, lent_words, end);
    let refusal = word(words, refusal_at, 0);
    let answer = past(refusal_at, 1, end);
    let answer_words = shape::answer_words(leaf, refusal);
    let last = past(answer, answer_words, end);
    Case {
        leaf,
        settings,
        roots,
        roots_bytes,
        finality,
        numbers,
        lent,
        lent_words,
        refusal,
        answer,
        answer_words,
        is_whole: is_whole(leaf, settings, last, end),
    }
}
