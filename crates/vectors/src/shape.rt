// What each leaf is handed and answers, in words, by its number: the table of reference/src/calls.rs.

pub fn settings_words(leaf: u64) -> usize {
    match leaf {
        1 | 2 | 3 | 5 | 21 | 22 | 29 => 0,
        _ => 1,
    }
}

// 1 where roots are handed: their number of bytes stands first.
pub fn roots_counts(leaf: u64) -> usize {
    match leaf {
        15 | 16 | 28 => 1,
        _ => 0,
    }
}

pub fn finality_words(leaf: u64) -> usize {
    match leaf {
        28 => 17,
        _ => 0,
    }
}

pub fn numbers_words(leaf: u64) -> usize {
    match leaf {
        4 => 0,
        1 | 2 | 13 | 14 | 15 | 16 | 23 => 2,
        7 | 18 | 28 => 3,
        26 => 4,
        _ => 1,
    }
}

// 1 where an entry or a registry is lent: its number of words stands first.
pub fn lent_counts(leaf: u64) -> usize {
    match leaf {
        3..=7 | 17..=23 | 25..=27 => 1,
        _ => 0,
    }
}

// Nothing where the leaf refuses.
pub fn answer_words(leaf: u64, refusal: u64) -> usize {
    if refusal != 0 {
        return 0;
    }
    match leaf {
        15 | 16 => 4,
        17 | 18 | 23 | 26 | 27 => 2,
        28 => 17,
        _ => 1,
    }
}
