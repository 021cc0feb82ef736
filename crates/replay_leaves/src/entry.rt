// Leaves 1 to 7: flags, and one validator.
use vectors::{Case, lent, number, number_agrees, settings, truth_agrees};

fn has_flag(c: Case, words: &[u64]) -> bool {
    let flags = number(c, words, 0);
    if 255 < flags {
        return false;
    }
    let answer = entries::has_flag(flags as u8, number(c, words, 1));
    truth_agrees(answer, c, words)
}

fn add_flag(c: Case, words: &[u64]) -> bool {
    let flags = number(c, words, 0);
    if 255 < flags {
        return false;
    }
    let answer = entries::add_flag(flags as u8, number(c, words, 1));
    number_agrees(answer, c, words)
}

fn is_active_validator(c: Case, words: &[u64]) -> bool {
    let answer = entries::is_active_validator(lent(c, words), number(c, words, 0));
    truth_agrees(answer, c, words)
}

fn is_eligible_for_activation_queue(c: Case, words: &[u64]) -> bool {
    let s = settings(c, words);
    let answer = entries::is_eligible_for_activation_queue(s, lent(c, words));
    truth_agrees(answer, c, words)
}

fn is_eligible_for_activation(c: Case, words: &[u64]) -> bool {
    let finalized_epoch = number(c, words, 0);
    let answer = entries::is_eligible_for_activation(finalized_epoch, lent(c, words));
    truth_agrees(answer, c, words)
}

fn is_eligible(c: Case, words: &[u64]) -> bool {
    let s = settings(c, words);
    let answer = entries::is_eligible(s, number(c, words, 0), lent(c, words));
    truth_agrees(answer, c, words)
}

fn is_unslashed_participating(c: Case, words: &[u64]) -> bool {
    let s = settings(c, words);
    let slot = number(c, words, 0);
    let flag_index = number(c, words, 1);
    let epoch = number(c, words, 2);
    let answer = entries::is_unslashed_participating(s, slot, flag_index, epoch, lent(c, words));
    truth_agrees(answer, c, words)
}

pub fn agrees(c: Case, words: &[u64]) -> bool {
    let leaf = c.leaf;
    match leaf {
        1 => has_flag(c, words),
        2 => add_flag(c, words),
        3 => is_active_validator(c, words),
        4 => is_eligible_for_activation_queue(c, words),
        5 => is_eligible_for_activation(c, words),
        6 => is_eligible(c, words),
        _ => is_unslashed_participating(c, words),
    }
}
