// Leaves 8 to 16: slots and epochs, finality's delay, block roots.
use definitions::code;
use vectors::{Case, number, number_agrees, root_agrees, roots, settings, truth_agrees};

fn compute_epoch_at_slot(c: Case, words: &[u64]) -> bool {
    let s = settings(c, words);
    let answer = epochs::compute_epoch_at_slot(s, number(c, words, 0));
    number_agrees(answer, c, words)
}

fn compute_start_slot_at_epoch(c: Case, words: &[u64]) -> bool {
    let s = settings(c, words);
    let answer = epochs::compute_start_slot_at_epoch(s, number(c, words, 0));
    number_agrees(answer, c, words)
}

fn compute_activation_exit_epoch(c: Case, words: &[u64]) -> bool {
    let s = settings(c, words);
    let answer = epochs::compute_activation_exit_epoch(s, number(c, words, 0));
    number_agrees(answer, c, words)
}

fn get_current_epoch(c: Case, words: &[u64]) -> bool {
    let s = settings(c, words);
    let answer = epochs::get_current_epoch(s, number(c, words, 0));
    number_agrees(answer, c, words)
}

fn get_previous_epoch(c: Case, words: &[u64]) -> bool {
    let s = settings(c, words);
    let answer = epochs::get_previous_epoch(s, number(c, words, 0));
    number_agrees(answer, c, words)
}

fn get_finality_delay(c: Case, words: &[u64]) -> bool {
    let s = settings(c, words);
    let answer = finality::get_finality_delay(s, number(c, words, 0), number(c, words, 1));
    number_agrees(answer, c, words)
}

fn is_in_inactivity_leak(c: Case, words: &[u64]) -> bool {
    let s = settings(c, words);
    let answer = finality::is_in_inactivity_leak(s, number(c, words, 0), number(c, words, 1));
    truth_agrees(answer, c, words)
}

fn get_block_root_at_slot(c: Case, words: &[u64], bytes: &[u8]) -> bool {
    let s = settings(c, words);
    let state_slot = number(c, words, 0);
    let slot = number(c, words, 1);
    let given = roots(c, bytes);
    let answer = root_parts::get_block_root_at_slot_refusal(s, given, state_slot, slot);
    let root = root_parts::get_block_root_at_slot(s, given, state_slot, slot);
    root_agrees(code(answer), root, c, bytes)
}

fn get_block_root(c: Case, words: &[u64], bytes: &[u8]) -> bool {
    let s = settings(c, words);
    let state_slot = number(c, words, 0);
    let epoch = number(c, words, 1);
    let given = roots(c, bytes);
    let answer = root_parts::get_block_root_refusal(s, given, state_slot, epoch);
    let root = root_parts::get_block_root(s, given, state_slot, epoch);
    root_agrees(code(answer), root, c, bytes)
}

pub fn agrees(c: Case, words: &[u64], bytes: &[u8]) -> bool {
    let leaf = c.leaf;
    match leaf {
        8 => compute_epoch_at_slot(c, words),
        9 => compute_start_slot_at_epoch(c, words),
        10 => compute_activation_exit_epoch(c, words),
        11 => get_current_epoch(c, words),
        12 => get_previous_epoch(c, words),
        13 => get_finality_delay(c, words),
        14 => is_in_inactivity_leak(c, words),
        15 => get_block_root_at_slot(c, words, bytes),
        _ => get_block_root(c, words, bytes),
    }
}
