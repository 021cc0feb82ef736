// Leaves 17 to 23: totals and counts of a registry, and what changes one.
use definitions::code;
use vectors::{Case, copy_lent, lent, lent_agrees, number, number_agrees, settings, total_agrees};

// Places in an entry. The withdrawable epoch follows the exit epoch.
const EXIT_EPOCH: usize = 4;

const BALANCE: usize = 6;

fn get_total_active_balance(c: Case, words: &[u64]) -> bool {
    let s = settings(c, words);
    let answer = totals::get_total_active_balance(s, number(c, words, 0), lent(c, words));
    total_agrees(answer, c, words)
}

fn get_participating_balance(c: Case, words: &[u64]) -> bool {
    let s = settings(c, words);
    let slot = number(c, words, 0);
    let flag_index = number(c, words, 1);
    let epoch = number(c, words, 2);
    let answer = totals::get_participating_balance(s, slot, flag_index, epoch, lent(c, words));
    total_agrees(answer, c, words)
}

fn get_validator_churn_limit(c: Case, words: &[u64]) -> bool {
    let s = settings(c, words);
    let answer = totals::get_validator_churn_limit(s, number(c, words, 0), lent(c, words));
    number_agrees(answer, c, words)
}

fn charged(c: Case, words: &[u64]) -> bool {
    let s = settings(c, words);
    let answer = totals::charged(s, number(c, words, 0), lent(c, words));
    number_agrees(answer, c, words)
}

// What changes is lent a copy.

fn increase_balance(c: Case, words: &[u64], copy: &mut [u64]) -> bool {
    let answer = balances::increase_balance(copy, number(c, words, 0));
    lent_agrees(code(answer), c, words, &copy[..], BALANCE)
}

fn decrease_balance(c: Case, words: &[u64], copy: &mut [u64]) -> bool {
    let answer = balances::decrease_balance(copy, number(c, words, 0));
    lent_agrees(code(answer), c, words, &copy[..], BALANCE)
}

fn exit_place(index: u64, n: usize) -> usize {
    let validators = (n / 10) as u64;
    if validators <= index {
        return 0;
    }
    10 * (index as usize) + EXIT_EPOCH
}

// With the pair worked out, which the Rust does not have.
fn initiate_validator_exit(c: Case, words: &[u64], copy: &mut [u64]) -> bool {
    let s = settings(c, words);
    let slot = number(c, words, 0);
    let index = number(c, words, 1);
    let found = validator_exit::found_queue(&copy[..]);
    let queue = found.queue;
    let answer = validator_exit::initiate_validator_exit(s, slot, index, queue, copy);
    let place = exit_place(index, copy.len());
    lent_agrees(answer.refusal, c, words, &copy[..], place)
}

fn changes_agree(c: Case, words: &[u64], copy: &mut [u64]) -> bool {
    let leaf = c.leaf;
    match leaf {
        21 => increase_balance(c, words, copy),
        22 => decrease_balance(c, words, copy),
        _ => initiate_validator_exit(c, words, copy),
    }
}

pub fn agrees(c: Case, words: &[u64], room: &mut [u64]) -> bool {
    let leaf = c.leaf;
    match leaf {
        17 => get_total_active_balance(c, words),
        18 => get_participating_balance(c, words),
        19 => get_validator_churn_limit(c, words),
        20 => charged(c, words),
        _ => {
            let n = copy_lent(c, words, room);
            changes_agree(c, words, &mut room[0..n])
        }
    }
}
