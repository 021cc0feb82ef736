// Leaves 24 to 29: rewards and penalties, finality, the square root.
use refusals::rules::altair_rules;
use vectors::{
    Case, deltas_agree, finality, finality_agrees, lent, number, number_agrees, roots, settings,
};

fn get_base_reward_per_increment(c: Case, words: &[u64]) -> bool {
    let s = settings(c, words);
    let answer = rewards::base_rewards::get_base_reward_per_increment(s, number(c, words, 0));
    number_agrees(answer, c, words)
}

fn get_base_reward(c: Case, words: &[u64]) -> bool {
    let s = settings(c, words);
    let answer = rewards::base_rewards::get_base_reward(s, number(c, words, 0), lent(c, words));
    number_agrees(answer, c, words)
}

fn get_flag_index_deltas(c: Case, words: &[u64]) -> bool {
    let s = settings(c, words);
    let slot = number(c, words, 0);
    let finalized_epoch = number(c, words, 1);
    let flag_index = number(c, words, 2);
    let index = number(c, words, 3) as usize;
    let registry = lent(c, words);
    let answer = rewards_step::flag_rewards::get_flag_index_deltas(
        s,
        slot,
        finalized_epoch,
        flag_index,
        index,
        registry,
    );
    deltas_agree(answer, c, words)
}

fn get_inactivity_penalty_deltas(c: Case, words: &[u64]) -> bool {
    let rules = altair_rules(settings(c, words));
    let slot = number(c, words, 0);
    let answer = rewards::get_inactivity_penalty_deltas(rules, slot, lent(c, words));
    deltas_agree(answer, c, words)
}

fn weigh_justification_and_finalization(c: Case, words: &[u64], bytes: &[u8]) -> bool {
    let s = settings(c, words);
    let before = finality(c, words, bytes);
    let total = number(c, words, 0);
    let previous = number(c, words, 1);
    let current = number(c, words, 2);
    let answer = weighing::weigh_justification_and_finalization(
        s,
        roots(c, bytes),
        before,
        total,
        previous,
        current,
    );
    finality_agrees(answer, c, words, bytes)
}

fn integer_sqrt(c: Case, words: &[u64]) -> bool {
    let answer = arithmetic::integer_sqrt(number(c, words, 0));
    number_agrees(Ok(answer), c, words)
}

pub fn agrees(c: Case, words: &[u64], bytes: &[u8]) -> bool {
    let leaf = c.leaf;
    match leaf {
        24 => get_base_reward_per_increment(c, words),
        25 => get_base_reward(c, words),
        26 => get_flag_index_deltas(c, words),
        27 => get_inactivity_penalty_deltas(c, words),
        28 => weigh_justification_and_finalization(c, words, bytes),
        _ => integer_sqrt(c, words),
    }
}
