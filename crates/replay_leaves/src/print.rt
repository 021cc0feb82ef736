// What is written.
use std::io;

pub fn name(leaf: u64) -> &'static str {
    if leaf <= 10 {
        return name_to_10(leaf);
    }
    if leaf <= 20 {
        return name_to_20(leaf);
    }
    name_to_29(leaf)
}

fn name_to_10(leaf: u64) -> &'static str {
    match leaf {
        1 => "has_flag",
        2 => "add_flag",
        3 => "is_active_validator",
        4 => "is_eligible_for_activation_queue",
        5 => "is_eligible_for_activation",
        6 => "is_eligible",
        7 => "is_unslashed_participating",
        8 => "compute_epoch_at_slot",
        9 => "compute_start_slot_at_epoch",
        10 => "compute_activation_exit_epoch",
        _ => "?",
    }
}

fn name_to_20(leaf: u64) -> &'static str {
    match leaf {
        11 => "get_current_epoch",
        12 => "get_previous_epoch",
        13 => "get_finality_delay",
        14 => "is_in_inactivity_leak",
        15 => "get_block_root_at_slot",
        16 => "get_block_root",
        17 => "get_total_active_balance",
        18 => "get_participating_balance",
        19 => "get_validator_churn_limit",
        20 => "charged",
        _ => "?",
    }
}

fn name_to_29(leaf: u64) -> &'static str {
    match leaf {
        21 => "increase_balance",
        22 => "decrease_balance",
        23 => "initiate_validator_exit",
        24 => "get_base_reward_per_increment",
        25 => "get_base_reward",
        26 => "get_flag_index_deltas",
        27 => "get_inactivity_penalty_deltas",
        28 => "weigh_justification_and_finalization",
        29 => "integer_sqrt",
        _ => "?",
    }
}

pub fn wrong(rt: &impl Print, leaf: u64, case: u64) -> io::Result<()> {
    let name = name(leaf);
    println!(rt; "wrong: {name} case {case}")
}

pub fn of(rt: &impl Print, agree: u64, cases: u64) -> io::Result<()> {
    print!(rt; "{agree} of {cases}")
}
