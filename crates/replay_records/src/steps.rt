// The eight steps, each alone, and the close, on what is lent of the file's parts.
use definitions::{CloseAnswer, Settings, code};
use refusals::rules::altair_rules;
use vectors::records::{
    Outcome, Record, finality, finality_place, finalized_epoch, in_finality, registry, roots,
    settings, slashings, slot,
};

// Which part of what comes back differs. The Rust does not tell the test.
pub fn process_justification_and_finalization(
    r: Record,
    o: Outcome,
    words: &[u64],
    bytes: &[u8],
) -> u64 {
    let file = r.file;
    let answer = justification::justification_step::process_justification_and_finalization(
        settings(file, words),
        roots(file, words, bytes, r.roots_bytes),
        finality(file, words, bytes),
        registry(file, words, r.registry_words),
    );
    let after = answer.finality;
    let raised = answer.raised;
    let given = CloseAnswer {
        refusal: answer.refusal,
        finality: after,
        raised,
    };
    in_finality(given, o, words, bytes, finality_place(file, words))
}

// With the pair worked out, which the Rust does not have.
fn process_registry_updates(
    s: Settings,
    slot: u64,
    finalized_epoch: u64,
    opening: &[u64],
    closing: &mut [u64],
) -> u64 {
    let found = validator_exit::found_queue(opening);
    let queue = found.queue;
    let answer = registry_step::process_registry_updates(
        s,
        slot,
        finalized_epoch,
        queue,
        opening,
        closing,
    );
    answer.refusal
}

fn on_registry(
    operation: u64,
    s: Settings,
    slot: u64,
    finalized_epoch: u64,
    slashings: &[u64],
    opening: &[u64],
    closing: &mut [u64],
) -> u64 {
    match operation {
        2 => code(participation::inactivity::process_inactivity_updates(
            s,
            slot,
            finalized_epoch,
            opening,
            closing,
        )),
        3 => code(rewards_step::process_rewards_and_penalties(
            altair_rules(s),
            slot,
            finalized_epoch,
            opening,
            closing,
        )),
        4 => process_registry_updates(s, slot, finalized_epoch, opening, closing),
        5 => code(slashings::process_slashings(altair_rules(s), slot, slashings, opening, closing)),
        6 => code(
            balances::effective_balances::process_effective_balance_updates(s, opening, closing),
        ),
        _ => code(
            participation::participation_flags::process_participation_flag_updates(
                opening, closing,
            ),
        ),
    }
}

// The refusal's number, of a step that is lent the closing registry.
pub fn step_on_registry(operation: u64, r: Record, words: &[u64], closing: &mut [u64]) -> u64 {
    let file = r.file;
    on_registry(
        operation,
        settings(file, words),
        slot(file, words),
        finalized_epoch(file, words),
        slashings(file, words, r.slashings_words),
        registry(file, words, r.registry_words),
        closing,
    )
}

// The refusal's number.
pub fn process_slashings_reset(r: Record, words: &[u64], closing: &mut [u64]) -> u64 {
    let file = r.file;
    let opening = slashings(file, words, r.slashings_words);
    let s = settings(file, words);
    code(slashings::process_slashings_reset(s, slot(file, words), opening, closing))
}

// Which part of what comes back differs.
pub fn close(
    r: Record,
    o: Outcome,
    words: &[u64],
    bytes: &[u8],
    closing_registry: &mut [u64],
    closing_slashings: &mut [u64],
) -> u64 {
    let file = r.file;
    let answer = close::close_as_altair(
        settings(file, words),
        finality(file, words, bytes),
        registry(file, words, r.registry_words),
        slashings(file, words, r.slashings_words),
        roots(file, words, bytes, r.roots_bytes),
        closing_registry,
        closing_slashings,
    );
    in_finality(answer, o, words, bytes, finality_place(file, words))
}
