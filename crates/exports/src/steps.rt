// The eight steps, and the registry step with a stop.
ghost use Rattle.std.specs.Prelude.{◌≡◌, List, ℕ};
ghost use Rattle.definitions.specs.Record.{decode, encode};
ghost use Rattle.definitions.specs.Checked.{value};
ghost use Rattle.definitions.specs.Raised.{raised_totals};
ghost use Rattle.definitions.specs.Refusals.{after_tests, justification_tests, registry_tests, effective_balance_tests, slashings_reset_tests, rotation_tests};
ghost use Rattle.definitions.specs.Rules.{settings_under, rewards_tests, slashings_tests};
ghost use Rattle.definitions.specs.RegisterOrder.{registry_updates_to};
ghost use Rattle.definitions.specs.Rust.Phase0.EpochProcessing.{process_registry_updates, process_effective_balance_updates, reset_slashings};
ghost use Rattle.definitions.specs.Rust.Altair.EpochProcessing.{process_justification_and_finalization, process_inactivity_updates, process_rewards_and_penalties, process_slashings, process_participation_flag_updates};
ghost use Rattle.definitions_close.specs.Justification.{justification_answer_for};
ghost use Rattle.definitions_close.specs.QueueCalls.{registry_to_queue_tests, registry_queue_tests, QueueCloses};
ghost use Rattle.definitions.specs.Closes.{Closes};

use definitions::{ExitQueue, Finality, JustificationAnswer, QueueAnswer, Rules, Settings, code};

#[unsafe(no_mangle)]
pub extern "C" fn altair_process_justification_and_finalization(
    s: Settings,
    roots: &[u8],
    finality: Finality,
    registry: &[u64],
) -> JustificationAnswer
    ensures { result
        ≡ justification_answer_for s (after_tests (justification_tests s roots.now finality registry.now)
        (process_justification_and_finalization s roots.now finality (decode registry.now))) finality
        (raised_totals s finality.slot (decode registry.now)) }
{
    justification::justification_step::process_justification_and_finalization(
        s, roots, finality, registry,
    )
}

#[unsafe(no_mangle)]
pub extern "C" fn altair_process_inactivity_updates(
    s: Settings,
    state_slot: u64,
    finalized_epoch: u64,
    opening: &[u64],
    closing: &mut [u64],
) -> u64
    ensures { Closes encode (registry_tests s state_slot finalized_epoch opening.now closing.old)
        (process_inactivity_updates s state_slot finalized_epoch (decode opening.now)) opening.now closing.old
        closing.new result }
{
    code(participation::inactivity::process_inactivity_updates(
        s,
        state_slot,
        finalized_epoch,
        opening,
        closing,
    ))
}

#[unsafe(no_mangle)]
pub extern "C" fn altair_process_rewards_and_penalties(
    rules: Rules,
    state_slot: u64,
    finalized_epoch: u64,
    opening: &[u64],
    closing: &mut [u64],
) -> u64
    ensures { Closes encode (rewards_tests rules state_slot finalized_epoch opening.now closing.old)
        (process_rewards_and_penalties (settings_under rules) (settings_under rules).inactivity_penalty_quotient_altair state_slot finalized_epoch
        (decode opening.now)) opening.now closing.old closing.new result }
{
    code(rewards_step::process_rewards_and_penalties(
        rules,
        state_slot,
        finalized_epoch,
        opening,
        closing,
    ))
}

#[unsafe(no_mangle)]
pub extern "C" fn altair_process_registry_updates(
    s: Settings,
    state_slot: u64,
    finalized_epoch: u64,
    queue: ExitQueue,
    opening: &[u64],
    closing: &mut [u64],
) -> QueueAnswer
    ensures { QueueCloses
        (registry_queue_tests s state_slot finalized_epoch queue opening.now closing.old)
        (process_registry_updates s state_slot finalized_epoch (decode opening.now))
        queue opening.now closing.old closing.new result }
{
    registry_step::process_registry_updates(s, state_slot, finalized_epoch, queue, opening, closing)
}

#[unsafe(no_mangle)]
pub extern "C" fn altair_process_registry_updates_to(
    stop: usize,
    s: Settings,
    state_slot: u64,
    finalized_epoch: u64,
    queue: ExitQueue,
    opening: &[u64],
    closing: &mut [u64],
) -> QueueAnswer
    ensures { QueueCloses
        (registry_to_queue_tests stop s state_slot finalized_epoch queue opening.now closing.old)
        (registry_updates_to stop s state_slot finalized_epoch (decode opening.now))
        queue opening.now closing.old closing.new result }
{
    registry_step::process_registry_updates_to(
        stop,
        s,
        state_slot,
        finalized_epoch,
        queue,
        opening,
        closing,
    )
}

#[unsafe(no_mangle)]
pub extern "C" fn altair_process_slashings(
    rules: Rules,
    state_slot: u64,
    slashings: &[u64],
    opening: &[u64],
    closing: &mut [u64],
) -> u64
    ensures { Closes encode (slashings_tests rules state_slot slashings.now opening.now closing.old)
        (process_slashings (settings_under rules) (settings_under rules).proportional_slashing_multiplier_altair state_slot slashings.now
        (decode opening.now)) opening.now closing.old closing.new result }
{
    code(slashings::process_slashings(rules, state_slot, slashings, opening, closing))
}

#[unsafe(no_mangle)]
pub extern "C" fn altair_process_effective_balance_updates(
    s: Settings,
    opening: &[u64],
    closing: &mut [u64],
) -> u64
    ensures { Closes encode (effective_balance_tests s opening.now closing.old)
        (process_effective_balance_updates s (decode opening.now)) opening.now closing.old closing.new result }
{
    code(balances::effective_balances::process_effective_balance_updates(s, opening, closing))
}

#[unsafe(no_mangle)]
pub extern "C" fn altair_process_slashings_reset(
    s: Settings,
    state_slot: u64,
    opening: &[u64],
    closing: &mut [u64],
) -> u64
    ensures { Closes (λ (xs : List ℕ). xs) (slashings_reset_tests s state_slot opening.now closing.old)
        (value (reset_slashings s state_slot opening.now)) opening.now closing.old closing.new result }
{
    code(slashings::process_slashings_reset(s, state_slot, opening, closing))
}

#[unsafe(no_mangle)]
pub extern "C" fn altair_process_participation_flag_updates(
    opening: &[u64],
    closing: &mut [u64],
) -> u64
    ensures { Closes encode (rotation_tests opening.now closing.old)
        (value (process_participation_flag_updates (decode opening.now))) opening.now closing.old
        closing.new result }
{
    code(participation::participation_flags::process_participation_flag_updates(opening, closing))
}
