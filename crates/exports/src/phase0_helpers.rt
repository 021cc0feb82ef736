// The leaves of phase0/helpers.rs: slots and epochs, a validator's state, block roots, totals, balances, exits.
ghost use Rattle.std.specs.Prelude.{◌≡◌};
ghost use Rattle.definitions.specs.Record.{decode_one, encode_one, decode};
ghost use Rattle.definitions.specs.Checked.{value};
ghost use Rattle.definitions.specs.Raised.{total_with_raised};
ghost use Rattle.definitions.specs.Refusals.{after_tests};
ghost use Rattle.definitions.specs.LeafRefusals.{settings_tests, slot_tests, entry_tests, finalized_entry_tests, settings_entry_tests, slot_entry_tests, root_tests, slot_registry_tests};
ghost use Rattle.definitions.specs.Document.Phase0.EpochProcessing.{is_eligible};
ghost use Rattle.definitions.specs.Document.Phase0.Helpers.{integer_squareroot};
ghost use Rattle.definitions.specs.Rust.Phase0.Helpers.{compute_epoch_at_slot, compute_start_slot_at_epoch, compute_activation_exit_epoch, get_current_epoch, get_previous_epoch, is_active_validator, is_eligible_for_activation_queue, is_eligible_for_activation, get_block_root_at_slot, get_block_root, get_active_validator_indices, get_validator_churn_limit, increase_balance, decrease_balance, initiate_validator_exit};
ghost use Rattle.definitions_close.specs.QueueCalls.{exit_queue_tests, QueueCloses, found_queue};
ghost use Rattle.definitions.specs.Closes.{Closes};
ghost use Rattle.definitions.specs.Plain.{plain_number, plain_truth, plain_root, plain_total};

use definitions::{
    ExitQueue, PlainNumber, PlainRoot, PlainTotal, PlainTruth, QueueAnswer, Settings, code,
};
use plain::{plain_number, plain_root, plain_total, plain_truth};

// The largest x with x * x at most n.
#[unsafe(no_mangle)]
pub extern "C" fn altair_integer_sqrt(n: u64) -> u64
    ensures { result ≡ integer_squareroot n }
{
    arithmetic::integer_sqrt(n)
}

// Slots and epochs

#[unsafe(no_mangle)]
pub extern "C" fn altair_compute_epoch_at_slot(s: Settings, slot: u64) -> PlainNumber
    ensures { result ≡ plain_number (after_tests (settings_tests s) (value (compute_epoch_at_slot s slot))) }
{
    plain_number(epochs::compute_epoch_at_slot(s, slot))
}

#[unsafe(no_mangle)]
pub extern "C" fn altair_compute_start_slot_at_epoch(s: Settings, epoch: u64) -> PlainNumber
    ensures { result ≡ plain_number (after_tests (settings_tests s) (compute_start_slot_at_epoch s epoch)) }
{
    plain_number(epochs::compute_start_slot_at_epoch(s, epoch))
}

#[unsafe(no_mangle)]
pub extern "C" fn altair_compute_activation_exit_epoch(s: Settings, epoch: u64) -> PlainNumber
    ensures { result ≡ plain_number (after_tests (settings_tests s) (compute_activation_exit_epoch s epoch)) }
{
    plain_number(epochs::compute_activation_exit_epoch(s, epoch))
}

#[unsafe(no_mangle)]
pub extern "C" fn altair_get_current_epoch(s: Settings, state_slot: u64) -> PlainNumber
    ensures { result ≡ plain_number (after_tests (slot_tests s state_slot) (value (get_current_epoch s state_slot))) }
{
    plain_number(epochs::get_current_epoch(s, state_slot))
}

#[unsafe(no_mangle)]
pub extern "C" fn altair_get_previous_epoch(s: Settings, state_slot: u64) -> PlainNumber
    ensures { result ≡ plain_number (after_tests (slot_tests s state_slot) (value (get_previous_epoch s state_slot))) }
{
    plain_number(epochs::get_previous_epoch(s, state_slot))
}

// One validator's ten numbers

#[unsafe(no_mangle)]
pub extern "C" fn altair_is_active_validator(entry: &[u64], epoch: u64) -> PlainTruth
    ensures { result
        ≡ plain_truth (after_tests (entry_tests entry.now) (value (is_active_validator (decode_one entry.now) epoch))) }
{
    plain_truth(entries::is_active_validator(entry, epoch))
}

#[unsafe(no_mangle)]
pub extern "C" fn altair_is_eligible_for_activation_queue(s: Settings, entry: &[u64]) -> PlainTruth
    ensures { result
        ≡ plain_truth (after_tests (settings_entry_tests s entry.now) (value (is_eligible_for_activation_queue s (decode_one entry.now)))) }
{
    plain_truth(entries::is_eligible_for_activation_queue(s, entry))
}

#[unsafe(no_mangle)]
pub extern "C" fn altair_is_eligible_for_activation(
    finalized_epoch: u64,
    entry: &[u64],
) -> PlainTruth
    ensures { result
        ≡ plain_truth (after_tests (finalized_entry_tests finalized_epoch entry.now)
        (value (is_eligible_for_activation finalized_epoch (decode_one entry.now)))) }
{
    plain_truth(entries::is_eligible_for_activation(finalized_epoch, entry))
}

// For rewards and penalties: active in the previous epoch, or slashed and not yet withdrawable.
#[unsafe(no_mangle)]
pub extern "C" fn altair_is_eligible(s: Settings, state_slot: u64, entry: &[u64]) -> PlainTruth
    ensures { result
        ≡ plain_truth (after_tests (slot_entry_tests s state_slot entry.now)
        (value (is_eligible (get_previous_epoch s state_slot) (decode_one entry.now)))) }
{
    plain_truth(entries::is_eligible(s, state_slot, entry))
}

#[unsafe(no_mangle)]
pub extern "C" fn altair_increase_balance(entry: &mut [u64], delta: u64) -> u64
    ensures { Closes encode_one (entry_tests entry.old) (increase_balance (decode_one entry.old) delta) entry.old
        entry.old entry.new result }
{
    code(balances::increase_balance(entry, delta))
}

#[unsafe(no_mangle)]
pub extern "C" fn altair_decrease_balance(entry: &mut [u64], delta: u64) -> u64
    ensures { Closes encode_one (entry_tests entry.old) (value (decrease_balance (decode_one entry.old) delta)) entry.old
        entry.old entry.new result }
{
    code(balances::decrease_balance(entry, delta))
}

// Block roots

#[unsafe(no_mangle)]
pub extern "C" fn altair_get_block_root_at_slot(
    s: Settings,
    roots: &[u8],
    state_slot: u64,
    slot: u64,
) -> PlainRoot
    ensures { result
        ≡ plain_root (after_tests (root_tests s roots.now state_slot) (get_block_root_at_slot s roots.now state_slot slot)) }
{
    let answer = root_parts::get_block_root_at_slot_refusal(s, roots, state_slot, slot);
    plain_root(
        code(answer),
        root_parts::get_block_root_at_slot(s, roots, state_slot, slot),
    )
}

#[unsafe(no_mangle)]
pub extern "C" fn altair_get_block_root(
    s: Settings,
    roots: &[u8],
    state_slot: u64,
    epoch: u64,
) -> PlainRoot
    ensures { result ≡ plain_root (after_tests (root_tests s roots.now state_slot) (get_block_root s roots.now state_slot epoch)) }
{
    let answer = root_parts::get_block_root_refusal(s, roots, state_slot, epoch);
    plain_root(
        code(answer),
        root_parts::get_block_root(s, roots, state_slot, epoch),
    )
}

// The registry

#[unsafe(no_mangle)]
pub extern "C" fn altair_get_total_active_balance(
    s: Settings,
    state_slot: u64,
    registry: &[u64],
) -> PlainTotal
    ensures { result
        ≡ plain_total (after_tests (slot_registry_tests s state_slot registry.now)
        (total_with_raised s (get_active_validator_indices (decode registry.now) (get_current_epoch s state_slot)))) }
{
    plain_total(totals::get_total_active_balance(s, state_slot, registry))
}

#[unsafe(no_mangle)]
pub extern "C" fn altair_get_validator_churn_limit(
    s: Settings,
    state_slot: u64,
    registry: &[u64],
) -> PlainNumber
    ensures { result
        ≡ plain_number (after_tests (slot_registry_tests s state_slot registry.now)
        (value (get_validator_churn_limit s state_slot (decode registry.now)))) }
{
    plain_number(totals::get_validator_churn_limit(s, state_slot, registry))
}

#[unsafe(no_mangle)]
pub extern "C" fn altair_initiate_validator_exit(
    s: Settings,
    state_slot: u64,
    index: u64,
    queue: ExitQueue,
    registry: &mut [u64],
) -> QueueAnswer
    ensures { QueueCloses (exit_queue_tests s state_slot index queue registry.old)
        (initiate_validator_exit s state_slot (decode registry.old) index)
        queue registry.old registry.old registry.new result }
{
    validator_exit::initiate_validator_exit(s, state_slot, index, queue, registry)
}

// The exit queue's pair of a registry.
#[unsafe(no_mangle)]
pub extern "C" fn altair_exit_queue(registry: &[u64]) -> QueueAnswer
    ensures { result ≡ found_queue registry.now }
{
    validator_exit::found_queue(registry)
}
