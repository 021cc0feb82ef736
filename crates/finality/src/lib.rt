// Finality: how far it lags, and what comes of the two tests of the weighing. phase0/epoch_processing.rs.
#![tactic(auto)]

ghost use Rattle.std.specs.Prelude.{◌≡◌, cond, ◌&&◌, ◌+◌, ◌/◌, ◌%◌, ◌^◌, ◌≤◌, ◌<◌, eqb};
ghost use Rattle.definitions.specs.Refusals.{after_tests};
ghost use Rattle.definitions.specs.LeafRefusals.{finalized_tests};
ghost use Rattle.definitions.specs.Document.Phase0.EpochProcessing.{justified_bits, finalized_by, weighed};
ghost use Rattle.definitions.specs.Rust.Phase0.EpochProcessing.{get_finality_delay, is_in_inactivity_leak};

pub mod finalizing;

use arithmetic::sub64;
use definitions::{Checkpoint, Finality, Refusal, Settings};
use epochs::previous_epoch;
use refusals::{good_settings, in_order, is_small, settings_shaped};

pub fn finalized_refusal(s: Settings, state_slot: u64, finalized_epoch: u64) -> Result<(), Refusal>
    ensures { result ≡ finalized_tests s state_slot finalized_epoch }
{
    in_order(
        &[settings_shaped(s)],
        &[good_settings(s)],
        &[is_small(state_slot), is_small(finalized_epoch)],
    )
}

// What is worked out once the tests have passed.

pub fn finality_delay(s: Settings, state_slot: u64, finalized_epoch: u64) -> Result<u64, Refusal>
    requires { 0 < s.slots_per_epoch }
    ensures { result ≡ get_finality_delay s state_slot finalized_epoch }
{
    sub64(previous_epoch(s, state_slot), finalized_epoch)
}

pub fn inactivity_leak(s: Settings, state_slot: u64, finalized_epoch: u64) -> Result<bool, Refusal>
    requires { 0 < s.slots_per_epoch }
    ensures { result ≡ is_in_inactivity_leak s state_slot finalized_epoch }
{
    let delay = finality_delay(s, state_slot, finalized_epoch)?;
    Ok(s.min_epochs_to_inactivity_penalty < delay)
}

// The leaves.

pub fn get_finality_delay(
    s: Settings,
    state_slot: u64,
    finalized_epoch: u64,
) -> Result<u64, Refusal>
    ensures { result ≡ after_tests (finalized_tests s state_slot finalized_epoch) (get_finality_delay s state_slot finalized_epoch) }
{
    finalized_refusal(s, state_slot, finalized_epoch)?;
    finality_delay(s, state_slot, finalized_epoch)
}

pub fn is_in_inactivity_leak(
    s: Settings,
    state_slot: u64,
    finalized_epoch: u64,
) -> Result<bool, Refusal>
    ensures { result ≡ after_tests (finalized_tests s state_slot finalized_epoch) (is_in_inactivity_leak s state_slot finalized_epoch) }
{
    finalized_refusal(s, state_slot, finalized_epoch)?;
    inactivity_leak(s, state_slot, finalized_epoch)
}

// The outcome of the weighing, from the two tests.

// The bit that counts `weight`, set where `hit`.
fn with_bit(hit: bool, weight: u64, bits: u64) -> u64
    requires { (0 < weight) × (weight + bits < 2 ^ 64) }
    ensures is { result ≡ cond hit (cond (eqb (bits / weight % 2) 1) bits (bits + weight)) bits }
    ensures most { result ≤ bits + weight }
{
    if hit {
        if bits / weight % 2 == 1 {
            return bits;
        }
        return bits + weight;
    }
    bits
}

fn justified_bits(previous: bool, current: bool, bits: u64) -> u64
    requires { bits ≤ 15 }
    ensures { result ≡ justified_bits previous current bits }
{
    with_bit(current, 1, with_bit(previous, 2, 2 * bits % 16))
}

// Whether the bits show a test's run of epochs, and its first epoch lies `gap` before this one.
fn is_linked(shown: bool, source: u64, gap: u64, epoch: u64) -> bool
    requires { source + gap < 2 ^ 64 }
    ensures { result ≡ (shown && eqb (source + gap) epoch) }
{
    if shown {
        return source + gap == epoch;
    }
    false
}

// The last of the four tests overrides, so it is asked first.
fn finalized_by(epoch: u64, bits: u64, old: Finality) -> Checkpoint
    requires { (old.previous_justified_checkpoint.epoch < 2 ^ 48) × (old.current_justified_checkpoint.epoch < 2 ^ 48) }
    ensures { result ≡ finalized_by epoch bits old }
{
    let previous = old.previous_justified_checkpoint;
    let current = old.current_justified_checkpoint;
    let finalized = old.finalized_checkpoint;
    if is_linked(bits % 4 == 3, current.epoch, 1, epoch) {
        return current;
    }
    if is_linked(bits % 8 == 7, current.epoch, 2, epoch) {
        return current;
    }
    if is_linked(bits / 2 % 4 == 3, previous.epoch, 2, epoch) {
        return previous;
    }
    if is_linked(bits / 2 % 8 == 7, previous.epoch, 3, epoch) {
        return previous;
    }
    finalized
}

// `previous` and `current` are the checkpoints to justify, read only where their tests passed.
pub fn weighed(
    previous_passed: bool,
    current_passed: bool,
    previous: Checkpoint,
    current: Checkpoint,
    old: Finality,
) -> Finality
    requires justification_bits_bound { old.justification_bits ≤ 15 }
    requires previous_justified_checkpoint_bound { (old.previous_justified_checkpoint.epoch < 2 ^ 48) × (old.current_justified_checkpoint.epoch < 2 ^ 48) }
    ensures { result ≡ weighed previous.epoch current.epoch previous_passed current_passed previous.root current.root old }
{
    let bits = justified_bits(previous_passed, current_passed, old.justification_bits);
    let old_current = old.current_justified_checkpoint;
    let finalized = finalized_by(current.epoch, bits, old);
    let mut justified = old_current;
    if current_passed {
        justified = current;
    } else if previous_passed {
        justified = previous;
    }
    Finality {
        slot: old.slot,
        justification_bits: bits,
        previous_justified_checkpoint: old_current,
        current_justified_checkpoint: justified,
        finalized_checkpoint: finalized,
    }
}
