// Epochs and slots: phase0/helpers.rs.
#![tactic(auto)]

ghost use Rattle.std.specs.Prelude.{◌≡◌, ◌<◌};
ghost use Rattle.definitions.specs.Checked.{value};
ghost use Rattle.definitions.specs.Refusals.{after_tests};
ghost use Rattle.definitions.specs.LeafRefusals.{settings_tests, slot_tests};
ghost use Rattle.definitions.specs.Rust.Phase0.Helpers.{compute_epoch_at_slot, compute_start_slot_at_epoch, compute_activation_exit_epoch, get_current_epoch, get_previous_epoch};

pub mod roots;

use arithmetic::{add64, mul64};
use definitions::{Refusal, Settings};
use refusals::{good_settings, in_order, is_small, settings_shaped};

// Tests 1 and 2 on the settings.
pub fn settings_refusal(s: Settings) -> Result<(), Refusal>
    ensures { result ≡ settings_tests s }
{
    in_order(&[settings_shaped(s)], &[good_settings(s)], &[])
}

// And test 3 on the state's slot.
pub fn slot_refusal(s: Settings, state_slot: u64) -> Result<(), Refusal>
    ensures { result ≡ slot_tests s state_slot }
{
    in_order(
        &[settings_shaped(s)],
        &[good_settings(s)],
        &[is_small(state_slot)],
    )
}

// What is worked out once the tests have passed.

pub fn current_epoch(s: Settings, state_slot: u64) -> u64
    requires { 0 < s.slots_per_epoch }
    ensures { result ≡ get_current_epoch s state_slot }
{
    state_slot / s.slots_per_epoch
}

// One less, and at the genesis epoch the genesis epoch.
pub fn previous_epoch(s: Settings, state_slot: u64) -> u64
    requires { 0 < s.slots_per_epoch }
    ensures { result ≡ get_previous_epoch s state_slot }
{
    let current = current_epoch(s, state_slot);
    if current == 0 {
        return 0;
    }
    current - 1
}

pub fn activation_exit_epoch(s: Settings, epoch: u64) -> Result<u64, Refusal>
    ensures { result ≡ compute_activation_exit_epoch s epoch }
{
    let next = add64(epoch, 1)?;
    add64(next, s.max_seed_lookahead)
}

// The leaves.

pub fn compute_epoch_at_slot(s: Settings, slot: u64) -> Result<u64, Refusal>
    ensures { result ≡ after_tests (settings_tests s) (value (compute_epoch_at_slot s slot)) }
{
    settings_refusal(s)?;
    Ok(current_epoch(s, slot))
}

pub fn compute_start_slot_at_epoch(s: Settings, epoch: u64) -> Result<u64, Refusal>
    ensures { result ≡ after_tests (settings_tests s) (compute_start_slot_at_epoch s epoch) }
{
    settings_refusal(s)?;
    mul64(epoch, s.slots_per_epoch)
}

pub fn compute_activation_exit_epoch(s: Settings, epoch: u64) -> Result<u64, Refusal>
    ensures { result ≡ after_tests (settings_tests s) (compute_activation_exit_epoch s epoch) }
{
    settings_refusal(s)?;
    activation_exit_epoch(s, epoch)
}

pub fn get_current_epoch(s: Settings, state_slot: u64) -> Result<u64, Refusal>
    ensures { result ≡ after_tests (slot_tests s state_slot) (value (get_current_epoch s state_slot)) }
{
    slot_refusal(s, state_slot)?;
    Ok(current_epoch(s, state_slot))
}

pub fn get_previous_epoch(s: Settings, state_slot: u64) -> Result<u64, Refusal>
    ensures { result ≡ after_tests (slot_tests s state_slot) (value (get_previous_epoch s state_slot)) }
{
    slot_refusal(s, state_slot)?;
    Ok(previous_epoch(s, state_slot))
}
