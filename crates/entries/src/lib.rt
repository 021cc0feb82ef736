// A validator's own: what its ten numbers say. `entry_..` is for loops, which have tested the record already.
#![tactic(auto)]

ghost use Rattle.std.specs.Prelude.{◌≡◌, cond, ◌&&◌, not, ◌≤◌, leb, ltb, eqb, length};
ghost use Rattle.definitions.specs.Record.{decode_one};
ghost use Rattle.definitions.specs.Checked.{value};
ghost use Rattle.definitions.specs.Refusals.{after_tests};
ghost use Rattle.definitions.specs.LeafRefusals.{flag_tests, entry_tests, finalized_entry_tests, settings_entry_tests, slot_entry_tests, participation_entry_tests};
ghost use Rattle.definitions.specs.Document.Phase0.Helpers.{is_active_validator, is_eligible_for_activation_queue, is_eligible_for_activation, get_current_epoch, get_previous_epoch};
ghost use Rattle.definitions.specs.Document.Phase0.EpochProcessing.{is_eligible};
ghost use Rattle.definitions.specs.Document.Altair.Helpers.{has_flag, add_flag, is_unslashed_participating};

use definitions::{
    ACTIVATION_ELIGIBILITY_EPOCH, ACTIVATION_EPOCH, CURRENT_EPOCH_PARTICIPATION, EFFECTIVE_BALANCE,
    EXIT_EPOCH, FAR_FUTURE_EPOCH, PREVIOUS_EPOCH_PARTICIPATION, Refusal, SLASHED, Settings,
    WITHDRAWABLE_EPOCH,
};
use epochs::{current_epoch, previous_epoch};
use leaf_refusals::{
    entry_tests, finalized_entry_tests, participation_entry_tests, settings_entry_tests,
    slot_entry_tests,
};

// On numbers, for the survey too: its compiled loop has then no branch that depends on the validator.
pub fn is_active(activation_epoch: u64, exit_epoch: u64, epoch: u64) -> bool
    ensures { result ≡ (leb activation_epoch epoch && ltb epoch exit_epoch) }
{
    if epoch < activation_epoch {
        return false;
    }
    epoch < exit_epoch
}

pub fn entry_is_active(entry: &[u64], epoch: u64) -> bool
    requires { length entry.now ≡ 10 }
    ensures { result ≡ is_active_validator (decode_one entry.now) epoch }
{
    is_active(entry[ACTIVATION_EPOCH], entry[EXIT_EPOCH], epoch)
}

pub fn is_active_validator(entry: &[u64], epoch: u64) -> Result<bool, Refusal>
    ensures { result ≡ after_tests (entry_tests entry.now) (value (is_active_validator (decode_one entry.now) epoch)) }
{
    entry_tests(entry)?;
    let active = entry_is_active(entry, epoch);
    Ok(active)
}

pub fn becomes_eligible(
    max_effective_balance: u64,
    effective_balance: u64,
    eligibility_epoch: u64,
) -> bool
    ensures { result ≡ (eqb eligibility_epoch 18446744073709551615 && eqb effective_balance max_effective_balance) }
{
    if eligibility_epoch != FAR_FUTURE_EPOCH {
        return false;
    }
    effective_balance == max_effective_balance
}

pub fn entry_is_eligible_for_activation_queue(s: Settings, entry: &[u64]) -> bool
    requires { length entry.now ≡ 10 }
    ensures { result ≡ is_eligible_for_activation_queue s (decode_one entry.now) }
{
    becomes_eligible(
        s.max_effective_balance,
        entry[EFFECTIVE_BALANCE],
        entry[ACTIVATION_ELIGIBILITY_EPOCH],
    )
}

pub fn is_eligible_for_activation_queue(s: Settings, entry: &[u64]) -> Result<bool, Refusal>
    ensures { result
        ≡ after_tests (settings_entry_tests s entry.now) (value (is_eligible_for_activation_queue s (decode_one entry.now))) }
{
    settings_entry_tests(s, entry)?;
    let eligible = entry_is_eligible_for_activation_queue(s, entry);
    Ok(eligible)
}

pub fn entry_is_eligible_for_activation(finalized_epoch: u64, entry: &[u64]) -> bool
    requires { length entry.now ≡ 10 }
    ensures { result ≡ is_eligible_for_activation finalized_epoch (decode_one entry.now) }
{
    if finalized_epoch < entry[ACTIVATION_ELIGIBILITY_EPOCH] {
        return false;
    }
    entry[ACTIVATION_EPOCH] == FAR_FUTURE_EPOCH
}

pub fn is_eligible_for_activation(finalized_epoch: u64, entry: &[u64]) -> Result<bool, Refusal>
    ensures { result
        ≡ after_tests (finalized_entry_tests finalized_epoch entry.now)
        (value (is_eligible_for_activation finalized_epoch (decode_one entry.now))) }
{
    finalized_entry_tests(finalized_epoch, entry)?;
    let eligible = entry_is_eligible_for_activation(finalized_epoch, entry);
    Ok(eligible)
}

// The test of get_eligible_validator_indices.
pub fn entry_is_eligible(previous_epoch: u64, entry: &[u64]) -> bool
    requires { length entry.now ≡ 10 }
    ensures { result ≡ is_eligible previous_epoch (decode_one entry.now) }
{
    if entry_is_active(entry, previous_epoch) {
        return true;
    }
    if entry[SLASHED] != 1 {
        return false;
    }
    // previous_epoch + 1 < withdrawable epoch, for any epoch
    if entry[WITHDRAWABLE_EPOCH] == 0 {
        return false;
    }
    previous_epoch < entry[WITHDRAWABLE_EPOCH] - 1
}

pub fn is_eligible(s: Settings, state_slot: u64, entry: &[u64]) -> Result<bool, Refusal>
    ensures { result
        ≡ after_tests (slot_entry_tests s state_slot entry.now)
        (value (is_eligible (get_previous_epoch s state_slot) (decode_one entry.now))) }
{
    slot_entry_tests(s, state_slot, entry)?;
    let previous = previous_epoch(s, state_slot);
    let eligible = entry_is_eligible(previous, entry);
    Ok(eligible)
}

pub fn flag_is_set(flags: u64, flag_index: u64) -> bool
    requires { flag_index ≤ 7 }
    ensures { result ≡ has_flag flags flag_index }
{
    (flags >> flag_index) % 2 == 1
}

pub fn has_flag(flags: u8, flag_index: u64) -> Result<bool, Refusal>
    ensures { result ≡ after_tests (flag_tests flag_index) (value (has_flag flags flag_index)) }
{
    if 7 < flag_index {
        return Err(Refusal::BadShape);
    }
    let set = flag_is_set(flags as u64, flag_index);
    Ok(set)
}

pub fn add_flag(flags: u8, flag_index: u64) -> Result<u64, Refusal>
    ensures { result ≡ after_tests (flag_tests flag_index) (value (add_flag flags flag_index)) }
{
    if 7 < flag_index {
        return Err(Refusal::BadShape);
    }
    let before = flags as u64;
    if flag_is_set(before, flag_index) {
        return Ok(before);
    }
    let flag = 1u64 << flag_index;
    let after = before + flag;
    Ok(after)
}

// The flags that count for an epoch, the present or the previous one: at the genesis epoch, which is both, the current ones.
pub fn flags_at(current_epoch: u64, epoch: u64, current: u64, previous: u64) -> u64
    ensures { result ≡ cond (eqb epoch current_epoch) current previous }
{
    if epoch == current_epoch {
        return current;
    }
    previous
}

pub fn participates(active: bool, slashed: u64, flags: u64, flag_index: u64) -> bool
    requires { flag_index ≤ 7 }
    ensures { result ≡ (active && has_flag flags flag_index && not (eqb slashed 1)) }
{
    if !active {
        return false;
    }
    if slashed == 1 {
        return false;
    }
    flag_is_set(flags, flag_index)
}

// The test of get_unslashed_participating_indices.
pub fn entry_is_participating(
    current_epoch: u64,
    flag_index: u64,
    epoch: u64,
    entry: &[u64],
) -> bool
    requires len { length entry.now ≡ 10 }
    requires flag_index_bound { flag_index ≤ 7 }
    ensures { result ≡ is_unslashed_participating current_epoch flag_index epoch (decode_one entry.now) }
{
    let active = entry_is_active(entry, epoch);
    let flags = flags_at(
        current_epoch,
        epoch,
        entry[CURRENT_EPOCH_PARTICIPATION],
        entry[PREVIOUS_EPOCH_PARTICIPATION],
    );
    participates(active, entry[SLASHED], flags, flag_index)
}

pub fn is_unslashed_participating(
    s: Settings,
    state_slot: u64,
    flag_index: u64,
    epoch: u64,
    entry: &[u64],
) -> Result<bool, Refusal>
    ensures { result
        ≡ after_tests (participation_entry_tests s state_slot flag_index epoch entry.now)
        (value (is_unslashed_participating (get_current_epoch s state_slot) flag_index epoch (decode_one entry.now))) }
{
    participation_entry_tests(s, state_slot, flag_index, epoch, entry)?;
    let current = current_epoch(s, state_slot);
    let participating = entry_is_participating(current, flag_index, epoch, entry);
    Ok(participating)
}
