// Tests 1, 2 and 3 of the leaves that are lent one validator's ten numbers: what they answer is the refusal of the first test that failed.
#![tactic(auto)]

ghost use Rattle.std.specs.Prelude.{◌≡◌, ◌<◌};
ghost use Rattle.definitions.specs.LeafRefusals.{entry_tests, finalized_entry_tests, settings_entry_tests, slot_entry_tests, is_participation_epoch, participation_entry_tests};

pub mod registry_refusals;

use definitions::{Refusal, Settings};
use epochs::{current_epoch, previous_epoch};
use refusals::{good_entry, good_settings, in_order, is_small, settings_shaped};

pub fn entry_tests(entry: &[u64]) -> Result<(), Refusal>
    ensures { result ≡ entry_tests entry.now }
{
    if entry.len() != 10 {
        return Err(Refusal::BadShape);
    }
    in_order(&[], &[], &[good_entry(entry)])
}

pub fn finalized_entry_tests(finalized_epoch: u64, entry: &[u64]) -> Result<(), Refusal>
    ensures { result ≡ finalized_entry_tests finalized_epoch entry.now }
{
    if entry.len() != 10 {
        return Err(Refusal::BadShape);
    }
    in_order(&[], &[], &[is_small(finalized_epoch), good_entry(entry)])
}

pub fn settings_entry_tests(s: Settings, entry: &[u64]) -> Result<(), Refusal>
    ensures { result ≡ settings_entry_tests s entry.now }
{
    if entry.len() != 10 {
        return Err(Refusal::BadShape);
    }
    in_order(
        &[settings_shaped(s)],
        &[good_settings(s)],
        &[good_entry(entry)],
    )
}

pub fn slot_entry_tests(s: Settings, state_slot: u64, entry: &[u64]) -> Result<(), Refusal>
    ensures { result ≡ slot_entry_tests s state_slot entry.now }
{
    if entry.len() != 10 {
        return Err(Refusal::BadShape);
    }
    in_order(
        &[settings_shaped(s)],
        &[good_settings(s)],
        &[is_small(state_slot), good_entry(entry)],
    )
}

pub fn is_participation_epoch(s: Settings, state_slot: u64, epoch: u64) -> bool
    ensures { result ≡ is_participation_epoch s state_slot epoch }
{
    if s.slots_per_epoch == 0 {
        return true;
    }
    if epoch == previous_epoch(s, state_slot) {
        return true;
    }
    epoch == current_epoch(s, state_slot)
}

pub fn participation_entry_tests(
    s: Settings,
    state_slot: u64,
    flag_index: u64,
    epoch: u64,
    entry: &[u64],
) -> Result<(), Refusal>
    ensures { result ≡ participation_entry_tests s state_slot flag_index epoch entry.now }
{
    if entry.len() != 10 {
        return Err(Refusal::BadShape);
    }
    in_order(
        &[
            settings_shaped(s),
            flag_index <= 2,
            is_participation_epoch(s, state_slot, epoch),
        ],
        &[good_settings(s)],
        &[is_small(state_slot), good_entry(entry)],
    )
}
