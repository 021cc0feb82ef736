// Tests 1, 2 and 3 of the calls that are lent settings and a registry: what they answer is the refusal of the first test that failed.
ghost use Rattle.std.specs.Prelude.{◌≡◌};
ghost use Rattle.definitions.specs.Refusals.{registry_tests};
ghost use Rattle.definitions.specs.LeafRefusals.{slot_registry_tests, participation_tests};

use crate::is_participation_epoch;
use definitions::{Refusal, Settings};
use refusals::{
    good_registry, good_settings, in_order, is_small, registry_shaped, settings_shaped,
};

pub fn slot_registry_tests(s: Settings, state_slot: u64, registry: &[u64]) -> Result<(), Refusal>
    ensures { result ≡ slot_registry_tests s state_slot registry.now }
{
    in_order(
        &[settings_shaped(s), registry_shaped(registry)],
        &[good_settings(s)],
        &[is_small(state_slot), good_registry(registry)],
    )
}

pub fn participation_tests(
    s: Settings,
    state_slot: u64,
    flag_index: u64,
    epoch: u64,
    registry: &[u64],
) -> Result<(), Refusal>
    ensures { result ≡ participation_tests s state_slot flag_index epoch registry.now }
{
    in_order(
        &[
            settings_shaped(s),
            registry_shaped(registry),
            flag_index <= 2,
            is_participation_epoch(s, state_slot, epoch),
        ],
        &[good_settings(s)],
        &[is_small(state_slot), good_registry(registry)],
    )
}

// A step's: inactivity and rewards.
pub fn registry_tests(
    s: Settings,
    state_slot: u64,
    finalized_epoch: u64,
    opening: &[u64],
    closing: &[u64],
) -> Result<(), Refusal>
    ensures { result ≡ registry_tests s state_slot finalized_epoch opening.now closing.now }
{
    in_order(
        &[
            settings_shaped(s),
            registry_shaped(opening),
            closing.len() == opening.len(),
        ],
        &[good_settings(s)],
        &[
            is_small(state_slot),
            is_small(finalized_epoch),
            good_registry(opening),
        ],
    )
}
