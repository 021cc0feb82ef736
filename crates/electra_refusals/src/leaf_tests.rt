// Tests 1, 2 and 3 of Electra's leaves: the refusal of the first test that failed.
ghost use Rattle.std.specs.Prelude.{◌≡◌};
ghost use Rattle.definitions_electra.specs.Refusals.{credential_tests, slot_registry_tests, exit_tests};

use crate::good_electra;
use definitions::Refusal;
use definitions_electra::ElectraRules;
use refusals::{good_registry, in_order, is_small, registry_shaped, settings_shaped};

pub fn credential_tests(rules: ElectraRules, compounding: u64) -> Result<(), Refusal>
    ensures { result ≡ credential_tests rules compounding }
{
    in_order(
        &[settings_shaped(rules.settings)],
        &[good_electra(rules)],
        &[compounding <= 1],
    )
}

pub fn slot_registry_tests(
    rules: ElectraRules,
    state_slot: u64,
    registry: &[u64],
) -> Result<(), Refusal>
    ensures { result ≡ slot_registry_tests rules state_slot registry.now }
{
    in_order(
        &[settings_shaped(rules.settings), registry_shaped(registry)],
        &[good_electra(rules)],
        &[is_small(state_slot), good_registry(registry)],
    )
}

pub fn exit_tests(
    rules: ElectraRules,
    state_slot: u64,
    index: u64,
    registry: &[u64],
) -> Result<(), Refusal>
    ensures { result ≡ exit_tests rules state_slot index registry.now }
{
    in_order(
        &[
            settings_shaped(rules.settings),
            registry_shaped(registry),
            index < (registry.len() / 10) as u64,
        ],
        &[good_electra(rules)],
        &[is_small(state_slot), good_registry(registry)],
    )
}
