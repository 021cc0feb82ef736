// Tests 1, 2 and 3 of Electra's five steps: the refusal of the first test that failed.
ghost use Rattle.std.specs.Prelude.{◌≡◌};
ghost use Rattle.definitions_electra.specs.Refusals.{registry_tests, slashings_tests, deposits_tests, consolidations_tests, effective_balance_tests};

use crate::{
    consolidations_shaped, deposits_shaped, good_compounding, good_deposits, good_electra,
    indices_shaped, keys_shaped,
};
use definitions::Refusal;
use definitions_electra::ElectraRules;
use refusals::{good_registry, in_order, is_small, registry_shaped, settings_shaped};

pub fn registry_tests(
    rules: ElectraRules,
    state_slot: u64,
    finalized_epoch: u64,
    opening: &[u64],
    closing: &[u64],
) -> Result<(), Refusal>
    ensures { result ≡ registry_tests rules state_slot finalized_epoch opening.now closing.now }
{
    in_order(
        &[
            settings_shaped(rules.settings),
            registry_shaped(opening),
            closing.len() == opening.len(),
        ],
        &[good_electra(rules)],
        &[
            is_small(state_slot),
            is_small(finalized_epoch),
            good_registry(opening),
        ],
    )
}

pub fn slashings_tests(
    rules: ElectraRules,
    state_slot: u64,
    slashings: &[u64],
    opening: &[u64],
    closing: &[u64],
) -> Result<(), Refusal>
    ensures { result ≡ slashings_tests rules state_slot slashings.now opening.now closing.now }
{
    let s = rules.settings;
    in_order(
        &[
            settings_shaped(s),
            slashings.len() as u64 == s.epochs_per_slashings_vector,
            registry_shaped(opening),
            closing.len() == opening.len(),
        ],
        &[good_electra(rules)],
        &[is_small(state_slot), good_registry(opening)],
    )
}

// `places` is the working list of the keys.
pub fn deposits_tests(
    rules: ElectraRules,
    state_slot: u64,
    finalized_epoch: u64,
    registry: &[u64],
    compounding: &[u64],
    deposits: &[u64],
    closing_registry: &[u64],
    closing_compounding: &[u64],
    closing_deposits: &[u64],
    places: &[u64],
) -> Result<(), Refusal>
    ensures { result
        ≡ deposits_tests rules state_slot finalized_epoch registry.now compounding.now deposits.now closing_registry.now
        closing_compounding.now closing_deposits.now places.now }
{
    let n = registry.len() / 10;
    let d = deposits.len() / 5;
    in_order(
        &[
            settings_shaped(rules.settings),
            registry_shaped(registry),
            compounding.len() == n,
            deposits_shaped(deposits),
            keys_shaped(registry, deposits),
            closing_registry.len() == 10 * (n + d),
            closing_compounding.len() == n + d,
            closing_deposits.len() == deposits.len(),
            places.len() == d,
        ],
        &[good_electra(rules)],
        &[
            is_small(state_slot),
            is_small(finalized_epoch),
            good_registry(registry),
            good_compounding(compounding),
            good_deposits(deposits),
        ],
    )
}

pub fn consolidations_tests(
    rules: ElectraRules,
    state_slot: u64,
    registry: &[u64],
    consolidations: &[u64],
    closing_registry: &[u64],
    closing_consolidations: &[u64],
) -> Result<(), Refusal>
    ensures { result
        ≡ consolidations_tests rules state_slot registry.now consolidations.now closing_registry.now
        closing_consolidations.now }
{
    in_order(
        &[
            settings_shaped(rules.settings),
            registry_shaped(registry),
            consolidations_shaped(consolidations),
            indices_shaped(registry, consolidations),
            closing_registry.len() == registry.len(),
            closing_consolidations.len() == consolidations.len(),
        ],
        &[good_electra(rules)],
        &[is_small(state_slot), good_registry(registry)],
    )
}

pub fn effective_balance_tests(
    rules: ElectraRules,
    compounding: &[u64],
    opening: &[u64],
    closing: &[u64],
) -> Result<(), Refusal>
    ensures { result ≡ effective_balance_tests rules compounding.now opening.now closing.now }
{
    in_order(
        &[
            settings_shaped(rules.settings),
            registry_shaped(opening),
            compounding.len() == opening.len() / 10,
            closing.len() == opening.len(),
        ],
        &[good_electra(rules)],
        &[good_registry(opening), good_compounding(compounding)],
    )
}
