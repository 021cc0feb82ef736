// Tests 1, 2 and 3 of the whole close under Electra: the refusal of the first that failed.
#![tactic(auto)]

ghost use Rattle.std.specs.Prelude.{◌≡◌};
ghost use Rattle.definitions.specs.Lists.{every};
ghost use Rattle.definitions_electra_close.specs.Close.{electra_tests};
ghost use Rattle.definitions_electra_close.specs.Calls.{electra_called};
ghost use Rattle.electra_close_tests.specs.Shaped.{lent_tests, room_for, closing_tests};

use definitions::{Finality, Refusal};
use definitions_electra::{DepositNumbers, ElectraRules, ExitChurn};
use electra_refusals::{
    consolidations_shaped, deposits_shaped, good_compounding, good_deposits, good_electra,
    indices_shaped, keys_shaped,
};
use epochs::roots::roots_shaped;
use refusals::{
    all_pass, good_finality, good_registry, in_order, registry_shaped, settings_shaped,
};

fn lent_shaped(
    rules: ElectraRules,
    registry: &[u64],
    compounding: &[u64],
    slashings: &[u64],
    roots: &[u8],
    deposits: &[u64],
    consolidations: &[u64],
) -> bool
    ensures { result
        ≡ every (lent_tests rules registry.now compounding.now slashings.now roots.now
        deposits.now consolidations.now) }
{
    let s = rules.settings;
    all_pass(&[
        settings_shaped(s),
        registry_shaped(registry),
        roots_shaped(s, roots),
        slashings.len() as u64 == s.epochs_per_slashings_vector,
        compounding.len() == registry.len() / 10,
        deposits_shaped(deposits),
        keys_shaped(registry, deposits),
        consolidations_shaped(consolidations),
        indices_shaped(registry, consolidations),
    ])
}

// The closing lengths with room for every deposit's validator.
#[derive(Clone, Copy)]
pub struct Room {
    pub compounding: usize,
    pub registry: usize,
    pub amounts: usize,
    pub places: usize,
}

fn room_for(registry: &[u64], deposits: &[u64]) -> Room
    ensures { result ≡ room_for registry.now deposits.now }
{
    let d = deposits.len() / 5;
    let many = registry.len() / 10 + d;
    Room {
        compounding: many,
        registry: 10 * many,
        amounts: 12 * many,
        places: d,
    }
}

fn closing_shaped(
    room: Room,
    slashings: &[u64],
    deposits: &[u64],
    consolidations: &[u64],
    closing_registry: &[u64],
    closing_compounding: &[u64],
    closing_slashings: &[u64],
    closing_deposits: &[u64],
    closing_consolidations: &[u64],
    amounts: &[u64],
    places: &[u64],
) -> bool
    ensures { result
        ≡ every (closing_tests room slashings.now deposits.now consolidations.now closing_registry.now
        closing_compounding.now closing_slashings.now closing_deposits.now
        closing_consolidations.now amounts.now places.now) }
{
    all_pass(&[
        closing_registry.len() == room.registry,
        closing_compounding.len() == room.compounding,
        closing_slashings.len() == slashings.len(),
        closing_deposits.len() == deposits.len(),
        closing_consolidations.len() == consolidations.len(),
        amounts.len() == room.amounts,
        places.len() == room.places,
    ])
}

pub fn close_tests(
    rules: ElectraRules,
    finality: Finality,
    churn: ExitChurn,
    numbers: DepositNumbers,
    registry: &[u64],
    compounding: &[u64],
    slashings: &[u64],
    roots: &[u8],
    deposits: &[u64],
    consolidations: &[u64],
    closing_registry: &[u64],
    closing_compounding: &[u64],
    closing_slashings: &[u64],
    closing_deposits: &[u64],
    closing_consolidations: &[u64],
    amounts: &[u64],
    places: &[u64],
) -> Result<(), Refusal>
    ensures { result
        ≡ electra_tests
        (electra_called rules finality churn numbers registry.now compounding.now slashings.now roots.now
        deposits.now consolidations.now closing_registry.now closing_compounding.now
        closing_slashings.now closing_deposits.now closing_consolidations.now amounts.now
        places.now) }
{
    let shaped = lent_shaped(
        rules,
        registry,
        compounding,
        slashings,
        roots,
        deposits,
        consolidations,
    );
    let room = room_for(registry, deposits);
    let roomy = closing_shaped(
        room,
        slashings,
        deposits,
        consolidations,
        closing_registry,
        closing_compounding,
        closing_slashings,
        closing_deposits,
        closing_consolidations,
        amounts,
        places,
    );
    in_order(
        &[shaped, roomy],
        &[good_electra(rules)],
        &[
            good_finality(finality),
            good_registry(registry),
            good_compounding(compounding),
            good_deposits(deposits),
        ],
    )
}
