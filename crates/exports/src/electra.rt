// Electra's five steps that are its own, and its leaves. The other five steps are Altair's, with Bellatrix's quotient in rewards.
ghost use Rattle.std.specs.Prelude.{◌≡◌};
ghost use Rattle.definitions.specs.Record.{decode};
ghost use Rattle.definitions.specs.Checked.{value};
ghost use Rattle.definitions.specs.Plain.{plain_number};
ghost use Rattle.definitions.specs.Closes.{Closes};
ghost use Rattle.definitions.specs.Refusals.{after_tests};
ghost use Rattle.definitions_electra.specs.Refusals.{registry_tests, slashings_tests, deposits_tests, consolidations_tests, effective_balance_tests, credential_tests, slot_registry_tests, exit_tests};
ghost use Rattle.definitions_electra.specs.Document.Electra.Helpers.{get_max_effective_balance};
ghost use Rattle.definitions_electra.specs.Evaluated.Electra.Helpers.{get_balance_churn_limit, get_activation_exit_churn_limit, compute_exit_epoch_and_update_churn};
ghost use Rattle.definitions_electra.specs.Calls.{registry_work, exit_work, slashings_work, deposits_work, consolidations_work, effective_balances_work, registry_in, exit_churn_answer, ChurnCloses, DepositsClose, ConsolidationsClose};

use definitions::{PlainNumber, code};
use definitions_electra::{
    ConsolidationsAnswer, DepositNumbers, DepositsAnswer, ElectraRules, ExitChurn, ExitChurnAnswer,
};
use plain::plain_number;

// The steps

#[unsafe(no_mangle)]
pub extern "C" fn electra_process_registry_updates(
    rules: ElectraRules,
    state_slot: u64,
    finalized_epoch: u64,
    churn: ExitChurn,
    opening: &[u64],
    closing: &mut [u64],
) -> ExitChurnAnswer
    ensures { ChurnCloses (registry_tests rules state_slot finalized_epoch opening.now closing.old)
        (registry_work rules state_slot finalized_epoch churn opening.now)
        churn opening.now closing.old closing.new result }
{
    electra_registry::process_registry_updates(
        rules,
        state_slot,
        finalized_epoch,
        churn,
        opening,
        closing,
    )
}

#[unsafe(no_mangle)]
pub extern "C" fn electra_process_slashings(
    rules: ElectraRules,
    state_slot: u64,
    slashings: &[u64],
    opening: &[u64],
    closing: &mut [u64],
) -> u64
    ensures { Closes registry_in (slashings_tests rules state_slot slashings.now opening.now closing.old)
        (slashings_work rules state_slot slashings.now opening.now)
        opening.now closing.old closing.new result }
{
    code(electra_slashings::process_slashings(rules, state_slot, slashings, opening, closing))
}

#[unsafe(no_mangle)]
pub extern "C" fn electra_process_pending_deposits(
    rules: ElectraRules,
    state_slot: u64,
    finalized_epoch: u64,
    numbers: DepositNumbers,
    registry: &[u64],
    compounding: &[u64],
    deposits: &[u64],
    closing_registry: &mut [u64],
    closing_compounding: &mut [u64],
    closing_deposits: &mut [u64],
    places: &mut [u64],
) -> DepositsAnswer
    ensures { DepositsClose
        (deposits_tests rules state_slot finalized_epoch registry.now compounding.now deposits.now
        closing_registry.old closing_compounding.old closing_deposits.old places.old)
        (deposits_work rules state_slot finalized_epoch numbers registry.now compounding.now deposits.now)
        numbers registry.now compounding.now deposits.now
        closing_registry.old closing_registry.new closing_compounding.old closing_compounding.new
        closing_deposits.old closing_deposits.new result }
{
    electra_deposits::step::process_pending_deposits(
        rules,
        state_slot,
        finalized_epoch,
        numbers,
        registry,
        compounding,
        deposits,
        closing_registry,
        closing_compounding,
        closing_deposits,
        places,
    )
}

#[unsafe(no_mangle)]
pub extern "C" fn electra_process_pending_consolidations(
    rules: ElectraRules,
    state_slot: u64,
    registry: &[u64],
    consolidations: &[u64],
    closing_registry: &mut [u64],
    closing_consolidations: &mut [u64],
) -> ConsolidationsAnswer
    ensures { ConsolidationsClose
        (consolidations_tests rules state_slot registry.now consolidations.now closing_registry.old
        closing_consolidations.old)
        (consolidations_work rules state_slot registry.now consolidations.now)
        registry.now consolidations.now closing_registry.old closing_registry.new
        closing_consolidations.old closing_consolidations.new result }
{
    electra_consolidations::process_pending_consolidations(
        rules,
        state_slot,
        registry,
        consolidations,
        closing_registry,
        closing_consolidations,
    )
}

#[unsafe(no_mangle)]
pub extern "C" fn electra_process_effective_balance_updates(
    rules: ElectraRules,
    compounding: &[u64],
    opening: &[u64],
    closing: &mut [u64],
) -> u64
    ensures { Closes registry_in (effective_balance_tests rules compounding.now opening.now closing.old)
        (effective_balances_work rules compounding.now opening.now)
        opening.now closing.old closing.new result }
{
    code(electra_balances::process_effective_balance_updates(rules, compounding, opening, closing))
}

// The leaves

#[unsafe(no_mangle)]
pub extern "C" fn electra_get_balance_churn_limit(
    rules: ElectraRules,
    state_slot: u64,
    registry: &[u64],
) -> PlainNumber
    ensures { result
        ≡ plain_number (after_tests (slot_registry_tests rules state_slot registry.now)
        (get_balance_churn_limit rules state_slot (decode registry.now))) }
{
    plain_number(electra_registry::leaves::get_balance_churn_limit(rules, state_slot, registry))
}

#[unsafe(no_mangle)]
pub extern "C" fn electra_get_activation_exit_churn_limit(
    rules: ElectraRules,
    state_slot: u64,
    registry: &[u64],
) -> PlainNumber
    ensures { result
        ≡ plain_number (after_tests (slot_registry_tests rules state_slot registry.now)
        (get_activation_exit_churn_limit rules state_slot (decode registry.now))) }
{
    plain_number(electra_registry::leaves::get_activation_exit_churn_limit(
        rules, state_slot, registry,
    ))
}

#[unsafe(no_mangle)]
pub extern "C" fn electra_get_max_effective_balance(
    rules: ElectraRules,
    compounding: u64,
) -> PlainNumber
    ensures { result ≡ plain_number (after_tests (credential_tests rules compounding) (value (get_max_effective_balance rules.electra compounding))) }
{
    plain_number(electra_registry::leaves::get_max_effective_balance(rules, compounding))
}

#[unsafe(no_mangle)]
pub extern "C" fn electra_compute_exit_epoch_and_update_churn(
    rules: ElectraRules,
    state_slot: u64,
    churn: ExitChurn,
    exit_balance: u64,
    registry: &[u64],
) -> ExitChurnAnswer
    ensures { result
        ≡ exit_churn_answer (after_tests (slot_registry_tests rules state_slot registry.now)
        (compute_exit_epoch_and_update_churn rules state_slot (decode registry.now) churn exit_balance)) churn }
{
    electra_registry::leaves::compute_exit_epoch_and_update_churn(
        rules,
        state_slot,
        churn,
        exit_balance,
        registry,
    )
}

#[unsafe(no_mangle)]
pub extern "C" fn electra_initiate_validator_exit(
    rules: ElectraRules,
    state_slot: u64,
    index: u64,
    churn: ExitChurn,
    registry: &mut [u64],
) -> ExitChurnAnswer
    ensures { ChurnCloses (exit_tests rules state_slot index registry.old) (exit_work rules state_slot index churn registry.old)
        churn registry.old registry.old registry.new result }
{
    electra_registry::leaves::initiate_validator_exit(rules, state_slot, index, churn, registry)
}
