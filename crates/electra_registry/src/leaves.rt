// The leaves: get_balance_churn_limit, get_activation_exit_churn_limit, get_max_effective_balance, compute_exit_epoch_and_update_churn and
// initiate_validator_exit.
ghost use Rattle.std.specs.Prelude.{◌≡◌};
ghost use Rattle.definitions.specs.Record.{decode};
ghost use Rattle.definitions.specs.Checked.{value};
ghost use Rattle.definitions.specs.Refusals.{after_tests};
ghost use Rattle.definitions_electra.specs.Refusals.{credential_tests, slot_registry_tests, exit_tests};
ghost use Rattle.definitions_electra.specs.Document.Electra.Helpers.{get_max_effective_balance};
ghost use Rattle.definitions_electra.specs.Evaluated.Electra.Helpers.{get_balance_churn_limit, get_activation_exit_churn_limit, compute_exit_epoch_and_update_churn};
ghost use Rattle.definitions_electra.specs.Calls.{exit_work, exit_churn_answer, ChurnCloses};

use crate::exits::{exit_by_balance, exit_churn, exit_churn_answer};
use crate::{activation_exit_churn, balance_churn, registry_numbers};
use definitions::Refusal;
use definitions_electra::{ElectraRules, ExitChurn, ExitChurnAnswer};
use electra_refusals::leaf_tests::{credential_tests, exit_tests, slot_registry_tests};

pub fn get_balance_churn_limit(
    rules: ElectraRules,
    state_slot: u64,
    registry: &[u64],
) -> Result<u64, Refusal>
    ensures { result ≡ after_tests (slot_registry_tests rules state_slot registry.now)
        (get_balance_churn_limit rules state_slot (decode registry.now)) }
{
    slot_registry_tests(rules, state_slot, registry)?;
    balance_churn(rules, state_slot, registry)
}

pub fn get_activation_exit_churn_limit(
    rules: ElectraRules,
    state_slot: u64,
    registry: &[u64],
) -> Result<u64, Refusal>
    ensures { result ≡ after_tests (slot_registry_tests rules state_slot registry.now)
        (get_activation_exit_churn_limit rules state_slot (decode registry.now)) }
{
    slot_registry_tests(rules, state_slot, registry)?;
    activation_exit_churn(rules, state_slot, registry)
}

pub fn get_max_effective_balance(rules: ElectraRules, compounding: u64) -> Result<u64, Refusal>
    ensures { result ≡ after_tests (credential_tests rules compounding) (value (get_max_effective_balance rules.electra compounding)) }
{
    credential_tests(rules, compounding)?;
    let e = rules.electra;
    if compounding == 1 {
        return Ok(e.max_effective_balance_electra);
    }
    Ok(e.min_activation_balance)
}

// The two numbers after an exit of this balance: the registry is only read, for the limit.
pub fn compute_exit_epoch_and_update_churn(
    rules: ElectraRules,
    state_slot: u64,
    churn: ExitChurn,
    exit_balance: u64,
    registry: &[u64],
) -> ExitChurnAnswer
    ensures { result
        ≡ exit_churn_answer (after_tests (slot_registry_tests rules state_slot registry.now)
        (compute_exit_epoch_and_update_churn rules state_slot (decode registry.now) churn exit_balance)) churn }
{
    if let Err(refusal) = slot_registry_tests(rules, state_slot, registry) {
        return exit_churn_answer(Err(refusal), churn);
    }
    let n = registry_numbers(rules, state_slot, 0, registry);
    let after = exit_churn(churn, n.least, n.limit, exit_balance);
    exit_churn_answer(after, churn)
}

// The registry is left as lent on every refusal.
pub fn initiate_validator_exit(
    rules: ElectraRules,
    state_slot: u64,
    index: u64,
    churn: ExitChurn,
    registry: &mut [u64],
) -> ExitChurnAnswer
    ensures { ChurnCloses (exit_tests rules state_slot index registry.old) (exit_work rules state_slot index churn registry.old)
        churn registry.old registry.old registry.new result }
{
    if let Err(refusal) = exit_tests(rules, state_slot, index, &registry[..]) {
        return exit_churn_answer(Err(refusal), churn);
    }
    let n = registry_numbers(rules, state_slot, 0, &registry[..]);
    let at = index as usize;
    let a = 10 * at;
    let b = a + 10;
    let after = exit_by_balance(&mut registry[a..b], churn, n.least, n.limit, n.delay);
    exit_churn_answer(after, churn)
}
