// Electra's process_registry_updates: one loop in register order, which carries the record's two numbers of the exit queue. Passes over the
// registry: test 3, the copy, the total active balance for the limit, and the turns.
#![tactic(auto)]

ghost use Rattle.std.specs.Prelude.{◌≡◌, true, ◌*◌, ◌/◌, ◌^◌, ◌<◌, length};
ghost use Rattle.definitions.specs.Record.{decode};
ghost use Rattle.definitions.specs.Checked.{settle};
ghost use Rattle.definitions.specs.Refusals.{good_settings};
ghost use Rattle.definitions_electra.specs.Refusals.{good_electra, registry_tests};
ghost use Rattle.definitions_electra.specs.Document.Electra.Helpers.{balance_churn_limit, activation_exit_churn_limit};
ghost use Rattle.definitions_electra.specs.Evaluated.Electra.Helpers.{get_balance_churn_limit, get_activation_exit_churn_limit};
ghost use Rattle.definitions_electra.specs.Calls.{registry_work, ChurnCloses};
ghost use Rattle.electra_registry.specs.Updates.{numbers_of, exiting_in, Moves};

pub mod exits;
pub mod leaves;
pub mod updates;

use crate::exits::exit_churn_answer;
use crate::updates::{RegistryNumbers, update_all};
use arithmetic::{max, min};
use definitions::Refusal;
use definitions_electra::{ElectraRules, ExitChurn, ExitChurnAnswer};
use electra_refusals::step_tests::registry_tests;
use epochs::current_epoch;
use refusals::buffers::copy;
use totals::total_active;

// The churn limits by the total active balance.

pub fn balance_limit(r: ElectraRules, total: u64) -> u64
    requires { (0 < r.settings.churn_limit_quotient) × (0 < r.settings.effective_balance_increment) }
    ensures { result ≡ balance_churn_limit r total }
{
    let s = r.settings;
    let e = r.electra;
    let churn = max(
        e.min_per_epoch_churn_limit_electra,
        total / s.churn_limit_quotient,
    );
    let rest = churn % s.effective_balance_increment;
    churn - rest
}

pub fn churn_limit(r: ElectraRules, total: u64) -> u64
    requires { (0 < r.settings.churn_limit_quotient) × (0 < r.settings.effective_balance_increment) }
    ensures { result ≡ activation_exit_churn_limit r total }
{
    let e = r.electra;
    let limit = balance_limit(r, total);
    min(e.max_per_epoch_activation_exit_churn_limit, limit)
}

// And of a record.

pub fn balance_churn(r: ElectraRules, state_slot: u64, registry: &[u64]) -> Result<u64, Refusal>
    requires { (length registry.now ≡ 10 * (length registry.now / 10)) × (good_settings r.settings ≡ true) }
    ensures { result ≡ get_balance_churn_limit r state_slot (decode registry.now) }
{
    let s = r.settings;
    let epoch = current_epoch(s, state_slot);
    let total = total_active(s, epoch, registry)?;
    let limit = balance_limit(r, total);
    Ok(limit)
}

pub fn activation_exit_churn(
    r: ElectraRules,
    state_slot: u64,
    registry: &[u64],
) -> Result<u64, Refusal>
    requires { (length registry.now ≡ 10 * (length registry.now / 10)) × (good_settings r.settings ≡ true) }
    ensures { result ≡ get_activation_exit_churn_limit r state_slot (decode registry.now) }
{
    let s = r.settings;
    let epoch = current_epoch(s, state_slot);
    let total = total_active(s, epoch, registry)?;
    let limit = churn_limit(r, total);
    Ok(limit)
}

// As one number: 0, which no accepted rules have, says that the total active balance left 64 bits. That refuses only where somebody leaves.
pub fn limit_number(r: ElectraRules, state_slot: u64, registry: &[u64]) -> u64
    requires { (length registry.now ≡ 10 * (length registry.now / 10)) × (good_settings r.settings ≡ true) }
    ensures { result ≡ settle (get_activation_exit_churn_limit r state_slot (decode registry.now)) 0 }
{
    let Ok(limit) = activation_exit_churn(r, state_slot, registry) else {
        return 0;
    };
    limit
}

// The numbers of a record. Who is active now, and so the limit, stays through the loop.
pub fn registry_numbers(
    rules: ElectraRules,
    state_slot: u64,
    finalized_epoch: u64,
    registry: &[u64],
) -> RegistryNumbers
    requires { (length registry.now ≡ 10 * (length registry.now / 10)) × (good_electra rules ≡ true) × (state_slot < 2 ^ 48) }
    ensures { result ≡ numbers_of rules state_slot finalized_epoch (decode registry.now) }
{
    let s = rules.settings;
    let e = rules.electra;
    let epoch = current_epoch(s, state_slot);
    let least = epoch + 1 + s.max_seed_lookahead;
    RegistryNumbers {
        epoch: epoch,
        finalized_epoch: finalized_epoch,
        least: least,
        limit: limit_number(rules, state_slot, registry),
        delay: s.min_validator_withdrawability_delay,
        min_activation_balance: e.min_activation_balance,
        ejection_balance: s.ejection_balance,
    }
}

// The step in place. On refusal the registry is left half done: the caller puts the opening back.
pub fn update_registry(
    rules: ElectraRules,
    state_slot: u64,
    finalized_epoch: u64,
    churn: ExitChurn,
    registry: &mut [u64],
) -> Result<ExitChurn, Refusal>
    requires { (length registry.old ≡ 10 * (length registry.old / 10)) × (good_electra rules ≡ true) × (state_slot < 2 ^ 48) }
    ensures { Moves (exiting_in (registry_work rules state_slot finalized_epoch churn registry.old)) registry.new result }
{
    let count = registry.len() / 10;
    let n = registry_numbers(rules, state_slot, finalized_epoch, &registry[..]);
    update_all(n, churn, registry, count)
}

pub fn process_registry_updates(
    rules: ElectraRules,
    state_slot: u64,
    finalized_epoch: u64,
    churn: ExitChurn,
    opening: &[u64],
    closing: &mut [u64],
) -> ExitChurnAnswer
    ensures { ChurnCloses (registry_tests rules state_slot finalized_epoch opening.now closing.old)
        (registry_work rules state_slot finalized_epoch churn opening.now)
        churn opening.now closing.old closing.new result }
{
    if let Err(refusal) = registry_tests(
        rules,
        state_slot,
        finalized_epoch,
        opening,
        &closing[..],
    ) {
        return exit_churn_answer(Err(refusal), churn);
    }
    copy(opening, closing);
    let done = update_registry(rules, state_slot, finalized_epoch, churn, closing);
    if done.is_err() {
        copy(opening, closing);
    }
    exit_churn_answer(done, churn)
}
