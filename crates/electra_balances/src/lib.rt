// Electra's process_effective_balance_updates: Altair's turn, by each validator's own maximum.
#![tactic(auto)]

ghost use Rattle.std.specs.Prelude.{◌≡◌, true, ◌*◌, ◌/◌, ◌<◌, length};
ghost use Rattle.definitions.specs.Record.{decode};
ghost use Rattle.definitions.specs.Checked.{code_of, value};
ghost use Rattle.definitions.specs.Refusals.{good_settings};
ghost use Rattle.definitions.specs.Closes.{Closes};
ghost use Rattle.laws.specs.Ran.{Settles, Ran};
ghost use Rattle.balances.specs.Thresholds.{thresholds_of};
ghost use Rattle.definitions_electra.specs.Evaluated.Electra.EpochProcessing.{update_effective_balance, update_effective_balances};
ghost use Rattle.definitions_electra.specs.Refusals.{effective_balance_tests};
ghost use Rattle.definitions_electra.specs.Calls.{effective_balances_work, registry_in};
ghost use Rattle.electra_balances.specs.Own.{within, own_settings};

use balances::effective_balances::{entry_update, hysteresis};
use definitions::{Refusal, Settings};
use definitions_electra::ElectraRules;
use electra_refusals::step_tests::effective_balance_tests;
use refusals::buffers::{copy, put_back};

// The settings with another maximum.
fn within(s: Settings, most: u64) -> Settings
    ensures { result ≡ within most s }
{
    Settings {
        slots_per_epoch: s.slots_per_epoch,
        slots_per_historical_root: s.slots_per_historical_root,
        epochs_per_slashings_vector: s.epochs_per_slashings_vector,
        effective_balance_increment: s.effective_balance_increment,
        max_effective_balance: most,
        hysteresis_quotient: s.hysteresis_quotient,
        hysteresis_downward_multiplier: s.hysteresis_downward_multiplier,
        hysteresis_upward_multiplier: s.hysteresis_upward_multiplier,
        base_reward_factor: s.base_reward_factor,
        min_epochs_to_inactivity_penalty: s.min_epochs_to_inactivity_penalty,
        inactivity_score_bias: s.inactivity_score_bias,
        inactivity_score_recovery_rate: s.inactivity_score_recovery_rate,
        inactivity_penalty_quotient_altair: s.inactivity_penalty_quotient_altair,
        proportional_slashing_multiplier_altair: s.proportional_slashing_multiplier_altair,
        max_seed_lookahead: s.max_seed_lookahead,
        min_validator_withdrawability_delay: s.min_validator_withdrawability_delay,
        ejection_balance: s.ejection_balance,
        min_per_epoch_churn_limit: s.min_per_epoch_churn_limit,
        churn_limit_quotient: s.churn_limit_quotient,
    }
}

fn own_settings(rules: ElectraRules, compounding: u64) -> Settings
    ensures { result ≡ own_settings rules compounding }
{
    if compounding == 1 {
        return within(rules.settings, rules.electra.max_effective_balance_electra);
    }
    within(rules.settings, rules.electra.min_activation_balance)
}

// `downward` and `upward` are the thresholds, which are the same in every turn.
fn entry_update_own(
    rules: ElectraRules,
    downward: u64,
    upward: u64,
    compounding: u64,
    entry: &mut [u64],
) -> Result<(), Refusal>
    requires len { (length entry.old ≡ 10) × (0 < rules.settings.effective_balance_increment) }
    requires settings_value { thresholds_of rules.settings ≡ value (record { downward = downward; upward = upward }) }
    ensures { Settles (update_effective_balance rules compounding) entry.old entry.new result }
{
    let own = own_settings(rules, compounding);
    entry_update(own, downward, upward, entry)
}

fn update_all(
    rules: ElectraRules,
    downward: u64,
    upward: u64,
    compounding: &[u64],
    registry: &mut [u64],
) -> Result<(), Refusal>
    requires registry_len { (length registry.old ≡ 10 * length compounding.now) × (0 < rules.settings.effective_balance_increment) }
    requires settings_value { thresholds_of rules.settings ≡ value (record { downward = downward; upward = upward }) }
    ensures { Ran (update_effective_balances rules compounding.now (decode registry.old)) registry.new result }
{
    let n = compounding.len();
    for i in 0..n {
        let a = 10 * i;
        let b = a + 10;
        entry_update_own(rules, downward, upward, compounding[i], &mut registry[a..b])?;
    }
    Ok(())
}

// The step in place. With no validators the thresholds are not evaluated.
pub fn effective_balances_core(
    rules: ElectraRules,
    compounding: &[u64],
    registry: &mut [u64],
) -> Result<(), Refusal>
    requires { (length registry.old ≡ 10 * length compounding.now) × (good_settings rules.settings ≡ true) }
    ensures { Ran (update_effective_balances rules compounding.now (decode registry.old)) registry.new result }
{
    if compounding.len() == 0 {
        return Ok(());
    }
    let thresholds = hysteresis(rules.settings)?;
    update_all(
        rules,
        thresholds.downward,
        thresholds.upward,
        compounding,
        registry,
    )
}

pub fn process_effective_balance_updates(
    rules: ElectraRules,
    compounding: &[u64],
    opening: &[u64],
    closing: &mut [u64],
) -> Result<(), Refusal>
    ensures { Closes registry_in (effective_balance_tests rules compounding.now opening.now closing.old)
        (effective_balances_work rules compounding.now opening.now)
        opening.now closing.old closing.new (code_of result) }
{
    effective_balance_tests(rules, compounding, opening, closing)?;
    copy(opening, closing);
    let done = effective_balances_core(rules, compounding, closing);
    put_back(done, opening, closing);
    done
}
