// Rules: the tests that fork, pair and limit of activations add to those of the settings, and the settings that the steps go by.
ghost use Rattle.std.specs.Prelude.{◌≡◌, eqb};
ghost use Rattle.definitions.specs.Checked.{code_of};
ghost use Rattle.definitions.specs.Rules.{settings_under, good_bellatrix, altair_rules};
ghost use Rattle.definitions.specs.Lists.{every};
ghost use Rattle.definitions.specs.Close.{good_limit};
ghost use Rattle.refusals.specs.Refusal.{rules_refusal, limit_refusal};

use crate::{all_pass, is_small};
use definitions::{ActivationLimit, Bellatrix, Refusal, Rules, Settings};

fn good_bellatrix(b: Bellatrix) -> bool
    ensures { result ≡ good_bellatrix b }
{
    let quotient = b.inactivity_penalty_quotient_bellatrix;
    let multiplier = b.proportional_slashing_multiplier_bellatrix;
    all_pass(&[quotient != 0, is_small(quotient), is_small(multiplier)])
}

// Test 1 comes before what rules add under 2.
fn misshapen(tested: Result<(), Refusal>) -> bool
    ensures { result ≡ eqb (code_of tested) 1 }
{
    matches!(tested, Err(Refusal::BadShape))
}

// The answer of a call's tests once those by the settings have answered: a fork over 1 is 1, and the pair of fork 1, and of no
// other, is tested with 2.
pub fn rules_refusal(rules: Rules, by_settings: Result<(), Refusal>) -> Result<(), Refusal>
    ensures { result ≡ rules_refusal rules by_settings }
{
    let fork = rules.fork;
    if 1 < fork {
        return Err(Refusal::BadShape);
    }
    if misshapen(by_settings) {
        return by_settings;
    }
    if fork == 0 {
        return by_settings;
    }
    if !good_bellatrix(rules.bellatrix) {
        return Err(Refusal::BadSettings);
    }
    by_settings
}

fn good_limit(limit: ActivationLimit) -> bool
    ensures { result ≡ every (good_limit limit) }
{
    match limit {
        ActivationLimit::Churn => true,
        ActivationLimit::AtMost(maximum) => is_small(maximum),
    }
}

// The same once those by the rules have answered: Deneb's number is tested with 2.
pub fn limit_refusal(limit: ActivationLimit, by_rules: Result<(), Refusal>) -> Result<(), Refusal>
    ensures { result ≡ limit_refusal limit by_rules }
{
    if misshapen(by_rules) {
        return by_rules;
    }
    if !good_limit(limit) {
        return Err(Refusal::BadSettings);
    }
    by_rules
}

// Under fork 1 the pair stands in the places of the Altair two.
pub fn settings_under(rules: Rules) -> Settings
    ensures { result ≡ settings_under rules }
{
    let s = rules.settings;
    if rules.fork == 0 {
        return s;
    }
    let b = rules.bellatrix;
    Settings {
        slots_per_epoch: s.slots_per_epoch,
        slots_per_historical_root: s.slots_per_historical_root,
        epochs_per_slashings_vector: s.epochs_per_slashings_vector,
        effective_balance_increment: s.effective_balance_increment,
        max_effective_balance: s.max_effective_balance,
        hysteresis_quotient: s.hysteresis_quotient,
        hysteresis_downward_multiplier: s.hysteresis_downward_multiplier,
        hysteresis_upward_multiplier: s.hysteresis_upward_multiplier,
        base_reward_factor: s.base_reward_factor,
        min_epochs_to_inactivity_penalty: s.min_epochs_to_inactivity_penalty,
        inactivity_score_bias: s.inactivity_score_bias,
        inactivity_score_recovery_rate: s.inactivity_score_recovery_rate,
        inactivity_penalty_quotient_altair: b.inactivity_penalty_quotient_bellatrix,
        proportional_slashing_multiplier_altair: b.proportional_slashing_multiplier_bellatrix,
        max_seed_lookahead: s.max_seed_lookahead,
        min_validator_withdrawability_delay: s.min_validator_withdrawability_delay,
        ejection_balance: s.ejection_balance,
        min_per_epoch_churn_limit: s.min_per_epoch_churn_limit,
        churn_limit_quotient: s.churn_limit_quotient,
    }
}

// Altair's rules, which read no pair.
pub fn altair_rules(settings: Settings) -> Rules
    ensures { result ≡ altair_rules settings }
{
    let unread = Bellatrix {
        inactivity_penalty_quotient_bellatrix: 0,
        proportional_slashing_multiplier_bellatrix: 0,
    };
    Rules {
        settings: settings,
        fork: 0,
        bellatrix: unread,
    }
}
