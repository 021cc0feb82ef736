// Tests 1, 2 and 3 of document 01, "What is returned".
#![tactic(auto)]

ghost use Rattle.std.specs.Prelude.{◌≡◌, not, ◌*◌, eqb, ltb, length};
ghost use Rattle.definitions.specs.Lists.{all, every};
ghost use Rattle.definitions.specs.Record.{decode_one};
ghost use Rattle.definitions.specs.Refusals.{in_order, is_small, is_vector_length, settings_shaped, settings_numbers, good_settings, good_finality, registry_shaped, good_validator, good_registry};

pub mod buffers;
pub mod rules;

use definitions::{
    CURRENT_EPOCH_PARTICIPATION, Finality, PREVIOUS_EPOCH_PARTICIPATION, Refusal, SLASHED, Settings,
};

pub fn all_pass(tests: &[bool]) -> bool
    ensures { result ≡ every tests.now }
{
    for &test in tests {
        if !test {
            return false;
        }
    }
    true
}

// 0, or the number of the first test that failed: those under 1, then those under 2, then 3.
pub fn in_order(shaped: &[bool], settings: &[bool], recorded: &[bool]) -> Result<(), Refusal>
    ensures { result ≡ in_order shaped.now settings.now recorded.now }
{
    if !all_pass(shaped) {
        return Err(Refusal::BadShape);
    }
    if !all_pass(settings) {
        return Err(Refusal::BadSettings);
    }
    if !all_pass(recorded) {
        return Err(Refusal::BadRecord);
    }
    Ok(())
}

// Slots, epochs and settings stay below 2^48.
pub fn is_small(n: u64) -> bool
    ensures { result ≡ is_small n }
{
    n < 281474976710656
}

fn is_vector_length(n: u64) -> bool
    ensures { result ≡ is_vector_length n }
{
    if n < 1 {
        return false;
    }
    n <= 65536
}

pub fn settings_shaped(s: Settings) -> bool
    ensures { result ≡ settings_shaped s }
{
    if !is_vector_length(s.slots_per_historical_root) {
        return false;
    }
    is_vector_length(s.epochs_per_slashings_vector)
}

// Ten numbers a validator, and at most 2^24 validators.
pub fn registry_shaped(registry: &[u64]) -> bool
    ensures { result ≡ registry_shaped registry.now }
{
    let n = registry.len();
    if n % 10 != 0 {
        return false;
    }
    n / 10 <= 16777216
}

fn none_zero(numbers: &[u64]) -> bool
    ensures { result ≡ all (λ n. not (eqb n 0)) numbers.now }
{
    for &n in numbers {
        if n == 0 {
            return false;
        }
    }
    true
}

pub fn all_below(numbers: &[u64], bound: u64) -> bool
    ensures { result ≡ all (λ n. ltb n bound) numbers.now }
{
    for &n in numbers {
        if bound <= n {
            return false;
        }
    }
    true
}

// In document 01's order.
pub fn settings_numbers(s: Settings) -> [u64; 19]
    ensures { result ≡ settings_numbers s }
{
    [
        s.slots_per_epoch,
        s.slots_per_historical_root,
        s.epochs_per_slashings_vector,
        s.effective_balance_increment,
        s.max_effective_balance,
        s.hysteresis_quotient,
        s.hysteresis_downward_multiplier,
        s.hysteresis_upward_multiplier,
        s.base_reward_factor,
        s.min_epochs_to_inactivity_penalty,
        s.inactivity_score_bias,
        s.inactivity_score_recovery_rate,
        s.inactivity_penalty_quotient_altair,
        s.proportional_slashing_multiplier_altair,
        s.max_seed_lookahead,
        s.min_validator_withdrawability_delay,
        s.ejection_balance,
        s.min_per_epoch_churn_limit,
        s.churn_limit_quotient,
    ]
}

pub fn good_settings(s: Settings) -> bool
    ensures { result ≡ good_settings s }
{
    let divisors = [
        s.slots_per_epoch,
        s.effective_balance_increment,
        s.hysteresis_quotient,
        s.inactivity_score_bias,
        s.inactivity_penalty_quotient_altair,
        s.churn_limit_quotient,
    ];
    if !none_zero(&divisors) {
        return false;
    }
    let numbers = settings_numbers(s);
    all_below(&numbers, 281474976710656)
}

pub fn good_finality(f: Finality) -> bool
    ensures { result ≡ good_finality f }
{
    let previous = f.previous_justified_checkpoint;
    let current = f.current_justified_checkpoint;
    let finalized = f.finalized_checkpoint;
    all_pass(&[
        is_small(f.slot),
        f.justification_bits <= 15,
        is_small(previous.epoch),
        is_small(current.epoch),
        is_small(finalized.epoch),
    ])
}

// One validator's ten numbers.
pub fn good_entry(entry: &[u64]) -> bool
    requires { length entry.now ≡ 10 }
    ensures { result ≡ good_validator (decode_one entry.now) }
{
    if 1 < entry[SLASHED] {
        return false;
    }
    if 255 < entry[PREVIOUS_EPOCH_PARTICIPATION] {
        return false;
    }
    entry[CURRENT_EPOCH_PARTICIPATION] <= 255
}

pub fn good_registry(registry: &[u64]) -> bool
    ensures { result ≡ good_registry registry.now }
{
    for entry in registry.as_chunks::<10>().0 {
        if !good_entry(entry) {
            return false;
        }
    }
    true
}
