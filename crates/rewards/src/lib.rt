// What one validator gains and loses: by a flag, and by inactivity. A function without the Rust's name is for steps, which have tested the record
// already. A product is refused only where the Rust evaluates it.
#![tactic(auto)]

ghost use Rattle.std.specs.Prelude.{◌≡◌, ◌≤◌, ◌<◌, length, get_or};
ghost use Rattle.definitions.specs.Record.{decode_one};
ghost use Rattle.definitions.specs.Checked.{mul64};
ghost use Rattle.definitions.specs.Refusals.{after_tests};
ghost use Rattle.definitions.specs.Rules.{settings_under, inactivity_penalty_tests};
ghost use Rattle.definitions.specs.Rust.Altair.Helpers.{PARTICIPATION_FLAG_WEIGHTS, get_base_reward, hit_deltas, miss_deltas, flag_index_deltas, inactivity_penalty_deltas, get_inactivity_penalty_deltas};
ghost use Rattle.rewards.specs.Shared.{SharedBy, Shares, totals_of};

pub mod base_rewards;

use crate::base_rewards::base_reward_per_increment;
use arithmetic::mul64;
use definitions::{Deltas, EFFECTIVE_BALANCE, INACTIVITY_SCORE, Refusal, Rules, Settings};
use entries::{entry_is_eligible, entry_is_participating};
use epochs::{current_epoch, previous_epoch};
use leaf_refusals::slot_entry_tests;
use refusals::rules::{rules_refusal, settings_under};

// The same for all validators. The base reward of an increment, and 64 times the active increments, are answers: each may have left 64 bits
// and be wanted by nobody.
#[derive(Clone, Copy)]
pub struct Shared {
    pub current_epoch: u64,
    pub previous_epoch: u64,
    pub total: u64,
    pub leaking: bool,
    pub per_increment: Result<u64, Refusal>,
    pub denominator: Result<u64, Refusal>,
}

pub fn shared_numbers(
    s: Settings,
    current_epoch: u64,
    previous_epoch: u64,
    total: u64,
    leaking: bool,
) -> Shared
    requires { (0 < s.effective_balance_increment) × (s.effective_balance_increment ≤ total) }
    ensures { Shares s current_epoch previous_epoch total leaking result }
{
    let per_increment = base_reward_per_increment(s, total);
    let denominator = mul64(total / s.effective_balance_increment, 64);
    Shared {
        current_epoch: current_epoch,
        previous_epoch: previous_epoch,
        total: total,
        leaking: leaking,
        per_increment: per_increment,
        denominator: denominator,
    }
}

// For a hit: nothing in a leak.
pub fn hit_deltas(
    s: Settings,
    h: Shared,
    weight: u64,
    increments: u64,
    base: u64,
) -> Result<Deltas, Refusal>
    requires { SharedBy s h }
    ensures { result ≡ hit_deltas s weight (totals_of h increments) base }
{
    if h.leaking {
        let none = Deltas {
            reward: 0,
            penalty: 0,
        };
        return Ok(none);
    }
    let weighted = mul64(base, weight)?;
    let numerator = mul64(weighted, increments)?;
    let product = h.denominator;
    let denominator = product?;
    let reward = numerator / denominator;
    let deltas = Deltas {
        reward: reward,
        penalty: 0,
    };
    Ok(deltas)
}

// For a miss: nothing for the head.
pub fn miss_deltas(flag_index: u64, weight: u64, base: u64) -> Result<Deltas, Refusal>
    ensures { result ≡ miss_deltas flag_index weight base }
{
    if flag_index == 2 {
        let none = Deltas {
            reward: 0,
            penalty: 0,
        };
        return Ok(none);
    }
    let weighted = mul64(base, weight)?;
    let penalty = weighted / 64;
    let deltas = Deltas {
        reward: 0,
        penalty: penalty,
    };
    Ok(deltas)
}

fn flag_weight(flag_index: u64) -> u64
    requires { flag_index ≤ 2 }
    ensures { result ≡ get_or PARTICIPATION_FLAG_WEIGHTS flag_index 0 }
{
    if flag_index == 1 {
        return 26;
    }
    14
}

// By a flag whose participants have so many increments. `base` is the base reward, wanted where the validator is eligible.
pub fn flag_deltas(
    s: Settings,
    h: Shared,
    flag_index: u64,
    increments: u64,
    base: Result<u64, Refusal>,
    entry: &[u64],
) -> Result<Deltas, Refusal>
    requires shared_by { SharedBy s h }
    requires flag_index_bound { flag_index ≤ 2 }
    requires len { length entry.now ≡ 10 }
    requires says { base ≡ get_base_reward s h.total (decode_one entry.now) }
    ensures { result ≡ flag_index_deltas s h.current_epoch h.previous_epoch flag_index (totals_of h increments) (decode_one entry.now) }
{
    if !entry_is_eligible(h.previous_epoch, entry) {
        let none = Deltas {
            reward: 0,
            penalty: 0,
        };
        return Ok(none);
    }
    let reward = base?;
    let weight = flag_weight(flag_index);
    if entry_is_participating(h.current_epoch, flag_index, h.previous_epoch, entry) {
        return hit_deltas(s, h, weight, increments, reward);
    }
    miss_deltas(flag_index, weight, reward)
}

// By inactivity. `product` is the bias times the quotient, wanted where an eligible validator missed the target.
pub fn penalty_deltas(
    s: Settings,
    quotient: u64,
    current_epoch: u64,
    previous_epoch: u64,
    product: Result<u64, Refusal>,
    entry: &[u64],
) -> Result<Deltas, Refusal>
    requires inactivity_score_bias_nonzero { 0 < s.inactivity_score_bias }
    requires quotient_nonzero { 0 < quotient }
    requires len { length entry.now ≡ 10 }
    requires says { product ≡ mul64 s.inactivity_score_bias quotient }
    ensures { result ≡ inactivity_penalty_deltas s quotient current_epoch previous_epoch (decode_one entry.now) }
{
    if !entry_is_eligible(previous_epoch, entry) {
        let none = Deltas {
            reward: 0,
            penalty: 0,
        };
        return Ok(none);
    }
    if entry_is_participating(current_epoch, 1, previous_epoch, entry) {
        let none = Deltas {
            reward: 0,
            penalty: 0,
        };
        return Ok(none);
    }
    let numerator = mul64(entry[EFFECTIVE_BALANCE], entry[INACTIVITY_SCORE])?;
    let denominator = product?;
    let penalty = numerator / denominator;
    let deltas = Deltas {
        reward: 0,
        penalty: penalty,
    };
    Ok(deltas)
}

fn penalty_tests(rules: Rules, state_slot: u64, entry: &[u64]) -> Result<(), Refusal>
    ensures { result ≡ inactivity_penalty_tests rules state_slot entry.now }
{
    let by_settings = slot_entry_tests(rules.settings, state_slot, entry);
    rules_refusal(rules, by_settings)
}

pub fn get_inactivity_penalty_deltas(
    rules: Rules,
    state_slot: u64,
    entry: &[u64],
) -> Result<Deltas, Refusal>
    ensures { result ≡ after_tests (inactivity_penalty_tests rules state_slot entry.now)
        (get_inactivity_penalty_deltas (settings_under rules) (settings_under rules).inactivity_penalty_quotient_altair state_slot
        (decode_one entry.now)) }
{
    penalty_tests(rules, state_slot, entry)?;
    let s = settings_under(rules);
    let current = current_epoch(s, state_slot);
    let previous = previous_epoch(s, state_slot);
    let product = mul64(
        s.inactivity_score_bias,
        s.inactivity_penalty_quotient_altair,
    );
    penalty_deltas(
        s,
        s.inactivity_penalty_quotient_altair,
        current,
        previous,
        product,
        entry,
    )
}
