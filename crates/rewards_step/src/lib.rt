// process_rewards_and_penalties: what all validators share once, then each validator's own.
#![tactic(auto)]

ghost use Rattle.std.specs.Prelude.{◌≡◌, true, ◌*◌, ◌/◌, ◌≤◌, ◌<◌, length};
ghost use Rattle.definitions.specs.Record.{decode, encode};
ghost use Rattle.definitions.specs.Checked.{code_of, mul64, map_checked};
ghost use Rattle.definitions.specs.Refusals.{good_settings};
ghost use Rattle.definitions.specs.Rules.{settings_under, rewards_tests};
ghost use Rattle.definitions.specs.Rust.Altair.EpochProcessing.{reward_and_penalize, process_rewards_and_penalties};
ghost use Rattle.laws.specs.Ran.{Ran};
ghost use Rattle.definitions.specs.Closes.{Closes};
ghost use Rattle.rewards.specs.Shared.{SharedBy, totals_of};
ghost use Rattle.rewards_step.specs.Totals.{source_totals, target_totals, head_totals};
ghost use Rattle.rewards_step.specs.Step.{step_totals};

pub mod flag_rewards;

use arithmetic::mul64;
use definitions::{Refusal, Rules, Settings};
use epochs::{current_epoch, previous_epoch};
use finality::inactivity_leak;
use leaf_refusals::registry_refusals::registry_tests;
use over_entries::each_entry;
use rates::reward_balances::entry_reward;
use refusals::buffers::{copy, put_back};
use refusals::rules::{rules_refusal, settings_under};
use rewards::{Shared, shared_numbers};
use totals::{total_active, total_participating};

fn reward_all(
    s: Settings,
    h: Shared,
    source: u64,
    target: u64,
    head: u64,
    quotient: u64,
    product: Result<u64, Refusal>,
    registry: &mut [u64],
) -> Result<(), Refusal>
    requires shared_by { SharedBy s h }
    requires inactivity_score_bias_nonzero { (0 < s.inactivity_score_bias) × (0 < quotient) }
    requires says { product ≡ mul64 s.inactivity_score_bias quotient }
    requires registry_len { length registry.old ≡ 10 * (length registry.old / 10) }
    ensures { Ran (map_checked (reward_and_penalize s quotient h.current_epoch h.previous_epoch (totals_of h source) (totals_of h target) (totals_of h head))
        (decode registry.old)) registry.new result }
{
    each_entry(
        |entry| entry_reward(s, h, source, target, head, quotient, product, entry),
        registry,
    )
}

// What all validators share: the balances of the three flags' participants, the total active balance and the leak.
#[derive(Clone, Copy)]
pub struct StepTotals {
    pub source: u64,
    pub target: u64,
    pub head: u64,
    pub total: u64,
    pub leaking: bool,
}

pub fn step_totals(
    s: Settings,
    state_slot: u64,
    finalized_epoch: u64,
    current: u64,
    previous: u64,
    registry: &[u64],
) -> Result<StepTotals, Refusal>
    requires s_value { good_settings s ≡ true }
    requires registry_len { length registry.now ≡ 10 * (length registry.now / 10) }
    ensures { result ≡ step_totals s state_slot finalized_epoch current previous (decode registry.now) }
{
    let source = total_participating(s, current, 0, previous, registry)?;
    let total = total_active(s, current, registry)?;
    let leaking = inactivity_leak(s, state_slot, finalized_epoch)?;
    let target = total_participating(s, current, 1, previous, registry)?;
    let head = total_participating(s, current, 2, previous, registry)?;
    Ok(StepTotals {
        source: source,
        target: target,
        head: head,
        total: total,
        leaking: leaking,
    })
}

fn reward_registry(
    s: Settings,
    quotient: u64,
    current_epoch: u64,
    previous_epoch: u64,
    totals: StepTotals,
    registry: &mut [u64],
) -> Result<(), Refusal>
    requires effective_balance_increment_nonzero { (0 < s.effective_balance_increment) × (s.effective_balance_increment ≤ totals.total) }
    requires inactivity_score_bias_nonzero { (0 < s.inactivity_score_bias) × (0 < quotient) }
    requires registry_len { length registry.old ≡ 10 * (length registry.old / 10) }
    ensures { Ran (map_checked
        (reward_and_penalize s quotient current_epoch previous_epoch (source_totals s totals) (target_totals s totals) (head_totals s totals))
        (decode registry.old)) registry.new result }
{
    let increment = s.effective_balance_increment;
    let shared = shared_numbers(
        s,
        current_epoch,
        previous_epoch,
        totals.total,
        totals.leaking,
    );
    let product = mul64(s.inactivity_score_bias, quotient);
    reward_all(
        s,
        shared,
        totals.source / increment,
        totals.target / increment,
        totals.head / increment,
        quotient,
        product,
        registry,
    )
}

// In place, for callers that have tested the record and put the opening back on refusal.
pub fn rewards_core(
    s: Settings,
    quotient: u64,
    state_slot: u64,
    finalized_epoch: u64,
    registry: &mut [u64],
) -> Result<(), Refusal>
    requires s_value { good_settings s ≡ true }
    requires quotient_nonzero { 0 < quotient }
    requires registry_len { length registry.old ≡ 10 * (length registry.old / 10) }
    ensures { Ran (process_rewards_and_penalties s quotient state_slot finalized_epoch (decode registry.old)) registry.new result }
{
    let current = current_epoch(s, state_slot);
    if current == 0 {
        return Ok(());
    }
    let previous = previous_epoch(s, state_slot);
    let totals = step_totals(
        s,
        state_slot,
        finalized_epoch,
        current,
        previous,
        &registry[..],
    )?;
    reward_registry(s, quotient, current, previous, totals, registry)
}

fn rewards_tests(
    rules: Rules,
    state_slot: u64,
    finalized_epoch: u64,
    opening: &[u64],
    closing: &[u64],
) -> Result<(), Refusal>
    ensures { result ≡ rewards_tests rules state_slot finalized_epoch opening.now closing.now }
{
    let s = rules.settings;
    let by_settings = registry_tests(s, state_slot, finalized_epoch, opening, closing);
    rules_refusal(rules, by_settings)
}

pub fn process_rewards_and_penalties(
    rules: Rules,
    state_slot: u64,
    finalized_epoch: u64,
    opening: &[u64],
    closing: &mut [u64],
) -> Result<(), Refusal>
    ensures { Closes encode (rewards_tests rules state_slot finalized_epoch opening.now closing.old)
        (process_rewards_and_penalties (settings_under rules) (settings_under rules).inactivity_penalty_quotient_altair state_slot finalized_epoch
        (decode opening.now)) opening.now closing.old closing.new (code_of result) }
{
    rewards_tests(rules, state_slot, finalized_epoch, opening, closing)?;
    let s = settings_under(rules);
    copy(opening, closing);
    let done = rewards_core(
        s,
        s.inactivity_penalty_quotient_altair,
        state_slot,
        finalized_epoch,
        closing,
    );
    put_back(done, opening, closing);
    done
}
