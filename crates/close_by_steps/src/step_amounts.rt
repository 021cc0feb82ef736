// The rewards step run alone, with the amounts that it books (R-9): eight numbers of each nine as it goes, and 0 as the ninth.
ghost use Rattle.std.specs.Prelude.{◌≡◌, true, ◌*◌, ◌/◌, ◌≤◌, ◌<◌, length};
ghost use Rattle.definitions.specs.Checked.{mul64};
ghost use Rattle.definitions.specs.Refusals.{good_settings};
ghost use Rattle.definitions.specs.Rust.Altair.EpochProcessing.{reward_and_penalize};
ghost use Rattle.rewards.specs.Shared.{SharedBy, totals_of};
ghost use Rattle.rewards_step.specs.Totals.{source_totals, target_totals, head_totals};
ghost use Rattle.close_by_steps.specs.Booked.{eight_of, BooksEntry, BooksAll, RewardsBooked};

use arithmetic::mul64;
use definitions::{BALANCE, Refusal, Settings};
use epochs::{current_epoch, previous_epoch};
use rates::reward_balances::{all_applied, four_pairs};
use rewards::{Shared, shared_numbers};
use rewards_step::{StepTotals, step_totals};
use write_pass::put_amounts;

// The balance, and the nine numbers of it.
fn entry_reward_booked(
    s: Settings,
    h: Shared,
    source: u64,
    target: u64,
    head: u64,
    quotient: u64,
    product: Result<u64, Refusal>,
    entry: &mut [u64],
    nine: &mut [u64],
) -> Result<(), Refusal>
    requires shared_by { SharedBy s h }
    requires inactivity_score_bias_nonzero { (0 < s.inactivity_score_bias) × (0 < quotient) }
    requires says { product ≡ mul64 s.inactivity_score_bias quotient }
    requires len { (length entry.old ≡ 10) × (length nine.old ≡ 9) }
    ensures { BooksEntry (reward_and_penalize s quotient h.current_epoch h.previous_epoch (totals_of h source) (totals_of h target) (totals_of h head))
        (eight_of s quotient h.current_epoch h.previous_epoch (totals_of h source) (totals_of h target) (totals_of h head))
        entry.old entry.new nine.new result }
{
    let pairs = four_pairs(s, h, source, target, head, quotient, product, &entry[..])?;
    let before = entry[BALANCE];
    let balance = all_applied(before, pairs)?;
    put_amounts(pairs, before, balance, nine);
    entry[BALANCE] = balance;
    Ok(())
}

fn reward_all_booked(
    s: Settings,
    h: Shared,
    source: u64,
    target: u64,
    head: u64,
    quotient: u64,
    product: Result<u64, Refusal>,
    registry: &mut [u64],
    amounts: &mut [u64],
) -> Result<(), Refusal>
    requires shared_by { SharedBy s h }
    requires inactivity_score_bias_nonzero { (0 < s.inactivity_score_bias) × (0 < quotient) }
    requires says { product ≡ mul64 s.inactivity_score_bias quotient }
    requires registry_len { (length registry.old ≡ 10 * (length registry.old / 10)) × (length amounts.old ≡ 9 * (length registry.old / 10)) }
    ensures { BooksAll (reward_and_penalize s quotient h.current_epoch h.previous_epoch (totals_of h source) (totals_of h target) (totals_of h head))
        (eight_of s quotient h.current_epoch h.previous_epoch (totals_of h source) (totals_of h target) (totals_of h head))
        registry.old registry.new amounts.new result }
{
    let n = registry.len() / 10;
    for i in 0..n {
        let a = 10 * i;
        let b = a + 10;
        let c = 9 * i;
        let d = c + 9;
        entry_reward_booked(
            s,
            h,
            source,
            target,
            head,
            quotient,
            product,
            &mut registry[a..b],
            &mut amounts[c..d],
        )?;
    }
    Ok(())
}

fn reward_registry_booked(
    s: Settings,
    quotient: u64,
    current_epoch: u64,
    previous_epoch: u64,
    totals: StepTotals,
    registry: &mut [u64],
    amounts: &mut [u64],
) -> Result<(), Refusal>
    requires effective_balance_increment_nonzero { (0 < s.effective_balance_increment) × (s.effective_balance_increment ≤ totals.total) }
    requires inactivity_score_bias_nonzero { (0 < s.inactivity_score_bias) × (0 < quotient) }
    requires registry_len { (length registry.old ≡ 10 * (length registry.old / 10)) × (length amounts.old ≡ 9 * (length registry.old / 10)) }
    ensures { BooksAll (reward_and_penalize s quotient current_epoch previous_epoch (source_totals s totals) (target_totals s totals) (head_totals s totals))
        (eight_of s quotient current_epoch previous_epoch (source_totals s totals) (target_totals s totals) (head_totals s totals))
        registry.old registry.new amounts.new result }
{
    let increment = s.effective_balance_increment;
    let shared = shared_numbers(
        s,
        current_epoch,
        previous_epoch,
        totals.total,
        totals.leaking,
    );
    let product = mul64(s.inactivity_score_bias, quotient);
    reward_all_booked(
        s,
        shared,
        totals.source / increment,
        totals.target / increment,
        totals.head / increment,
        quotient,
        product,
        registry,
        amounts,
    )
}

// process_rewards_and_penalties in place, as rewards_core of rewards_step; at the genesis epoch nothing is due.
pub fn rewards_booked(
    s: Settings,
    quotient: u64,
    state_slot: u64,
    finalized_epoch: u64,
    registry: &mut [u64],
    amounts: &mut [u64],
) -> Result<(), Refusal>
    requires s_value { good_settings s ≡ true }
    requires quotient_nonzero { 0 < quotient }
    requires registry_len { (length registry.old ≡ 10 * (length registry.old / 10)) × (length amounts.old ≡ 9 * (length registry.old / 10)) }
    ensures { RewardsBooked s quotient state_slot finalized_epoch registry.old registry.new amounts.new result }
{
    let current = current_epoch(s, state_slot);
    if current == 0 {
        amounts.fill(0);
        return Ok(());
    }
    let previous = previous_epoch(s, state_slot);
    let totals = step_totals(
        s,
        state_slot,
        finalized_epoch,
        current,
        previous,
        &registry[..],
    )?;
    reward_registry_booked(s, quotient, current, previous, totals, registry, amounts)
}
