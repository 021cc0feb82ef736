// process_slashings and process_slashings_reset.
#![tactic(auto)]

ghost use Rattle.std.specs.Prelude.{◌≡◌, true, List, ℕ, ◌*◌, ◌/◌, ◌<◌, length};
ghost use Rattle.definitions.specs.Record.{decode_one, decode, encode};
ghost use Rattle.definitions.specs.Checked.{value, code_of, sum64, map_checked};
ghost use Rattle.definitions.specs.Refusals.{good_settings, slashings_reset_tests};
ghost use Rattle.definitions.specs.Rules.{settings_under, slashings_tests};
ghost use Rattle.definitions.specs.Rust.Phase0.EpochProcessing.{reset_slashings};
ghost use Rattle.definitions.specs.Rust.Altair.EpochProcessing.{slashing_penalty, slash, process_slashings};
ghost use Rattle.laws.specs.Bounds.{Passed};
ghost use Rattle.laws.specs.Ran.{Settles, Ran};
ghost use Rattle.definitions.specs.Closes.{Closes};
ghost use Rattle.slashings.specs.Adjusted.{adjusted_balance};

use arithmetic::{add64, min, mul64};
use balances::entry_decrease_balance;
use definitions::{EFFECTIVE_BALANCE, Refusal, Rules, SLASHED, Settings, WITHDRAWABLE_EPOCH};
use epochs::current_epoch;
use over_entries::each_entry;
use refusals::buffers::{copy, put_back};
use refusals::rules::{rules_refusal, settings_under};
use refusals::{
    good_registry, good_settings, in_order, is_small, registry_shaped, settings_shaped,
};
use totals::total_active;

// What was slashed, over the lent epochs.
fn slashed_balance(slashings: &[u64]) -> Result<u64, Refusal>
    ensures { result ≡ sum64 slashings.now }
{
    let mut sum: u64 = 0;
    for &amount in slashings {
        if 18446744073709551615 - sum < amount {
            return Err(Refusal::Overflow);
        }
        sum += amount;
    }
    Ok(sum)
}

// Times the multiplier, and at most the total: the balance by which penalties go.
pub fn adjusted_balance(multiplier: u64, total: u64, slashings: &[u64]) -> Result<u64, Refusal>
    ensures { result ≡ adjusted_balance multiplier total slashings.now }
{
    let slashed = slashed_balance(slashings)?;
    let product = mul64(slashed, multiplier)?;
    let adjusted = min(product, total);
    Ok(adjusted)
}

fn slashing_penalty(s: Settings, total: u64, adjusted: u64, entry: &[u64]) -> Result<u64, Refusal>
    requires { (length entry.now ≡ 10) × (0 < s.effective_balance_increment) × (0 < total) }
    ensures { result ≡ slashing_penalty s total adjusted (decode_one entry.now) }
{
    let increments = entry[EFFECTIVE_BALANCE] / s.effective_balance_increment;
    let numerator = mul64(increments, adjusted)?;
    mul64(numerator / total, s.effective_balance_increment)
}

// The epoch is compared only where the validator is slashed, and the penalty worked out only where it is due.
pub fn entry_slash(
    s: Settings,
    epoch: u64,
    total: u64,
    adjusted: u64,
    entry: &mut [u64],
) -> Result<(), Refusal>
    requires { (length entry.old ≡ 10) × (0 < s.effective_balance_increment) × (0 < total) }
    ensures { Settles (slash s epoch total adjusted) entry.old entry.new result }
{
    if entry[SLASHED] != 1 {
        return Ok(());
    }
    let due = add64(epoch, s.epochs_per_slashings_vector / 2)?;
    if due != entry[WITHDRAWABLE_EPOCH] {
        return Ok(());
    }
    let penalty = slashing_penalty(s, total, adjusted, &entry[..])?;
    entry_decrease_balance(entry, penalty);
    Ok(())
}

fn slash_all(
    s: Settings,
    epoch: u64,
    total: u64,
    adjusted: u64,
    registry: &mut [u64],
) -> Result<(), Refusal>
    requires { (length registry.old ≡ 10 * (length registry.old / 10)) × (0 < s.effective_balance_increment) × (0 < total) }
    ensures { Ran (map_checked (slash s epoch total adjusted) (decode registry.old)) registry.new result }
{
    each_entry(
        |entry| entry_slash(s, epoch, total, adjusted, entry),
        registry,
    )
}

// The step in place. Total, sum and product are evaluated also where nobody is due.
pub fn slashings_core(
    s: Settings,
    multiplier: u64,
    state_slot: u64,
    slashings: &[u64],
    registry: &mut [u64],
) -> Result<(), Refusal>
    requires { (length registry.old ≡ 10 * (length registry.old / 10)) × (good_settings s ≡ true) }
    ensures { Ran (process_slashings s multiplier state_slot slashings.now (decode registry.old)) registry.new result }
{
    let epoch = current_epoch(s, state_slot);
    let total = total_active(s, epoch, registry)?;
    let adjusted = adjusted_balance(multiplier, total, slashings)?;
    slash_all(s, epoch, total, adjusted, registry)
}

fn slashings_tests(
    rules: Rules,
    state_slot: u64,
    slashings: &[u64],
    opening: &[u64],
    closing: &[u64],
) -> Result<(), Refusal>
    ensures { result ≡ slashings_tests rules state_slot slashings.now opening.now closing.now }
{
    let s = rules.settings;
    let by_settings = in_order(
        &[
            settings_shaped(s),
            slashings.len() as u64 == s.epochs_per_slashings_vector,
            registry_shaped(opening),
            closing.len() == opening.len(),
        ],
        &[good_settings(s)],
        &[is_small(state_slot), good_registry(opening)],
    );
    rules_refusal(rules, by_settings)
}

pub fn process_slashings(
    rules: Rules,
    state_slot: u64,
    slashings: &[u64],
    opening: &[u64],
    closing: &mut [u64],
) -> Result<(), Refusal>
    ensures { Closes encode (slashings_tests rules state_slot slashings.now opening.now closing.old)
        (process_slashings (settings_under rules) (settings_under rules).proportional_slashing_multiplier_altair state_slot slashings.now
        (decode opening.now)) opening.now closing.old closing.new (code_of result) }
{
    slashings_tests(rules, state_slot, slashings, opening, closing)?;
    let s = settings_under(rules);
    copy(opening, closing);
    let multiplier = s.proportional_slashing_multiplier_altair;
    let done = slashings_core(s, multiplier, state_slot, slashings, closing);
    put_back(done, opening, closing);
    done
}

// The reset in place: the next epoch's slot.
pub fn slashings_reset_core(s: Settings, state_slot: u64, slashings: &mut [u64])
    requires { (length slashings.old ≡ s.epochs_per_slashings_vector) × (Passed s state_slot) }
    ensures { slashings.new ≡ reset_slashings s state_slot slashings.old }
{
    let next = current_epoch(s, state_slot) + 1;
    let at = next % s.epochs_per_slashings_vector;
    slashings[at as usize] = 0;
}

fn slashings_reset_tests(
    s: Settings,
    state_slot: u64,
    opening: &[u64],
    closing: &[u64],
) -> Result<(), Refusal>
    ensures { result ≡ slashings_reset_tests s state_slot opening.now closing.now }
{
    in_order(
        &[
            settings_shaped(s),
            opening.len() as u64 == s.epochs_per_slashings_vector,
            closing.len() == opening.len(),
        ],
        &[good_settings(s)],
        &[is_small(state_slot)],
    )
}

pub fn process_slashings_reset(
    s: Settings,
    state_slot: u64,
    opening: &[u64],
    closing: &mut [u64],
) -> Result<(), Refusal>
    ensures { Closes (λ (xs : List ℕ). xs) (slashings_reset_tests s state_slot opening.now closing.old)
        (value (reset_slashings s state_slot opening.now)) opening.now closing.old closing.new (code_of result) }
{
    slashings_reset_tests(s, state_slot, opening, closing)?;
    copy(opening, closing);
    slashings_reset_core(s, state_slot, closing);
    Ok(())
}
