// Electra's process_slashings: a penalty by increments.
#![tactic(auto)]

ghost use Rattle.std.specs.Prelude.{◌≡◌, true, ◌*◌, ◌/◌, ◌<◌, length};
ghost use Rattle.definitions.specs.Record.{decode};
ghost use Rattle.definitions.specs.Checked.{code_of, map_checked};
ghost use Rattle.definitions.specs.Refusals.{good_settings};
ghost use Rattle.definitions.specs.Closes.{Closes};
ghost use Rattle.laws.specs.Ran.{Settles, Ran};
ghost use Rattle.definitions_electra.specs.Evaluated.Electra.EpochProcessing.{slash};
ghost use Rattle.definitions_electra.specs.Refusals.{slashings_tests};
ghost use Rattle.definitions_electra.specs.Calls.{slashings_work, registry_in};
ghost use Rattle.electra_slashings.specs.Slashed.{slashed_registry};

use arithmetic::{add64, mul64};
use balances::entry_decrease_balance;
use definitions::{EFFECTIVE_BALANCE, Refusal, SLASHED, Settings, WITHDRAWABLE_EPOCH};
use definitions_electra::ElectraRules;
use electra_refusals::step_tests::slashings_tests;
use epochs::current_epoch;
use over_entries::each_entry;
use refusals::buffers::{copy, put_back};
use slashings::adjusted_balance;
use totals::total_active;

// The epoch is compared only where the validator is slashed, and the penalty worked out only where it is due.
pub fn entry_slash(
    s: Settings,
    epoch: u64,
    per_increment: u64,
    entry: &mut [u64],
) -> Result<(), Refusal>
    requires { (length entry.old ≡ 10) × (0 < s.effective_balance_increment) }
    ensures { Settles (slash s epoch per_increment) entry.old entry.new result }
{
    if entry[SLASHED] != 1 {
        return Ok(());
    }
    let due = add64(epoch, s.epochs_per_slashings_vector / 2)?;
    if due != entry[WITHDRAWABLE_EPOCH] {
        return Ok(());
    }
    let increments = entry[EFFECTIVE_BALANCE] / s.effective_balance_increment;
    let penalty = mul64(per_increment, increments)?;
    entry_decrease_balance(entry, penalty);
    Ok(())
}

fn slash_all(
    s: Settings,
    epoch: u64,
    per_increment: u64,
    registry: &mut [u64],
) -> Result<(), Refusal>
    requires { (length registry.old ≡ 10 * (length registry.old / 10)) × (0 < s.effective_balance_increment) }
    ensures { Ran (map_checked (slash s epoch per_increment) (decode registry.old)) registry.new result }
{
    each_entry(
        |entry| entry_slash(s, epoch, per_increment, entry),
        registry,
    )
}

// The step in place. Total, sum and product are evaluated also where nobody is due.
pub fn slashings_core(
    s: Settings,
    multiplier: u64,
    state_slot: u64,
    slashings: &[u64],
    registry: &mut [u64],
) -> Result<(), Refusal>
    requires { (length registry.old ≡ 10 * (length registry.old / 10)) × (good_settings s ≡ true) }
    ensures { Ran (slashed_registry s multiplier state_slot slashings.now (decode registry.old)) registry.new result }
{
    let epoch = current_epoch(s, state_slot);
    let total = total_active(s, epoch, registry)?;
    let adjusted = adjusted_balance(multiplier, total, slashings)?;
    let increments = total / s.effective_balance_increment;
    slash_all(s, epoch, adjusted / increments, registry)
}

pub fn process_slashings(
    rules: ElectraRules,
    state_slot: u64,
    slashings: &[u64],
    opening: &[u64],
    closing: &mut [u64],
) -> Result<(), Refusal>
    ensures { Closes registry_in (slashings_tests rules state_slot slashings.now opening.now closing.old)
        (slashings_work rules state_slot slashings.now opening.now)
        opening.now closing.old closing.new (code_of result) }
{
    slashings_tests(rules, state_slot, slashings, opening, closing)?;
    copy(opening, closing);
    let multiplier = rules.bellatrix.proportional_slashing_multiplier_bellatrix;
    let done = slashings_core(rules.settings, multiplier, state_slot, slashings, closing);
    put_back(done, opening, closing);
    done
}
