// The steps after the first of a close by steps, each in place on the record so far.
ghost use Rattle.std.specs.Prelude.{◌≡◌, true, ◌*◌, ◌/◌, ◌^◌, ◌≤◌, ◌<◌, length};
ghost use Rattle.definitions.specs.Record.{decode};
ghost use Rattle.definitions.specs.Refusals.{good_settings};
ghost use Rattle.definitions.specs.Rust.Phase0.EpochProcessing.{process_registry_updates};
ghost use Rattle.laws.specs.Bounds.{Passed};
ghost use Rattle.laws.specs.Ran.{Ran};
ghost use Rattle.selection.specs.Keep.{Blank};
ghost use Rattle.registry_close.specs.Worked.{state_now};
ghost use Rattle.close_by_steps.specs.Later.{plain_by, LaterRan};

use crate::slashings_amounts::slashings_booked;
use crate::step_amounts::rewards_booked;
use balances::effective_balances::effective_balances_core;
use definitions::{FAR_FUTURE_EPOCH, Finality, Refusal, Settings};
use epochs::{current_epoch, previous_epoch};
use exit_queue::start_pair;
use participation::inactivity::inactivity_core;
use participation::participation_flags::participation_flags_core;
use registry_step::update_by;
use selection::queue_cut::cut_queue;
use slashings::slashings_reset_core;
use survey::survey_registry;
use totals::churn_by;

// process_registry_updates in place, from one survey of the registry. `kept` has room for what the survey keeps of the activation queue.
fn registry_core(
    s: Settings,
    state_slot: u64,
    finalized_epoch: u64,
    kept: &mut [u64],
    registry: &mut [u64],
) -> Result<(), Refusal>
    requires s_value { good_settings s ≡ true }
    requires state_slot_bound { (state_slot < 2 ^ 48) × (finalized_epoch < 2 ^ 48) }
    requires registry_len { length registry.old ≡ 10 * (length registry.old / 10) }
    requires kept_len { (length kept.old ≡ 64) × Blank kept.old }
    ensures { Ran (process_registry_updates s state_slot finalized_epoch (decode registry.old)) registry.new result }
{
    let epoch = current_epoch(s, state_slot);
    let previous = previous_epoch(s, state_slot);
    let found = survey_registry(s, epoch, previous, &registry[..], kept);
    let limit = churn_by(s, found.active);
    let cut = cut_queue(s, epoch, &registry[..], &kept[..], finalized_epoch, limit);
    let least = epoch + 1 + s.max_seed_lookahead;
    let queue = start_pair(found.queue, least);
    let n = registry.len() / 10;
    update_by(n, s, epoch, limit, queue, cut, finalized_epoch, registry)
}

fn registry_in_place(
    s: Settings,
    state_slot: u64,
    finalized_epoch: u64,
    registry: &mut [u64],
) -> Result<(), Refusal>
    requires s_value { good_settings s ≡ true }
    requires state_slot_bound { (state_slot < 2 ^ 48) × (finalized_epoch < 2 ^ 48) }
    requires registry_len { length registry.old ≡ 10 * (length registry.old / 10) }
    ensures { Ran (process_registry_updates s state_slot finalized_epoch (decode registry.old)) registry.new result }
{
    let mut kept = [FAR_FUTURE_EPOCH; 64];
    registry_core(s, state_slot, finalized_epoch, &mut kept[0..64], registry)
}

// The four over the registry that book nothing.
fn plain_step(
    done: u64,
    s: Settings,
    state_slot: u64,
    finalized_epoch: u64,
    registry: &mut [u64],
) -> Result<(), Refusal>
    requires s_value { good_settings s ≡ true }
    requires state_slot_bound { (state_slot < 2 ^ 48) × (finalized_epoch < 2 ^ 48) }
    requires registry_len { length registry.old ≡ 10 * (length registry.old / 10) }
    ensures { Ran (plain_by done s state_slot finalized_epoch (decode registry.old)) registry.new result }
{
    if done == 1 {
        return inactivity_core(s, state_slot, finalized_epoch, registry);
    }
    if done == 3 {
        return registry_in_place(s, state_slot, finalized_epoch, registry);
    }
    if done == 5 {
        return effective_balances_core(s, registry);
    }
    participation_flags_core(registry);
    Ok(())
}

// The step after `done` steps, from 1 to 7.
pub fn later_step(
    done: u64,
    s: Settings,
    finality: Finality,
    roots: &[u8],
    slashings: &mut [u64],
    registry: &mut [u64],
    amounts: &mut [u64],
) -> Result<(), Refusal>
    requires le_done { (1 ≤ done) × (done ≤ 7) × (good_settings s ≡ true) }
    requires passed { (Passed s finality.slot) × (finality.slot < 2 ^ 48) × (finality.finalized_checkpoint.epoch < 2 ^ 48) }
    requires registry_len { (length registry.old ≡ 10 * (length registry.old / 10))
        × (length amounts.old ≡ 9 * (length registry.old / 10))
        × (length slashings.old ≡ s.epochs_per_slashings_vector) }
    ensures { LaterRan done s (state_now finality registry.old slashings.old roots.now) amounts.old
        registry.new slashings.new amounts.new result }
{
    let slot = finality.slot;
    let finalized = finality.finalized_checkpoint;
    let epoch = finalized.epoch;
    if done == 2 {
        let quotient = s.inactivity_penalty_quotient_altair;
        return rewards_booked(s, quotient, slot, epoch, registry, amounts);
    }
    if done == 4 {
        let multiplier = s.proportional_slashing_multiplier_altair;
        return slashings_booked(s, multiplier, slot, slashings, registry, amounts);
    }
    if done == 6 {
        slashings_reset_core(s, slot, slashings);
        return Ok(());
    }
    plain_step(done, s, slot, epoch, registry)
}
