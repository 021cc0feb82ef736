// The end of a close under Electra: both closing queues, and the two last steps.
#![tactic(auto)]

ghost use Rattle.std.specs.Prelude.{◌≡◌, ◌*◌, ◌/◌, ◌≤◌, length};
ghost use Rattle.definitions.specs.Record.{decode, encode};
ghost use Rattle.definitions.specs.Rust.Phase0.EpochProcessing.{reset_slashings};
ghost use Rattle.definitions.specs.Rust.Altair.EpochProcessing.{process_participation_flag_updates};
ghost use Rattle.laws.specs.Bounds.{Passed};
ghost use Rattle.electra_queues.specs.Queues.{WritesQueues};

use definitions::Settings;
use electra_consolidations::keep_rest;
use electra_deposits::closing::write_queue;
use participation::participation_flags::participation_flags_core;
use refusals::buffers::copy;
use slashings::slashings_reset_core;

// How many of each are left.
#[derive(Clone, Copy)]
pub struct Queues {
    pub deposits: u64,
    pub consolidations: u64,
}

// `index` deposits and `done` consolidations are done. The registry is the one that effective balances leave: who is postponed is the same by it as
// by the one that pending deposits opened with, since none of the three steps writes an exit or a withdrawable epoch of its validators.
pub fn write_queues(
    next_epoch: u64,
    registry: &[u64],
    deposits: &[u64],
    consolidations: &[u64],
    index: usize,
    done: usize,
    closing_deposits: &mut [u64],
    closing_consolidations: &mut [u64],
) -> Queues
    requires registry_len { (length registry.now ≡ 10 * (length registry.now / 10)) × (length deposits.now ≡ 5 * (length deposits.now / 5)) }
    requires index_in_bounds { (index ≤ length deposits.now / 5) × (length closing_deposits.old ≡ length deposits.now) }
    requires consolidations_len { (length consolidations.now ≡ 2 * (length consolidations.now / 2)) × (done ≤ length consolidations.now / 2) }
    requires closing_consolidations_len { length closing_consolidations.old ≡ length consolidations.now }
    ensures { WritesQueues next_epoch registry.now deposits.now consolidations.now index done
        closing_deposits.old closing_deposits.new closing_consolidations.old closing_consolidations.new result }
{
    let left = write_queue(registry, next_epoch, deposits, index, closing_deposits);
    keep_rest(consolidations, 2 * done, closing_consolidations);
    let kept = consolidations.len() / 2 - done;
    Queues {
        deposits: left as u64,
        consolidations: kept as u64,
    }
}

// The reset of the slashings on a copy, and the flags in place.
pub fn last_two(
    s: Settings,
    state_slot: u64,
    slashings: &[u64],
    closing_slashings: &mut [u64],
    registry: &mut [u64],
)
    requires slashings_len { (length slashings.now ≡ s.epochs_per_slashings_vector) × (Passed s state_slot) }
    requires closing_slashings_len { length closing_slashings.old ≡ length slashings.now }
    requires registry_len { length registry.old ≡ 10 * (length registry.old / 10) }
    ensures closing_slashings_after { closing_slashings.new ≡ reset_slashings s state_slot slashings.now }
    ensures registry_after { registry.new ≡ encode (process_participation_flag_updates (decode registry.old)) }
{
    copy(slashings, closing_slashings);
    slashings_reset_core(s, state_slot, closing_slashings);
    participation_flags_core(registry);
}
