// Pending consolidations, in the order of the lent list: each reads and writes two validators of the registry.
#![tactic(auto)]

ghost use Rattle.std.specs.Prelude.{◌≡◌, ◌*◌, ◌/◌, ◌<◌, ◌≤◌, true, cond, not, ◌&&◌, length, get_or, drop, nat_lt, slice_index_or};
ghost use Rattle.definitions.specs.Record.{is_slashed, decode, nobody};
ghost use Rattle.laws.specs.Ran.{Ran};
ghost use Rattle.definitions_electra.specs.Refusals.{consolidations_tests};
ghost use Rattle.definitions_electra.specs.Calls.{over, consolidations_work, ConsolidationsClose};
ghost use Rattle.definitions_electra.specs.Document.Electra.EpochProcessing.{consolidated_balance};
ghost use Rattle.definitions_electra.specs.Evaluated.Electra.EpochProcessing.{consolidate};
ghost use Rattle.definitions_electra_close.specs.Amounts.{add_at};
ghost use Rattle.laws_electra.specs.Consolidations.{pair};
ghost use Rattle.electra_consolidations.specs.Consolidations.{turned, consolidations, placed, Consolidates};
ghost use Rattle.electra_consolidations.specs.Moves.{booked_move, MovesBooked};

use arithmetic::min;
use balances::{entry_decrease_balance, entry_increase_balance};
use definitions::{BALANCE, EFFECTIVE_BALANCE, Refusal, SLASHED, WITHDRAWABLE_EPOCH};
use definitions_electra::{ConsolidationsAnswer, ElectraRules};
use electra_refusals::step_tests::consolidations_tests;
use epochs::current_epoch;
use refusals::buffers::copy;
use std::num::wrapping_add_u64;

// Places in a row of twelve amounts.
pub const CONSOLIDATED_OUT: usize = 10;

pub const CONSOLIDATED_IN: usize = 11;

fn consolidated_balance(registry: &[u64], n: usize, source: usize) -> u64
    requires { (length registry.now ≡ 10 * n) × (source < n) }
    ensures { result ≡ consolidated_balance (slice_index_or (decode registry.now) source nobody) }
{
    min(
        registry[10 * source + BALANCE],
        registry[10 * source + EFFECTIVE_BALANCE],
    )
}

// Taken from the source, then given to the target.
fn consolidate(registry: &mut [u64], n: usize, source: usize, target: usize) -> Result<(), Refusal>
    requires { (length registry.old ≡ 10 * n) × (source < n) × (target < n) }
    ensures { Ran (consolidate (decode registry.old) (pair source target)) registry.new result }
{
    let a = 10 * source;
    let b = a + 10;
    let moved = consolidated_balance(&registry[..], n, source);
    entry_decrease_balance(&mut registry[a..b], moved);
    let c = 10 * target;
    let d = c + 10;
    entry_increase_balance(&mut registry[c..d], moved)
}

// A slashed source is passed over.
fn consolidation_turn(
    registry: &mut [u64],
    n: usize,
    source: usize,
    target: usize,
) -> Result<(), Refusal>
    requires { (length registry.old ≡ 10 * n) × (source < n) × (target < n) }
    ensures { Ran (turned (decode registry.old) (pair source target)) registry.new result }
{
    if registry[10 * source + SLASHED] == 1 {
        return Ok(());
    }
    consolidate(registry, n, source, target)
}

// What a turn moves: nothing where the source is slashed.
fn moved_from(registry: &[u64], n: usize, source: usize) -> u64
    requires { (length registry.now ≡ 10 * n) × (source < n) }
    ensures { result
        ≡ cond (is_slashed (slice_index_or (decode registry.now) source nobody)) 0
        (consolidated_balance (slice_index_or (decode registry.now) source nobody)) }
{
    if registry[10 * source + SLASHED] == 1 {
        return 0;
    }
    consolidated_balance(registry, n, source)
}

// By the last 64 bits.
fn add_at(xs: &mut [u64], index: usize, x: u64)
    requires { index < length xs.old }
    ensures { xs.new ≡ add_at xs.old index x }
{
    xs[index] = wrapping_add_u64(xs[index], x);
}

// Out at the source and in at the target. A list that has no room for n rows of twelve is left: the step by itself lends an
// empty one.
fn book_move(amounts: &mut [u64], n: usize, source: usize, target: usize, moved: u64)
    requires { (source < n) × (target < n) × (10 * n < 1152921504606846976) }
    ensures { amounts.new ≡ booked_move n source target moved amounts.old }
{
    if amounts.len() < 12 * n {
        return;
    }
    add_at(amounts, 12 * source + CONSOLIDATED_OUT, moved);
    add_at(amounts, 12 * target + CONSOLIDATED_IN, moved);
}

// The queue is left at a source that is not slashed and not yet withdrawable.
fn stops_at(registry: &[u64], n: usize, source: usize, next_epoch: u64) -> bool
    requires { (length registry.now ≡ 10 * n) × (source < n) }
    ensures { result
        ≡ (not (is_slashed (slice_index_or (decode registry.now) source nobody))
        && nat_lt next_epoch (get_or (decode registry.now) source nobody).withdrawable_epoch) }
{
    if registry[10 * source + SLASHED] == 1 {
        return false;
    }
    next_epoch < registry[10 * source + WITHDRAWABLE_EPOCH]
}

// How many of the queue are done. On refusal the registry and the amounts are left half done: the caller puts the opening back.
pub fn consolidate_all(
    registry: &mut [u64],
    n: usize,
    pairs: &[u64],
    next_epoch: u64,
    amounts: &mut [u64],
) -> Result<usize, Refusal>
    requires registry_len { (length registry.old ≡ 10 * n) × (length pairs.now ≡ 2 * (length pairs.now / 2)) }
    requires pairs_value { placed n pairs.now ≡ true }
    ensures consolidates { Consolidates (consolidations next_epoch (decode registry.old) pairs.now) (length pairs.now / 2)
        registry.new result }
    ensures moves_booked { MovesBooked next_epoch n registry.old registry.new pairs.now amounts.old amounts.new result }
{
    let m = pairs.len() / 2;
    for i in 0..m {
        let source = pairs[2 * i] as usize;
        let target = pairs[2 * i + 1] as usize;
        if stops_at(&registry[..], n, source, next_epoch) {
            return Ok(i);
        }
        let moved = moved_from(&registry[..], n, source);
        book_move(amounts, n, source, target, moved);
        consolidation_turn(registry, n, source, target)?;
    }
    Ok(m)
}

// The rest of the queue at the front of the closing one.
pub fn keep_rest(queue: &[u64], from: usize, closing: &mut [u64])
    requires { (length closing.old ≡ length queue.now) × (from ≤ length queue.now) }
    ensures { closing.new ≡ over (drop from queue.now) closing.old }
{
    let long = queue.len();
    let left = long - from;
    copy(&queue[from..long], &mut closing[0..left]);
}

pub fn process_pending_consolidations(
    rules: ElectraRules,
    state_slot: u64,
    registry: &[u64],
    consolidations: &[u64],
    closing_registry: &mut [u64],
    closing_consolidations: &mut [u64],
) -> ConsolidationsAnswer
    ensures { ConsolidationsClose
        (consolidations_tests rules state_slot registry.now consolidations.now closing_registry.old
        closing_consolidations.old)
        (consolidations_work rules state_slot registry.now consolidations.now)
        registry.now consolidations.now closing_registry.old closing_registry.new
        closing_consolidations.old closing_consolidations.new result }
{
    let many = consolidations.len() / 2;
    if let Err(refusal) = consolidations_tests(
        rules,
        state_slot,
        registry,
        consolidations,
        closing_registry,
        closing_consolidations,
    ) {
        return ConsolidationsAnswer {
            refusal: refusal.number(),
            consolidations: many as u64,
        };
    }
    copy(registry, closing_registry);
    let n = registry.len() / 10;
    let next_epoch = current_epoch(rules.settings, state_slot) + 1;
    let mut unbooked = [0u64; 1];
    let done = consolidate_all(
        closing_registry,
        n,
        consolidations,
        next_epoch,
        &mut unbooked[0..0],
    );
    match done {
        Ok(count) => {
            keep_rest(consolidations, 2 * count, closing_consolidations);
            ConsolidationsAnswer {
                refusal: 0,
                consolidations: (many - count) as u64,
            }
        }
        Err(refusal) => {
            copy(registry, closing_registry);
            keep_rest(consolidations, 0, closing_consolidations);
            ConsolidationsAnswer {
                refusal: refusal.number(),
                consolidations: many as u64,
            }
        }
    }
}
