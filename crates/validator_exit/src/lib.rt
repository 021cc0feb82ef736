// initiate_validator_exit by the exit queue's pair, which is lent with the registry (R-8): phase0/helpers.rs 1035 without its rescans. One
// pass makes test 3, counts the active and finds the pair for test 8; the pair is then moved by one exit. And the pair of a registry.
#![tactic(auto)]

ghost use Rattle.std.specs.Prelude.{◌≡◌, [], ◌∷◌, ◌*◌, ◌/◌, ◌<◌, length};
ghost use Rattle.definitions.specs.Record.{decode};
ghost use Rattle.definitions.specs.Refusals.{in_order, settings_shaped, registry_shaped, good_settings, is_small, after_tests};
ghost use Rattle.definitions.specs.LeafRefusals.{is_index};
ghost use Rattle.definitions.specs.ExitQueue.{queue_of};
ghost use Rattle.definitions.specs.Rust.Phase0.Helpers.{initiate_validator_exit};
ghost use Rattle.definitions_close.specs.QueueCalls.{exit_queue_tests, QueueCloses, found_queue};
ghost use Rattle.exit_queue.specs.Exits.{exit_at};
ghost use Rattle.validator_exit.specs.Exits.{sees, LeavesPair};

pub mod queue_tests;

use crate::queue_tests::queue_refusal;
use definitions::{EXIT_EPOCH, ExitQueue, FAR_FUTURE_EPOCH, QueueAnswer, Refusal, Settings};
use entries::entry_is_active;
use epochs::current_epoch;
use exit_queue::{exit_entry, exited, start_pair};
use refusals::{good_entry, good_settings, in_order, is_small, registry_shaped, settings_shaped};
use totals::{churn_by, count_if};

// What one pass over the registry finds: how many are active, and the exit queue's pair.
#[derive(Clone, Copy)]
pub struct Seen {
    pub active: u64,
    pub queue: ExitQueue,
}

// Refusal 3 where an entry fails test 3.
pub fn see_registry(registry: &[u64], epoch: u64) -> Result<Seen, Refusal>
    requires { length registry.now ≡ 10 * (length registry.now / 10) }
    ensures { result ≡ sees epoch registry.now }
{
    let n = registry.len() / 10;
    let mut active: u64 = 0;
    let mut queue = ExitQueue {
        last_epoch: 0,
        number: 0,
    };
    for i in 0..n {
        let a = 10 * i;
        let b = a + 10;
        if !good_entry(&registry[a..b]) {
            return Err(Refusal::BadRecord);
        }
        let on = entry_is_active(&registry[a..b], epoch);
        active = count_if(active, on);
        queue = exited(queue, registry[10 * i + EXIT_EPOCH]);
    }
    Ok(Seen {
        active: active,
        queue: queue,
    })
}

// Tests 1 and 2, and 3 of the slot.
fn shape_tests(s: Settings, state_slot: u64, index: u64, registry: &[u64]) -> Result<(), Refusal>
    ensures { result
        ≡ in_order (settings_shaped s ∷ registry_shaped registry.now ∷ is_index index registry.now ∷ []) (good_settings s ∷ [])
        (is_small state_slot ∷ []) }
{
    in_order(
        &[
            settings_shaped(s),
            registry_shaped(registry),
            index < (registry.len() / 10) as u64,
        ],
        &[good_settings(s)],
        &[is_small(state_slot)],
    )
}

// The exit of one validator in place, once the record is tested and the numbers are worked out: `least` is the activation exit epoch of the
// present epoch, `limit` the churn limit. The registry's pair goes in and comes back; on refusal the registry stays.
pub fn exit_in_place(
    registry: &mut [u64],
    n: usize,
    index: usize,
    queue: ExitQueue,
    least: u64,
    limit: u64,
    delay: u64,
) -> Result<ExitQueue, Refusal>
    requires registry_len { (length registry.old ≡ 10 * n) × (index < n) × (least < 18446744073709551615) }
    requires queue_value { queue ≡ queue_of (decode registry.old) }
    ensures { LeavesPair (exit_at least limit delay (decode registry.old) index) registry.old registry.new result }
{
    let at = 10 * index + 4;
    if registry[at] != FAR_FUTURE_EPOCH {
        return Ok(queue);
    }
    let start = start_pair(queue, least);
    let a = 10 * index;
    let b = a + 10;
    exit_entry(&mut registry[a..b], start, limit, delay)?;
    let moved = exited(queue, registry[10 * index + EXIT_EPOCH]);
    Ok(moved)
}

// The tests and the exit: the pair afterwards.
fn exit_tested(
    s: Settings,
    state_slot: u64,
    index: u64,
    queue: ExitQueue,
    registry: &mut [u64],
) -> Result<ExitQueue, Refusal>
    ensures { LeavesPair
        (after_tests (exit_queue_tests s state_slot index queue registry.old) (initiate_validator_exit s state_slot (decode registry.old) index))
        registry.old registry.new result }
{
    shape_tests(s, state_slot, index, &registry[..])?;
    let epoch = current_epoch(s, state_slot);
    let seen = see_registry(&registry[..], epoch)?;
    queue_refusal(queue, seen.queue)?;
    let n = registry.len() / 10;
    let limit = churn_by(s, seen.active);
    let least = epoch + 1 + s.max_seed_lookahead;
    let delay = s.min_validator_withdrawability_delay;
    exit_in_place(registry, n, index as usize, queue, least, limit, delay)
}

// The registry is left as lent on every refusal.
pub fn initiate_validator_exit(
    s: Settings,
    state_slot: u64,
    index: u64,
    queue: ExitQueue,
    registry: &mut [u64],
) -> QueueAnswer
    ensures { QueueCloses (exit_queue_tests s state_slot index queue registry.old)
        (initiate_validator_exit s state_slot (decode registry.old) index)
        queue registry.old registry.old registry.new result }
{
    match exit_tested(s, state_slot, index, queue, registry) {
        Ok(after) => QueueAnswer {
            refusal: 0,
            queue: after,
        },
        Err(refusal) => QueueAnswer {
            refusal: refusal.number(),
            queue,
        },
    }
}

// The pair of a registry, which is lent alone; zeros on refusal.
pub fn found_queue(registry: &[u64]) -> QueueAnswer
    ensures { result ≡ found_queue registry.now }
{
    let none = ExitQueue {
        last_epoch: 0,
        number: 0,
    };
    if !registry_shaped(registry) {
        return QueueAnswer {
            refusal: Refusal::BadShape.number(),
            queue: none,
        };
    }
    match see_registry(registry, 0) {
        Ok(seen) => QueueAnswer {
            refusal: 0,
            queue: seen.queue,
        },
        Err(refusal) => QueueAnswer {
            refusal: refusal.number(),
            queue: none,
        },
    }
}
