// The cut of the activation queue, from the epochs that the survey kept. No pass over the registry is needed for limits up to 64, nor above
// where fewer than 64 are queued. Otherwise one that counts the queue and, where it is longer than the limit, one for each halving of the
// epochs from the 64th of the queue to the finalized one: at most 48 where epochs are below 2^48, and 64 for any.
ghost use Rattle.std.specs.Prelude.{◌≡◌, ◌*◌, ◌/◌, ◌<◌, length};
ghost use Rattle.definitions.specs.Record.{decode};
ghost use Rattle.laws.specs.Cut.{count, CutAt, eligible_now};
ghost use Rattle.selection.specs.Keep.{under, waiting_since, Smallest};
ghost use Rattle.selection.specs.Bracket.{Bracket};

use crate::{Cut, count_under, cut_few, highest, waiting_since};
use definitions::Settings;
use over_entries::count_entries;

// How many wait since before `bound`, as they stand after this close's eligibility writes.
fn count_waiting(
    max_effective_balance: u64,
    epoch: u64,
    registry: &[u64],
    n: usize,
    bound: u64,
) -> u64
    requires { (length registry.now ≡ 10 * n) × (epoch < 18446744073709551615) }
    ensures { result ≡ count (λ v. under bound (waiting_since max_effective_balance epoch v)) (decode registry.now) }
{
    count_entries(
        |entry| waiting_since(max_effective_balance, epoch, entry) < bound,
        registry,
    )
}

// The bound by halving: as many as the limit wait since before it, or fewer, and with those of its own epoch as many or more.
fn bisect(
    s: Settings,
    epoch: u64,
    registry: &[u64],
    n: usize,
    finalized_epoch: u64,
    limit: u64,
    first: u64,
    number: u64,
) -> Cut
    requires registry_len { (length registry.now ≡ 10 * n) × (epoch < 18446744073709551615) }
    requires finalized_epoch_bound { (finalized_epoch < 18446744073709551615)
        × Bracket limit finalized_epoch (eligible_now s epoch (decode registry.now)) first finalized_epoch number }
    ensures { CutAt limit finalized_epoch (eligible_now s epoch (decode registry.now)) result.bound result.quota }
{
    let mut low = first;
    let mut high = finalized_epoch;
    let mut before = number;
    while low < high {
        let middle = high - (high - low) / 2;
        let c = count_waiting(s.max_effective_balance, epoch, registry, n, middle);
        if c == limit {
            return Cut {
                bound: middle,
                quota: 0,
            };
        }
        if c < limit {
            low = middle;
            before = c;
        } else {
            high = middle - 1;
        }
    }
    let quota = limit - before;
    Cut {
        bound: low,
        quota: quota,
    }
}

fn cut_many(
    s: Settings,
    epoch: u64,
    registry: &[u64],
    kept: &[u64],
    finalized_epoch: u64,
    limit: u64,
) -> Cut
    requires registry_len { length registry.now ≡ 10 * (length registry.now / 10) }
    requires epoch_bound { (epoch < 18446744073709551615) × (finalized_epoch < 18446744073709551615) × (64 < limit) }
    requires smallest { Smallest 64 (eligible_now s epoch (decode registry.now)) kept.now }
    ensures { CutAt limit finalized_epoch (eligible_now s epoch (decode registry.now)) result.bound result.quota }
{
    let n = registry.len() / 10;
    let next = finalized_epoch + 1;
    let p = highest(kept);
    let first = kept[p];
    if finalized_epoch < first {
        let few = count_under(kept, next);
        return Cut {
            bound: next,
            quota: limit - few,
        };
    }
    let queued = count_waiting(s.max_effective_balance, epoch, registry, n, next);
    if queued <= limit {
        return Cut {
            bound: next,
            quota: limit - queued,
        };
    }
    let number = count_under(kept, first);
    bisect(s, epoch, registry, n, finalized_epoch, limit, first, number)
}

// The registry is the opening one; those that become eligible in this close are counted as they will stand. With limit 0 nobody is let in.
pub fn cut_queue(
    s: Settings,
    epoch: u64,
    registry: &[u64],
    kept: &[u64],
    finalized_epoch: u64,
    limit: u64,
) -> Cut
    requires registry_len { length registry.now ≡ 10 * (length registry.now / 10) }
    requires epoch_bound { (epoch < 18446744073709551615) × (finalized_epoch < 18446744073709551615) }
    requires smallest { Smallest 64 (eligible_now s epoch (decode registry.now)) kept.now }
    ensures { CutAt limit finalized_epoch (eligible_now s epoch (decode registry.now)) result.bound result.quota }
{
    if limit == 0 {
        return Cut { bound: 0, quota: 0 };
    }
    if limit <= 64 {
        return cut_few(kept, finalized_epoch, limit as usize);
    }
    cut_many(s, epoch, registry, kept, finalized_epoch, limit)
}
