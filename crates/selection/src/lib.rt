// The smallest of the epochs seen, in a slice of fixed length, and the cut of the activation queue from them.
#![tactic(auto)]

ghost use Rattle.std.specs.Prelude.{◌≡◌, ◌+◌, ◌<◌, ◌≤◌, min, length};
ghost use Rattle.definitions.specs.Record.{decode_one};
ghost use Rattle.laws.specs.Cut.{count};
ghost use Rattle.selection.specs.Keep.{under, Highest, Kept, Blank, waiting_since, CutOf};

pub mod queue_cut;

use definitions::{
    ACTIVATION_ELIGIBILITY_EPOCH, ACTIVATION_EPOCH, EFFECTIVE_BALANCE, FAR_FUTURE_EPOCH,
};
use entries::becomes_eligible;

// Activated are all that are queued since before `bound`, and the first `quota` that are queued since it.
#[derive(Clone, Copy)]
pub struct Cut {
    pub bound: u64,
    pub quota: u64,
}

// The place of the largest.
pub fn highest(kept: &[u64]) -> usize
    requires { 0 < length kept.now }
    ensures { Highest kept.now result }
{
    let mut p: usize = 0;
    for (j, &epoch) in kept.iter().enumerate() {
        if kept[p] < epoch {
            p = j;
        }
    }
    p
}

// x in the place p of the largest, if it is smaller; the new place of the largest.
pub fn keep(kept: &mut [u64], p: usize, x: u64) -> usize
    requires { Highest kept.old p }
    ensures { Kept kept.old x kept.new result }
{
    if kept[p] <= x {
        return p;
    }
    kept[p] = x;
    highest(&kept[..])
}

pub fn count_under(kept: &[u64], bound: u64) -> u64
    ensures { result ≡ count (under bound) kept.now }
{
    let mut count: u64 = 0;
    for &epoch in kept {
        if epoch < bound {
            count += 1;
        }
    }
    count
}

// The epoch since which one waits for activation once this close has written the eligibility epochs, and FAR of one that does not wait.
pub fn waiting_since(max_effective_balance: u64, epoch: u64, entry: &[u64]) -> u64
    requires { (length entry.now ≡ 10) × (epoch < 18446744073709551615) }
    ensures { result ≡ waiting_since max_effective_balance epoch (decode_one entry.now) }
{
    if entry[ACTIVATION_EPOCH] != FAR_FUTURE_EPOCH {
        return FAR_FUTURE_EPOCH;
    }
    if becomes_eligible(
        max_effective_balance,
        entry[EFFECTIVE_BALANCE],
        entry[ACTIVATION_ELIGIBILITY_EPOCH],
    ) {
        return epoch + 1;
    }
    entry[ACTIVATION_ELIGIBILITY_EPOCH]
}

fn at_most_next(epoch: u64, finalized_epoch: u64) -> u64
    requires { finalized_epoch < 18446744073709551615 }
    ensures { result ≡ min epoch (finalized_epoch + 1) }
{
    epoch.min(finalized_epoch + 1)
}

// The limit is the length of `first`.
fn pick(kept: &[u64], finalized_epoch: u64, first: &mut [u64]) -> Cut
    requires { (finalized_epoch < 18446744073709551615) × Blank first.old }
    ensures { CutOf (length first.old) finalized_epoch kept.now result.bound result.quota }
{
    let mut p: usize = 0;
    for &epoch in kept {
        p = keep(first, p, epoch);
    }
    let bound = at_most_next(first[p], finalized_epoch);
    let before = count_under(&first[..], bound);
    let all = first.len() as u64;
    Cut {
        bound: bound,
        quota: all - before,
    }
}

// The cut from the smallest epochs kept, for a limit of at most as many.
pub fn cut_few(kept: &[u64], finalized_epoch: u64, limit: usize) -> Cut
    requires { (finalized_epoch < 18446744073709551615) × (0 < limit) × (limit ≤ 64) }
    ensures { CutOf limit finalized_epoch kept.now result.bound result.quota }
{
    let mut first = [FAR_FUTURE_EPOCH; 64];
    pick(kept, finalized_epoch, &mut first[0..limit])
}
