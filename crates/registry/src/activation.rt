// Activation by the cut of the queue, in register order.
ghost use Rattle.std.specs.Prelude.{◌≡◌, cond, ◌-◌, ◌*◌, ◌≤◌, length};
ghost use Rattle.definitions.specs.Record.{decode_one, encode_one, decode, encode};
ghost use Rattle.laws.specs.Cut.{queued_at, admit_one, admitted};

use definitions::{ACTIVATION_ELIGIBILITY_EPOCH, ACTIVATION_EPOCH};
use entries::entry_is_eligible_for_activation;

// One validator: what is left of the quota after it.
pub fn admit_entry(
    entry: &mut [u64],
    finalized_epoch: u64,
    bound: u64,
    left: u64,
    epoch: u64,
) -> u64
    requires { length entry.old ≡ 10 }
    ensures after { entry.new ≡ encode_one (admit_one epoch finalized_epoch bound left (decode_one entry.old)) }
    ensures value { result ≡ left - cond (queued_at finalized_epoch bound (decode_one entry.old)) 1 0 }
{
    if !entry_is_eligible_for_activation(finalized_epoch, entry) {
        return left;
    }
    let since = entry[ACTIVATION_ELIGIBILITY_EPOCH];
    if bound < since {
        return left;
    }
    if since < bound {
        entry[ACTIVATION_EPOCH] = epoch;
        return left;
    }
    if left == 0 {
        return 0;
    }
    entry[ACTIVATION_EPOCH] = epoch;
    left - 1
}

pub fn admit_below(
    registry: &mut [u64],
    n: usize,
    stop: usize,
    finalized_epoch: u64,
    bound: u64,
    quota: u64,
    epoch: u64,
)
    requires { (length registry.old ≡ 10 * n) × (stop ≤ n) }
    ensures { registry.new ≡ encode (admitted epoch finalized_epoch bound quota stop (decode registry.old)) }
{
    let mut left = quota;
    for i in 0..stop {
        let a = 10 * i;
        let b = a + 10;
        left = admit_entry(&mut registry[a..b], finalized_epoch, bound, left, epoch);
    }
}
