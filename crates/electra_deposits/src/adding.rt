// Those whom the deposits add, behind the validators that stand in front: specs/Room.antt. Nothing here is refused once the loop was not.
ghost use Rattle.std.specs.Prelude.{◌≡◌, true, ◌+◌, ◌*◌, ◌/◌, ◌≤◌, ◌<◌, length, set, replicate, take};
ghost use Rattle.definitions.specs.Record.{encode_one, encode, decode};
ghost use Rattle.definitions_electra.specs.Record.{decode_deposits};
ghost use Rattle.electra_deposits.specs.Room.{keyed, place_by, new_validator, effective_by, new_by, join_at, room_of, rules_by, opening, joined};
ghost use Rattle.electra_deposits.specs.Room.{Applies, Added};

use crate::deposit_at;
use arithmetic::min;
use balances::entry_increase_balance;
use definitions::{FAR_FUTURE_EPOCH, Refusal};
use definitions_electra::PendingDeposit;

fn write_validator(entry: &mut [u64], effective: u64, amount: u64)
    requires { length entry.old ≡ 10 }
    ensures { entry.new ≡ encode_one (new_validator effective amount) }
{
    entry[0] = effective;
    entry[1] = 0;
    entry[2] = FAR_FUTURE_EPOCH;
    entry[3] = FAR_FUTURE_EPOCH;
    entry[4] = FAR_FUTURE_EPOCH;
    entry[5] = FAR_FUTURE_EPOCH;
    entry[6] = amount;
    entry[7] = 0;
    entry[8] = 0;
    entry[9] = 0;
}

// The increment, and the largest effective balance of a plain and of a compounding validator.
#[derive(Clone, Copy)]
pub struct NewNumbers {
    pub increment: u64,
    pub most: u64,
    pub most_compounding: u64,
}

pub fn new_effective(k: NewNumbers, d: PendingDeposit) -> u64
    requires { 0 < k.increment }
    ensures { result ≡ effective_by k d }
{
    let rounded = d.amount - d.amount % k.increment;
    if d.compounding == 1 {
        return min(rounded, k.most_compounding);
    }
    min(rounded, k.most)
}

// A validator at the end, of its `at`th new key.
fn append(
    registry: &mut [u64],
    compounding: &mut [u64],
    places: &mut [u64],
    count: usize,
    at: usize,
    effective: u64,
    d: PendingDeposit,
)
    requires { (length registry.old ≡ 10 * length compounding.old) × (count < length compounding.old) × (at < length places.old) }
    ensures registry_after { registry.new ≡ encode (set (decode registry.old) count (new_validator effective d.amount)) }
    ensures compounding_after { compounding.new ≡ set compounding.old count d.compounding }
    ensures places_after { places.new ≡ set places.old at (count + 1) }
{
    let a = 10 * count;
    let b = a + 10;
    write_validator(&mut registry[a..b], effective, d.amount);
    compounding[count] = d.compounding;
    places[at] = count as u64 + 1;
}

// apply_pending_deposit. A key of those in front is done. Answers how many validators there are then.
fn join(
    registry: &mut [u64],
    compounding: &mut [u64],
    places: &mut [u64],
    n: u64,
    count: usize,
    k: NewNumbers,
    d: PendingDeposit,
) -> Result<usize, Refusal>
    requires registry_len { (length registry.old ≡ 10 * length compounding.old) × (count < length compounding.old) × (0 < k.increment) }
    requires pubkey_bound { (d.pubkey < n + length places.old) × (place_by n places.old d.pubkey ≤ count) }
    ensures { Applies (join_at (new_by k) n (room_of registry.old compounding.old places.old count) d)
        registry.new compounding.new places.new result }
{
    if d.pubkey < n {
        return Ok(count);
    }
    let at = (d.pubkey - n) as usize;
    let place = places[at];
    if place != 0 {
        let i = (place - 1) as usize;
        let a = 10 * i;
        let b = a + 10;
        entry_increase_balance(&mut registry[a..b], d.amount)?;
        return Ok(count);
    }
    if d.valid != 1 {
        return Ok(count);
    }
    let effective = new_effective(k, d);
    append(registry, compounding, places, count, at, effective, d);
    Ok(count + 1)
}

// Of the first `index` deposits those with keys from `n` on. The buffers hold the `n` at their front, `places` zeros. Answers how many there are then.
pub fn add_deposits(
    registry: &mut [u64],
    compounding: &mut [u64],
    places: &mut [u64],
    deposits: &[u64],
    n: u64,
    index: usize,
    k: NewNumbers,
) -> usize
    requires registry_len { (length registry.old ≡ 10 * length compounding.old) × (length compounding.old ≡ n + length deposits.now / 5) × (0 < k.increment) }
    requires places_value { (places.old ≡ replicate (length deposits.now / 5) 0) × (keyed n deposits.now ≡ true) × (index ≤ length deposits.now / 5) }
    ensures added { Added (joined (rules_by k 0) n (opening n registry.old compounding.old) (take index (decode_deposits deposits.now)))
        registry.old compounding.old registry.new compounding.new result }
    ensures lower_bound { (n ≤ result) × (result ≤ n + length deposits.now / 5) }
{
    let mut count = n as usize;
    for i in 0..index {
        let d = deposit_at(deposits, i);
        let Ok(joined) = join(registry, compounding, places, n, count, k, d) else {
            return count;
        };
        count = joined;
    }
    count
}
