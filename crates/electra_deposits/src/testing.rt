// Whether step 8 would refuse at one of those whom the deposits add, and how many they are, before anybody is written: specs/Testing.antt.
ghost use Rattle.std.specs.Prelude.{◌≡◌, true, ◌+◌, ◌/◌, ◌≤◌, ◌<◌, ◌^◌, length, replicate, take};
ghost use Rattle.definitions_electra.specs.Record.{decode_deposits};
ghost use Rattle.electra_deposits.specs.Room.{keyed};
ghost use Rattle.electra_deposits.specs.Testing.{marked, test_at, Turned, NewTests};

use crate::adding::{NewNumbers, new_effective};
use crate::deposit_at;
use definitions_electra::PendingDeposit;

// How many are added, and whether none of them is refused.
#[derive(Clone, Copy)]
pub struct NewTest {
    pub added: u64,
    pub fits: bool,
}

// One more than the balance; with no threshold no balance is refused, and a mark will do.
fn mark(downward: u64, balance: u64) -> u64
    requires { balance + downward < 2 ^ 64 }
    ensures { result ≡ marked downward balance }
{
    if downward == 0 {
        return 1;
    }
    balance + 1
}

fn test_deposit(
    places: &mut [u64],
    n: u64,
    k: NewNumbers,
    downward: u64,
    upward: u64,
    d: PendingDeposit,
) -> NewTest
    requires { (d.pubkey < n + length places.old) × (0 < k.increment) }
    ensures { Turned (test_at k n downward upward places.old d) places.new result }
{
    if d.pubkey < n {
        return NewTest {
            added: 0,
            fits: true,
        };
    }
    let at = (d.pubkey - n) as usize;
    let place = places[at];
    let most = 18446744073709551615 - downward;
    if place != 0 {
        if downward == 0 {
            return NewTest {
                added: 0,
                fits: true,
            };
        }
        if most < d.amount {
            return NewTest {
                added: 0,
                fits: false,
            };
        }
        if most - d.amount < place - 1 {
            return NewTest {
                added: 0,
                fits: false,
            };
        }
        places[at] = place + d.amount;
        return NewTest {
            added: 0,
            fits: true,
        };
    }
    if d.valid != 1 {
        return NewTest {
            added: 0,
            fits: true,
        };
    }
    if most < d.amount {
        return NewTest {
            added: 0,
            fits: false,
        };
    }
    if 18446744073709551615 - upward < new_effective(k, d) {
        return NewTest {
            added: 0,
            fits: false,
        };
    }
    places[at] = mark(downward, d.amount);
    NewTest {
        added: 1,
        fits: true,
    }
}

// Of the first `index` deposits those with keys from `n` on.
pub fn new_pass(
    deposits: &[u64],
    n: u64,
    index: usize,
    k: NewNumbers,
    downward: u64,
    upward: u64,
    places: &mut [u64],
) -> NewTest
    requires places_value { (places.old ≡ replicate (length deposits.now / 5) 0) × (keyed n deposits.now ≡ true) × (index ≤ length deposits.now / 5) }
    requires increment_nonzero { 0 < k.increment }
    ensures { NewTests k n downward upward (take index (decode_deposits deposits.now)) result }
{
    let mut added: u64 = 0;
    for i in 0..index {
        let d = deposit_at(deposits, i);
        let tested = test_deposit(places, n, k, downward, upward, d);
        if !tested.fits {
            return tested;
        }
        added = added + tested.added;
    }
    NewTest {
        added: added,
        fits: true,
    }
}
