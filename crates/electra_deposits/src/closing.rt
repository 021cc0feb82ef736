// The closing queue: the rest, from the first deposit that was not reached, and behind it those postponed. Who is postponed is a test of the
// deposit and of the registry that the step opened with (proofs/Postponed.antt), so that a second short loop finds them again.
ghost use Rattle.std.specs.Prelude.{◌≡◌, ◌+◌, ◌*◌, ◌/◌, ◌≤◌, length};
ghost use Rattle.definitions.specs.Record.{decode};
ghost use Rattle.definitions_electra.specs.Record.{decode_deposits, encode_deposit};
ghost use Rattle.definitions_electra.specs.Calls.{over};
ghost use Rattle.electra_deposits.specs.Alone.{is_postponed};
ghost use Rattle.electra_deposits.specs.Written.{closing_queue, Queued, Adds, Postponing};

use crate::{deposit_at, exited_at, withdrawn_at};
use definitions_electra::PendingDeposit;
use refusals::buffers::copy;

// At the front of a buffer; what stands behind stays.
pub fn copy_front(from: &[u64], to: &mut [u64])
    requires { length from.now ≤ length to.old }
    ensures { to.new ≡ over from.now to.old }
{
    let n = from.len();
    copy(from, &mut to[0..n]);
}

fn is_postponed(registry: &[u64], next_epoch: u64, d: PendingDeposit) -> bool
    requires { length registry.now ≡ 10 * (length registry.now / 10) }
    ensures { result ≡ is_postponed (length registry.now / 10) next_epoch (decode registry.now) d }
{
    if withdrawn_at(registry, d.pubkey, next_epoch) {
        return false;
    }
    exited_at(registry, d.pubkey)
}

fn write_deposit(part: &mut [u64], d: PendingDeposit)
    requires { length part.old ≡ 5 }
    ensures { part.new ≡ encode_deposit d }
{
    part[0] = d.pubkey;
    part[1] = d.compounding;
    part[2] = d.amount;
    part[3] = d.slot;
    part[4] = d.valid;
}

// One deposit more behind the first `count`, where `on`. Answers how many there are then.
fn add_if(queue: &mut [u64], count: usize, on: bool, d: PendingDeposit) -> usize
    requires { 5 * count + 5 ≤ length queue.old }
    ensures { Adds on d count queue.old queue.new result }
{
    if on {
        let a = 5 * count;
        let b = a + 5;
        write_deposit(&mut queue[a..b], d);
        return count + 1;
    }
    count
}

// At the front of `queue`, those postponed of the first `index` deposits.
fn write_postponed(
    registry: &[u64],
    next_epoch: u64,
    deposits: &[u64],
    index: usize,
    queue: &mut [u64],
) -> usize
    requires { (length registry.now ≡ 10 * (length registry.now / 10)) × (index ≤ length deposits.now / 5) × (5 * index ≤ length queue.old) }
    ensures { Postponing registry.now next_epoch deposits.now index queue.old queue.new result }
{
    let mut count: usize = 0;
    for i in 0..index {
        let d = deposit_at(deposits, i);
        let on = is_postponed(registry, next_epoch, d);
        count = add_if(queue, count, on, d);
    }
    count
}

// `index` deposits are done. Answers how many are left.
pub fn write_queue(
    registry: &[u64],
    next_epoch: u64,
    deposits: &[u64],
    index: usize,
    closing: &mut [u64],
) -> usize
    requires registry_len { (length registry.now ≡ 10 * (length registry.now / 10)) × (length deposits.now ≡ 5 * (length deposits.now / 5)) }
    requires index_in_bounds { (index ≤ length deposits.now / 5) × (length closing.old ≡ length deposits.now) }
    ensures { Queued (closing_queue (length registry.now / 10) next_epoch (decode registry.now) index
        (decode_deposits deposits.now)) closing.old closing.new result }
{
    let a = 5 * index;
    copy_front(&deposits[a..], closing);
    let rest = deposits.len() / 5 - index;
    let b = 5 * rest;
    let postponed = write_postponed(registry, next_epoch, deposits, index, &mut closing[b..]);
    rest + postponed
}
