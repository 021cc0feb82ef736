// Pending deposits: the loop over the validators that the step opened with (specs/Alone.antt). Those whom it adds are written behind them once
// nothing can be refused any more (adding.rt): what stands behind the opening must be untouched on refusal.
#![tactic(auto)]

ghost use Rattle.std.specs.Prelude.{◌≡◌, ◌*◌, ◌/◌, ◌<◌, ◌&&◌, ◌||◌, ltb, leb, length, get_or};
ghost use Rattle.definitions.specs.Record.{decode};
ghost use Rattle.laws.specs.Ran.{Ran};
ghost use Rattle.definitions_electra.specs.Record.{decode_deposits};
ghost use Rattle.electra_deposits.specs.Alone.{none, withdrawn_at, exited_at, raised, turn_by, alone, Turns, Deposits};

pub mod adding;
pub mod closing;
pub mod step;
pub mod testing;

use arithmetic::add64;
use balances::entry_increase_balance;
use definitions::{EXIT_EPOCH, FAR_FUTURE_EPOCH, Refusal, WITHDRAWABLE_EPOCH};
use definitions_electra::PendingDeposit;

pub fn withdrawn_at(registry: &[u64], key: u64, next_epoch: u64) -> bool
    requires { length registry.now ≡ 10 * (length registry.now / 10) }
    ensures { result ≡ withdrawn_at next_epoch (decode registry.now) key }
{
    let n = registry.len() / 10;
    if n as u64 <= key {
        return false;
    }
    let i = key as usize;
    registry[10 * i + WITHDRAWABLE_EPOCH] < next_epoch
}

pub fn exited_at(registry: &[u64], key: u64) -> bool
    requires { length registry.now ≡ 10 * (length registry.now / 10) }
    ensures { result ≡ exited_at (decode registry.now) key }
{
    let n = registry.len() / 10;
    if n as u64 <= key {
        return false;
    }
    let i = key as usize;
    registry[10 * i + EXIT_EPOCH] < FAR_FUTURE_EPOCH
}

// apply_pending_deposit, where nobody is added.
fn raise(registry: &mut [u64], d: PendingDeposit) -> Result<(), Refusal>
    requires { length registry.old ≡ 10 * (length registry.old / 10) }
    ensures { Ran (raised (decode registry.old) d) registry.new result }
{
    let n = registry.len() / 10;
    if n as u64 <= d.pubkey {
        return Ok(());
    }
    let i = d.pubkey as usize;
    let a = 10 * i;
    let b = a + 10;
    entry_increase_balance(&mut registry[a..b], d.amount)
}

// After a turn: what was processed, and whether the churn limit is reached.
#[derive(Clone, Copy)]
pub struct DepositTurn {
    pub processed: u64,
    pub reached: bool,
}

// What the loop reads besides: `most` deposits are looked at; the bridge is open while eth1_deposit_index is below deposit_requests_start_index.
#[derive(Clone, Copy)]
pub struct QueueNumbers {
    pub next_epoch: u64,
    pub available: u64,
    pub finalized_slot: u64,
    pub most: u64,
    pub bridge_open: bool,
}

// One deposit that none of the three stops. `processed` is what was before.
fn deposit_turn(
    registry: &mut [u64],
    processed: u64,
    q: QueueNumbers,
    d: PendingDeposit,
) -> Result<DepositTurn, Refusal>
    requires { length registry.old ≡ 10 * (length registry.old / 10) }
    ensures { Turns (turn_by q registry.old processed d) registry.new result }
{
    if withdrawn_at(&registry[..], d.pubkey, q.next_epoch) {
        raise(registry, d)?;
        return Ok(DepositTurn {
            processed: processed,
            reached: false,
        });
    }
    if exited_at(&registry[..], d.pubkey) {
        return Ok(DepositTurn {
            processed: processed,
            reached: false,
        });
    }
    let sum = add64(processed, d.amount)?;
    if q.available < sum {
        return Ok(DepositTurn {
            processed: processed,
            reached: true,
        });
    }
    raise(registry, d)?;
    Ok(DepositTurn {
        processed: sum,
        reached: false,
    })
}

// The three tests that stop before a deposit, number i of the queue, is looked at.
fn stops_before(q: QueueNumbers, i: u64, slot: u64) -> bool
    ensures { result ≡ ((ltb 0 slot && q.bridge_open) || ltb q.finalized_slot slot || leb q.most i) }
{
    if q.finalized_slot < slot {
        return true;
    }
    if q.most <= i {
        return true;
    }
    if slot == 0 {
        return false;
    }
    q.bridge_open
}

pub fn deposit_at(deposits: &[u64], i: usize) -> PendingDeposit
    requires { i < length deposits.now / 5 }
    ensures { result ≡ get_or (decode_deposits deposits.now) i none }
{
    let a = 5 * i;
    PendingDeposit {
        pubkey: deposits[a],
        compounding: deposits[a + 1],
        amount: deposits[a + 2],
        slot: deposits[a + 3],
        valid: deposits[a + 4],
    }
}

// How many of the queue are done, what was processed, whether the limit is reached.
#[derive(Clone, Copy)]
pub struct Deposited {
    pub index: usize,
    pub processed: u64,
    pub reached: bool,
}

// The queue from its front. On refusal the registry is left half done: the caller puts the opening back.
pub fn apply_deposits(
    registry: &mut [u64],
    deposits: &[u64],
    q: QueueNumbers,
) -> Result<Deposited, Refusal>
    requires { length registry.old ≡ 10 * (length registry.old / 10) }
    ensures { Deposits (alone q registry.old deposits.now) registry.new result }
{
    let total = deposits.len() / 5;
    let mut processed: u64 = 0;
    for i in 0..total {
        let d = deposit_at(deposits, i);
        if stops_before(q, i as u64, d.slot) {
            return Ok(Deposited {
                index: i,
                processed: processed,
                reached: false,
            });
        }
        let turn = deposit_turn(registry, processed, q, d)?;
        if turn.reached {
            return Ok(Deposited {
                index: i,
                processed: turn.processed,
                reached: true,
            });
        }
        processed = turn.processed;
    }
    Ok(Deposited {
        index: total,
        processed: processed,
        reached: false,
    })
}
