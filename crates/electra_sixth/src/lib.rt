// The sixth step of a close under Electra on the validators of the opening, in place, with what the deposits give each: the tenth of its row of
// twelve. On refusal registry and amounts are left half done: the caller puts the opening back.
#![tactic(auto)]

ghost use Rattle.std.specs.Prelude.{◌≡◌, true, ◌*◌, ◌/◌, ◌^◌, ◌<◌, length};
ghost use Rattle.definitions_electra.specs.Refusals.{good_electra};
ghost use Rattle.electra_sixth.specs.Named.{place_by, value_by, one_by, Naming, NoneYet};
ghost use Rattle.electra_sixth.specs.Sixth.{SixthRan};

use definitions::{BALANCE, Refusal};
use definitions_electra::{DepositNumbers, ElectraRules};
use electra_deposits::apply_deposits;
use electra_deposits::step::{left_to_consume, queue_numbers};

// The next epoch, how many deposits are done, and what is left to consume.
#[derive(Clone, Copy)]
pub struct Sixth {
    pub next_epoch: u64,
    pub index: usize,
    pub left: u64,
}

// 0 keeps the balance before the deposits in the eleventh number, 1 books what it has grown by in the tenth, 2 clears the eleventh again: so that only
// those whom the deposits name are looked at.
fn place_of(op: u64, i: usize) -> usize
    requires { 12 * i < 2 ^ 62 }
    ensures { result ≡ place_by op i }
{
    if op == 1 {
        return 12 * i + 9;
    }
    12 * i + 10
}

fn value_of(op: u64, kept: u64, balance: u64) -> u64
    ensures { result ≡ value_by op kept balance }
{
    if op == 0 {
        return balance;
    }
    if op != 1 {
        return 0;
    }
    if balance < kept {
        return 0;
    }
    balance - kept
}

fn book_one(op: u64, key: u64, registry: &[u64], amounts: &mut [u64])
    requires { (length registry.now ≡ 10 * (length registry.now / 10)) × (length amounts.old ≡ 12 * (length registry.now / 10)) }
    ensures { amounts.new ≡ one_by op key registry.now amounts.old }
{
    let n = registry.len() / 10;
    if n as u64 <= key {
        return;
    }
    let i = key as usize;
    let x = value_of(op, amounts[12 * i + 10], registry[10 * i + BALANCE]);
    let p = place_of(op, i);
    amounts[p] = x;
}

// Of those whom the deposits name: a pass over the queue, and not over the registry.
fn book_named(op: u64, deposits: &[u64], registry: &[u64], amounts: &mut [u64])
    requires { (length registry.now ≡ 10 * (length registry.now / 10)) × (length amounts.old ≡ 12 * (length registry.now / 10)) }
    ensures { Naming op deposits.now registry.now amounts.old (length deposits.now / 5) amounts.new }
{
    let total = deposits.len() / 5;
    for k in 0..total {
        let key = deposits[5 * k];
        book_one(op, key, registry, amounts);
    }
}

// Those whom the deposits add are not written here: a later step may refuse, and what stands behind the opening must then be untouched.
pub fn deposits_in_front(
    rules: ElectraRules,
    state_slot: u64,
    finalized_epoch: u64,
    numbers: DepositNumbers,
    deposits: &[u64],
    registry: &mut [u64],
    amounts: &mut [u64],
) -> Result<Sixth, Refusal>
    requires rules_value { good_electra rules ≡ true }
    requires registry_len { (length registry.old ≡ 10 * (length registry.old / 10)) × (length amounts.old ≡ 12 * (length registry.old / 10)) }
    requires none_yet { NoneYet (length registry.old / 10) amounts.old }
    ensures { SixthRan rules state_slot finalized_epoch numbers deposits.now registry.old registry.new
        amounts.old amounts.new result }
{
    let q = queue_numbers(rules, state_slot, finalized_epoch, numbers, &registry[..])?;
    book_named(0, deposits, &registry[..], amounts);
    let done = apply_deposits(registry, deposits, q)?;
    let left = left_to_consume(q.available, done.processed, done.reached)?;
    book_named(1, deposits, &registry[..], amounts);
    book_named(2, deposits, &registry[..], amounts);
    Ok(Sixth {
        next_epoch: q.next_epoch,
        index: done.index,
        left: left,
    })
}
