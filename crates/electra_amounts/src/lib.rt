// Twelve amounts a validator, column by column: a close under Electra books them as it goes.
#![tactic(auto)]

ghost use Rattle.std.specs.Prelude.{◌≡◌, ℕ, ◌-◌, ◌*◌, ◌/◌, ◌<◌, length};
ghost use Rattle.electra_amounts.specs.Columns.{spread_at, Spread, booked_by, booked_as, Booked};

use definitions::BALANCE;

fn spread_value(amounts: &[u64], p: usize) -> u64
    requires { p < length amounts.now }
    ensures { result ≡ spread_at amounts.now p }
{
    let column = p % 12;
    if column < 9 {
        return amounts[9 * (p / 12) + column];
    }
    0
}

// Rows of nine at the front become rows of twelve with three zeros, from the last place to the first.
pub fn spread(amounts: &mut [u64])
    ensures { Spread amounts.old amounts.new }
{
    let long = amounts.len();
    for k in 0..long {
        let p = long - 1 - k;
        let x = spread_value(&amounts[..], p);
        amounts[p] = x;
    }
}

// What a column is booked with.
#[derive(Clone, Copy)]
pub enum Amount {
    // the balance
    Balance,
    // what it is less than the one that was kept
    Less,
    // what it is more
    More,
}

// 0: the balance. 1: what it is less. Any other number: what it is more.
fn amount_of(op: u64) -> Amount
    ensures { (kept balance : ℕ) → booked_as result kept balance ≡ booked_by op kept balance }
{
    if op == 0 {
        return Amount::Balance;
    }
    if op == 1 {
        return Amount::Less;
    }
    Amount::More
}

fn booked(op: u64, kept: u64, balance: u64) -> u64
    ensures { result ≡ booked_by op kept balance }
{
    match amount_of(op) {
        Amount::Balance => balance,
        Amount::Less => kept.saturating_sub(balance),
        Amount::More => balance.saturating_sub(kept),
    }
}

// Of every validator, in one column.
pub fn book(op: u64, column: usize, registry: &[u64], amounts: &mut [u64])
    requires { (length registry.now ≡ 10 * (length registry.now / 10)) × (length amounts.old ≡ 12 * (length registry.now / 10)) × (column < 12) }
    ensures { Booked op column registry.now amounts.old amounts.new }
{
    let n = registry.len() / 10;
    for i in 0..n {
        let balance = registry[10 * i + BALANCE];
        let p = 12 * i + column;
        let x = booked(op, amounts[p], balance);
        amounts[p] = x;
    }
}
