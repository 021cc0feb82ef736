// The closing registry and the amounts (R-4) in one pass over the opening one. A validator's nine numbers are booked after its turn, from its
// opening and closing numbers and the pairs by which its turn paid it: no step before rewards writes what they read but the score, which is
// the closing one, and what slashing took is what the balance after the four pairs is above the closing one.
#![tactic(auto)]

ghost use Rattle.std.specs.Prelude.{◌≡◌, [], ◌∷◌, ◌++◌, ◌+◌, ◌-◌, ◌*◌, ◌/◌, ◌^◌, ◌≤◌, ◌<◌, length};
ghost use Rattle.definitions.specs.Record.{decode_one, decode};
ghost use Rattle.definitions.specs.Checked.{done};
ghost use Rattle.definitions_close.specs.Amounts.{booked};
ghost use Rattle.laws.specs.Ran.{Ran};
ghost use Rattle.rates.specs.Balances.{four};
ghost use Rattle.write_turn.specs.Sweep.{sweep, dropped};
ghost use Rattle.write_turn.specs.Steps.{Swept};
ghost use Rattle.write_turn.specs.Planned.{Planned};
ghost use Rattle.write_turn.specs.Written.{PairsFor, TableFor, written_with, later_with, written_by};
ghost use Rattle.write_pass.specs.Filled.{BooksPair, left, Fits, nine_by, Between, PutAt, Fills, carry_in, pair_in, PairIn};

use definitions::{BALANCE, Deltas, EFFECTIVE_BALANCE, EXIT_EPOCH, ExitQueue, Refusal, Settings};
use definitions_electra::ExitChurn;
use electra_registry::updates::RegistryNumbers;
use exit_queue::exited;
use rates::rates_in;
use rates::reward_balances::Pairs;
use write_turn::{Carry, Course, Plan, write_entry};

// What a penalty took, and what it left.
#[derive(Clone, Copy)]
struct Booking {
    taken: u64,
    left: u64,
}

// A reward, then its penalty as far as there is balance.
fn book(balance: u64, deltas: Deltas) -> Booking
    requires { balance + deltas.reward < 2 ^ 64 }
    ensures { BooksPair balance deltas result }
{
    let raised = balance + deltas.reward;
    let penalty = deltas.penalty;
    if raised < penalty {
        return Booking {
            taken: raised,
            left: 0,
        };
    }
    Booking {
        taken: penalty,
        left: raised - penalty,
    }
}

fn put_nine(
    a: u64,
    b: u64,
    c: u64,
    d: u64,
    e: u64,
    f: u64,
    g: u64,
    h: u64,
    i: u64,
    nine: &mut [u64],
)
    requires { length nine.old ≡ 9 }
    ensures { nine.new ≡ a ∷ b ∷ c ∷ d ∷ e ∷ f ∷ g ∷ h ∷ i ∷ [] }
{
    nine[0] = a;
    nine[1] = b;
    nine[2] = c;
    nine[3] = d;
    nine[4] = e;
    nine[5] = f;
    nine[6] = g;
    nine[7] = h;
    nine[8] = i;
}

// Pair by pair, and what slashing took down to the closing balance.
pub fn put_amounts(r: Pairs, balance: u64, closing_balance: u64, nine: &mut [u64])
    requires nine_len { length nine.old ≡ 9 }
    requires fits { Fits balance (four r) × (closing_balance ≤ left balance (four r)) }
    ensures { nine.new ≡ booked balance (four r) ++ ((left balance (four r) - closing_balance) ∷ []) }
{
    let a = r.source;
    let first = book(balance, a);
    let b = r.target;
    let second = book(first.left, b);
    let c = r.head;
    let third = book(second.left, c);
    let d = r.inactivity;
    let fourth = book(third.left, d);
    put_nine(
        a.reward,
        first.taken,
        b.reward,
        second.taken,
        c.reward,
        third.taken,
        d.reward,
        fourth.taken,
        fourth.left - closing_balance,
        nine,
    )
}

fn fill_entry(s: Settings, p: Plan, pairs: Pairs, from: &[u64], to: &[u64], nine: &mut [u64])
    requires planned { Planned s p }
    requires pairs_for { PairsFor s p (decode_one from.now) pairs }
    requires from_len { (length from.now ≡ 10) × (length to.now ≡ 10) × (length nine.old ≡ 9) }
    requires between { Between s p (decode_one from.now) (decode_one to.now) }
    ensures { nine.new ≡ nine_by s p (decode_one from.now) (decode_one to.now) }
{
    let h = p.shared;
    if h.current_epoch == 0 {
        put_nine(0, 0, 0, 0, 0, 0, 0, 0, from[BALANCE] - to[BALANCE], nine);
        return;
    }
    put_amounts(pairs, from[BALANCE], to[BALANCE], nine)
}

// Of the validator with the number i. A list that has no room for its nine numbers is left: a close without amounts lends an empty one.
fn book_entry(
    s: Settings,
    p: Plan,
    pairs: Pairs,
    i: usize,
    from: &[u64],
    to: &[u64],
    amounts: &mut [u64],
)
    requires planned { Planned s p }
    requires pairs_for { PairsFor s p (decode_one from.now) pairs }
    requires from_len { (length from.now ≡ 10) × (length to.now ≡ 10) × (10 * i < 1152921504606846976) }
    requires between { Between s p (decode_one from.now) (decode_one to.now) }
    ensures { PutAt i (nine_by s p (decode_one from.now) (decode_one to.now)) amounts.old amounts.new }
{
    let a = 9 * i;
    let b = a + 9;
    if amounts.len() < b {
        return;
    }
    fill_entry(s, p, pairs, from, to, &mut amounts[a..b])
}

// What was carried, and the exit queue's pair of the closing registry: every closing exit epoch joins it as it is written, so that no pass over
// the closing registry follows.
#[derive(Clone, Copy)]
struct Passed {
    carry: Carry,
    pair: ExitQueue,
}

// It stops at the first refusal, and the caller puts the opening back. `later` is as in write_entry.
fn write_by(
    later: u64,
    s: Settings,
    p: Plan,
    t: Course,
    e: RegistryNumbers,
    first: Carry,
    opening: &[u64],
    closing: &mut [u64],
    amounts: &mut [u64],
    table: &mut [u64],
) -> Result<Passed, Refusal>
    requires planned { Planned s p }
    requires table_for { TableFor s p table.old }
    requires opening_len { (length opening.now ≡ 10 * (length opening.now / 10)) × (length closing.old ≡ length opening.now) }
    requires current_epoch_bound { (p.shared.current_epoch < 2 ^ 48) × (e.epoch < 2 ^ 48) × (first.queue.number ≤ length opening.now) }
    ensures swept { Swept (sweep (written_by later s p t e) first (decode opening.now)) closing.new (carry_in result) }
    ensures fills { Fills s p opening.now closing.new amounts.old amounts.new (done result) }
    ensures pair_in { PairIn closing.new (pair_in result) }
{
    let n = opening.len() / 10;
    let mut carry = first;
    let mut pair = ExitQueue {
        last_epoch: 0,
        number: 0,
    };
    for i in 0..n {
        let a = 10 * i;
        let b = a + 10;
        let balance = opening[10 * i + EFFECTIVE_BALANCE];
        let rates = rates_in(s, p.shared, p.source, p.target, p.head, balance, table);
        let from = &opening[a..b];
        let written = write_entry(later, s, p, t, e, carry, rates, from, &mut closing[a..b])?;
        carry = written.carry;
        book_entry(s, p, written.pairs, i, from, &closing[a..b], amounts);
        pair = exited(pair, closing[10 * i + EXIT_EPOCH]);
    }
    Ok(Passed {
        carry: carry,
        pair: pair,
    })
}

// Altair's steps, from the exit queue's pair and the cut's quota: the pair of the closing registry.
pub fn write_all(
    s: Settings,
    p: Plan,
    t: Course,
    first: ExitQueue,
    quota: u64,
    opening: &[u64],
    closing: &mut [u64],
    amounts: &mut [u64],
) -> Result<ExitQueue, Refusal>
    requires planned { Planned s p }
    requires opening_len { (length opening.now ≡ 10 * (length opening.now / 10)) × (length closing.old ≡ length opening.now) }
    requires current_epoch_bound { (p.shared.current_epoch < 2 ^ 48) × (first.number ≤ length opening.now) }
    ensures ran { Ran (dropped (sweep (written_with s p t) (first, quota) (decode opening.now))) closing.new (done result) }
    ensures fills { Fills s p opening.now closing.new amounts.old amounts.new (done result) }
    ensures pair_in { PairIn closing.new result }
{
    let none = RegistryNumbers {
        epoch: 0,
        finalized_epoch: 0,
        least: 0,
        limit: 0,
        delay: 0,
        min_activation_balance: 0,
        ejection_balance: 0,
    };
    let carry = Carry {
        queue: first,
        left: quota,
        churn: ExitChurn {
            exit_balance_to_consume: 0,
            earliest_exit_epoch: 0,
        },
    };
    let mut table = [0u64; 960];
    let passed = write_by(
        0,
        s,
        p,
        t,
        none,
        carry,
        opening,
        closing,
        amounts,
        &mut table[0..960],
    )?;
    Ok(passed.pair)
}

// Electra's steps up to slashings, from its two numbers of the exit queue.
pub fn write_later(
    s: Settings,
    p: Plan,
    e: RegistryNumbers,
    churn: ExitChurn,
    opening: &[u64],
    closing: &mut [u64],
    amounts: &mut [u64],
) -> Result<ExitChurn, Refusal>
    requires planned { Planned s p }
    requires opening_len { (length opening.now ≡ 10 * (length opening.now / 10)) × (length closing.old ≡ length opening.now) }
    requires current_epoch_bound { (p.shared.current_epoch < 2 ^ 48) × (e.epoch < 2 ^ 48) }
    ensures swept { Swept (sweep (later_with s p e) churn (decode opening.now)) closing.new result }
    ensures fills { Fills s p opening.now closing.new amounts.old amounts.new (done result) }
{
    let none = Course {
        limit: 0,
        finalized_epoch: 0,
        bound: 0,
        activation_epoch: 0,
    };
    let first = Carry {
        queue: ExitQueue {
            last_epoch: 0,
            number: 0,
        },
        left: 0,
        churn: churn,
    };
    let mut table = [0u64; 960];
    let passed = write_by(
        1,
        s,
        p,
        none,
        e,
        first,
        opening,
        closing,
        amounts,
        &mut table[0..960],
    )?;
    let carry = passed.carry;
    Ok(carry.churn)
}
