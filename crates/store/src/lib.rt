// A store of settings by starting epoch (02, R-10): reading the rules of an epoch, and adding an entry.
#![tactic(auto)]

ghost use Rattle.std.specs.Prelude.{◌≡◌, ◌*◌, ◌≤◌, ltb, length};
ghost use Rattle.definitions_close.specs.Store.{entries_from, keeps, last_of, of_last, store_tests, rules_at, read_rules, rules_answer_for, numbers_of, addition_tests, added};
ghost use Rattle.definitions_close.specs.Calls.{lent, new_entry, add_outcome};
ghost use Rattle.store.specs.Answers.{Finds, turned_away};

pub mod store_entries;
pub mod store_rules;

use crate::store_entries::{
    entry_rules, good_entries, good_rules, keeps, rules_shaped, store_shaped,
};
use definitions::{Bellatrix, Refusal, Rules, Settings};
use definitions_close::{CountAnswer, RulesAnswer};
use fields::settings_from;
use refusals::{in_order, settings_numbers};

// The place of the last of the first n entries whose start is not above the epoch; n where there is none.
fn find_entry(store: &[u64], n: usize, epoch: u64) -> usize
    requires { 23 * n ≤ length store.now }
    ensures { Finds epoch (entries_from n store.now) result }
{
    let mut left = n;
    while 0 < left {
        let k = left - 1;
        let a = 23 * k;
        if store[a] <= epoch {
            return k;
        }
        left -= 1;
    }
    n
}

// Zeros beside the refusal's number.
pub fn turned_away(refusal: u64) -> RulesAnswer
    ensures { result ≡ turned_away refusal }
{
    let settings = settings_from(&[0u64; 19]);
    let bellatrix = Bellatrix {
        inactivity_penalty_quotient_bellatrix: 0,
        proportional_slashing_multiplier_bellatrix: 0,
    };
    let rules = Rules {
        settings,
        fork: 0,
        bellatrix,
    };
    RulesAnswer { refusal, rules }
}

// The rules of an epoch, once tests 1 and 2 have passed; 13 where no start is at or below it.
pub fn rules_at(store: &[u64], n: usize, epoch: u64) -> RulesAnswer
    requires { 23 * n ≤ length store.now }
    ensures { result ≡ rules_answer_for (rules_at epoch (entries_from n store.now)) }
{
    let k = find_entry(store, n, epoch);
    if n <= k {
        return turned_away(13);
    }
    let a = 23 * k;
    let b = a + 23;
    let rules = entry_rules(&store[a..b]);
    RulesAnswer { refusal: 0, rules }
}

// Tests 1 and 2, the first that failed. An entry is read only where the count is within the room.
fn store_tests(store: &[u64], count: u64) -> Result<(), Refusal>
    ensures { result ≡ store_tests (lent store.now count) }
{
    let n = count as usize;
    if store.len() / 23 < n {
        return Err(Refusal::BadShape);
    }
    in_order(
        &[store_shaped(store, count)],
        &[good_entries(store, n)],
        &[],
    )
}

pub fn read_rules(store: &[u64], count: u64, epoch: u64) -> RulesAnswer
    ensures { result ≡ rules_answer_for (read_rules (lent store.now count) epoch) }
{
    if let Err(refusal) = store_tests(store, count) {
        return turned_away(refusal.number());
    }
    rules_at(store, count as usize, epoch)
}

// The last of the first n entries, if there is one, has the same slots_per_epoch, S and L.
fn keeps_last(store: &[u64], n: usize, settings: Settings) -> bool
    requires { 23 * n ≤ length store.now }
    ensures { result ≡ of_last (λ e. keeps e.rules.settings settings) (last_of (entries_from n store.now)) }
{
    if n == 0 {
        return true;
    }
    let b = 23 * n;
    let a = b - 23;
    let last = entry_rules(&store[a..b]);
    keeps(last.settings, settings)
}

// The last of the first n entries, if there is one, starts earlier.
fn starts_after(store: &[u64], n: usize, start: u64) -> bool
    requires { 23 * n ≤ length store.now }
    ensures { result ≡ of_last (λ e. ltb e.start start) (last_of (entries_from n store.now)) }
{
    if n == 0 {
        return true;
    }
    let a = 23 * n - 23;
    store[a] < start
}

// Tests 1, 2 and 12.
fn addition_tests(store: &[u64], count: u64, start: u64, rules: Rules) -> Result<(), Refusal>
    ensures { result ≡ addition_tests (lent store.now count) (new_entry start rules) }
{
    let n = count as usize;
    if store.len() / 23 < n {
        return Err(Refusal::BadShape);
    }
    in_order(
        &[
            store_shaped(store, count),
            n < store.len() / 23,
            rules_shaped(rules),
            keeps_last(store, n, rules.settings),
        ],
        &[good_entries(store, n), good_rules(rules)],
        &[],
    )?;
    if !starts_after(store, n, start) {
        return Err(Refusal::LateStart);
    }
    Ok(())
}

// An entry's 23 numbers.
fn put_entry(entry: &mut [u64], start: u64, rules: Rules)
    requires { length entry.old ≡ 23 }
    ensures { entry.new ≡ numbers_of (new_entry start rules) }
{
    let s = rules.settings;
    let pair = rules.bellatrix;
    let numbers = settings_numbers(s);
    entry[0] = start;
    entry[1] = rules.fork;
    entry[21] = pair.inactivity_penalty_quotient_bellatrix;
    entry[22] = pair.proportional_slashing_multiplier_bellatrix;
    entry[2..21].copy_from_slice(&numbers);
}

pub fn add_rules(store: &mut [u64], count: u64, start: u64, rules: Rules) -> CountAnswer
    ensures { add_outcome result store.new ≡ added (lent store.old count) (new_entry start rules) }
{
    if let Err(refusal) = addition_tests(store, count, start, rules) {
        return CountAnswer {
            refusal: refusal.number(),
            count,
        };
    }
    let a = 23 * (count as usize);
    let b = a + 23;
    put_entry(&mut store[a..b], start, rules);
    CountAnswer {
        refusal: 0,
        count: count + 1,
    }
}
