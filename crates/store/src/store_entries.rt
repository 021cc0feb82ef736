// The entries of a store of settings by starting epoch (02, R-10), 23 numbers each: tests 1 and 2 of those in use.
ghost use Rattle.std.specs.Prelude.{◌≡◌, ◌*◌, ◌≤◌, length};
ghost use Rattle.definitions.specs.Lists.{all};
ghost use Rattle.definitions.specs.Rules.{rules_shaped, good_rules};
ghost use Rattle.definitions_close.specs.Store.{entry_of, entries_from, keeps, follows, in_sequence, store_shaped, good_entries};
ghost use Rattle.definitions_close.specs.Calls.{lent};
ghost use Rattle.store.specs.Answers.{rules_pass};

use definitions::{Bellatrix, Rules, Settings};
use fields::settings_from;
use refusals::rules::rules_refusal;
use refusals::{good_settings, settings_shaped};

// One entry's rules.
pub fn entry_rules(entry: &[u64]) -> Rules
    requires { length entry.now ≡ 23 }
    ensures { result ≡ (entry_of entry.now).rules }
{
    let settings = settings_from(&entry[2..]);
    let bellatrix = Bellatrix {
        inactivity_penalty_quotient_bellatrix: entry[21],
        proportional_slashing_multiplier_bellatrix: entry[22],
    };
    Rules {
        settings,
        fork: entry[1],
        bellatrix,
    }
}

pub fn rules_shaped(rules: Rules) -> bool
    ensures { result ≡ rules_shaped rules }
{
    settings_shaped(rules.settings) & (rules.fork <= 1)
}

// The pair is asked under any fork but Altair's, as fork 1 asks it.
pub fn good_rules(rules: Rules) -> bool
    ensures { result ≡ good_rules rules }
{
    let settings = rules.settings;
    let bellatrix = rules.bellatrix;
    let asked = Rules {
        settings,
        fork: 1,
        bellatrix,
    };
    good_settings(settings) & ((rules.fork == 0) | rules_refusal(asked, Ok(())).is_ok())
}

// What may not change from one entry to the next.
pub fn keeps(s: Settings, t: Settings) -> bool
    ensures { result ≡ keeps s t }
{
    (s.slots_per_epoch == t.slots_per_epoch)
        & (s.slots_per_historical_root == t.slots_per_historical_root)
        & (s.epochs_per_slashings_vector == t.epochs_per_slashings_vector)
}

// Two entries, one behind the other.
fn follows(entry: &[u64], next: &[u64]) -> bool
    requires { (length entry.now ≡ 23) × (length next.now ≡ 23) }
    ensures { result ≡ follows (entry_of entry.now) (entry_of next.now) }
{
    let before = entry_rules(entry);
    let after = entry_rules(next);
    (entry[0] < next[0]) & keeps(before.settings, after.settings)
}

// Test 1 or 2 of an entry's rules, by its number.
fn rules_pass(rules: Rules, test: u64) -> bool
    ensures { result ≡ rules_pass test rules }
{
    if test == 1 {
        return rules_shaped(rules);
    }
    good_rules(rules)
}

// The same of each of the first n entries.
fn entries_pass(store: &[u64], n: usize, test: u64) -> bool
    requires { 23 * n ≤ length store.now }
    ensures { result ≡ all (λ e. rules_pass test e.rules) (entries_from n store.now) }
{
    for i in 0..n {
        let a = 23 * i;
        let b = a + 23;
        if !rules_pass(entry_rules(&store[a..b]), test) {
            return false;
        }
    }
    true
}

// Each of the first n entries behind the one before it.
fn in_sequence(store: &[u64], n: usize) -> bool
    requires { 23 * n ≤ length store.now }
    ensures { result ≡ in_sequence (entries_from n store.now) }
{
    for i in 1..n {
        let a = 23 * i - 23;
        let m = 23 * i;
        let b = m + 23;
        if !follows(&store[a..m], &store[m..b]) {
            return false;
        }
    }
    true
}

// Test 1 of a store: entries behind those in use are not looked at.
pub fn store_shaped(store: &[u64], count: u64) -> bool
    ensures { result ≡ store_shaped (lent store.now count) }
{
    let long = store.len();
    let n = count as usize;
    if long / 23 < n {
        return false;
    }
    (long % 23 == 0) & entries_pass(store, n, 1) & in_sequence(store, n)
}

// Test 2 of each of the first n entries.
pub fn good_entries(store: &[u64], n: usize) -> bool
    requires { 23 * n ≤ length store.now }
    ensures { result ≡ good_entries (entries_from n store.now) }
{
    entries_pass(store, n, 2)
}
