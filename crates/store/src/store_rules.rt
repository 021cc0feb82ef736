// The rules that a close with a store goes by (02, R-10): tests 1 and 2 of the store and of what is lent beside it, then 13.
ghost use Rattle.std.specs.Prelude.{◌≡◌, true, ◌&&◌, ◌*◌, ◌≤◌, length};
ghost use Rattle.definitions.specs.Refusals.{roots_shaped, slashings_shaped};
ghost use Rattle.definitions_close.specs.Store.{entries_from, last_of, of_last, good_entries, rules_answer_for};
ghost use Rattle.definitions_close.specs.StoreClose.{rules_at_slot};
ghost use Rattle.definitions_close.specs.Calls.{lent};
ghost use Rattle.store.specs.Called.{tests_with, rules_with};

use crate::store_entries::{entry_rules, good_entries, store_shaped};
use crate::{rules_at, turned_away};
use definitions::{Refusal, Settings};
use definitions_close::RulesAnswer;
use refusals::{in_order, registry_shaped};

// Test 1 by S and L.
fn fits_settings(s: Settings, slashings: &[u64], roots: &[u8]) -> bool
    ensures { result ≡ (roots_shaped s roots.now && slashings_shaped s slashings.now) }
{
    let long = roots.len();
    if long % 32 != 0 {
        return false;
    }
    if (long / 32) as u64 != s.slots_per_historical_root {
        return false;
    }
    slashings.len() as u64 == s.epochs_per_slashings_vector
}

// By those of the last of the first n entries; there may be none to ask.
fn fits_last(store: &[u64], n: usize, slashings: &[u64], roots: &[u8]) -> bool
    requires { 23 * n ≤ length store.now }
    ensures { result
        ≡ of_last (λ e. roots_shaped e.rules.settings roots.now && slashings_shaped e.rules.settings slashings.now)
        (last_of (entries_from n store.now)) }
{
    if n == 0 {
        return true;
    }
    let b = 23 * n;
    let a = b - 23;
    let last = entry_rules(&store[a..b]);
    fits_settings(last.settings, slashings, roots)
}

// Tests 1 and 2, the first that failed.
fn call_tests(
    store: &[u64],
    count: u64,
    registry: &[u64],
    slashings: &[u64],
    roots: &[u8],
    closing_registry: &[u64],
    closing_slashings: &[u64],
    amounts: &[u64],
) -> Result<(), Refusal>
    ensures { result
        ≡ tests_with (lent store.now count) registry.now slashings.now roots.now
        closing_registry.now closing_slashings.now amounts.now }
{
    let n = count as usize;
    if store.len() / 23 < n {
        return Err(Refusal::BadShape);
    }
    in_order(
        &[
            store_shaped(store, count),
            registry_shaped(registry),
            amounts.len() == 9 * (registry.len() / 10),
            fits_last(store, n, slashings, roots),
            closing_registry.len() == registry.len(),
            closing_slashings.len() == slashings.len(),
        ],
        &[good_entries(store, n)],
        &[],
    )
}

// The rules of a slot's epoch; slots_per_epoch is the same in all entries, and not 0 once they are good.
pub fn rules_at_slot(store: &[u64], n: usize, slot: u64) -> RulesAnswer
    requires n_in_bounds { 23 * n ≤ length store.now }
    requires store_value { good_entries (entries_from n store.now) ≡ true }
    ensures { result ≡ rules_answer_for (rules_at_slot slot (entries_from n store.now)) }
{
    if n == 0 {
        return turned_away(13);
    }
    let at = 23 * n - 21;
    let slots_per_epoch = store[at];
    rules_at(store, n, slot / slots_per_epoch)
}

// The rules that the close goes by, or 1, 2 or 13.
pub fn rules_for(
    store: &[u64],
    count: u64,
    slot: u64,
    registry: &[u64],
    slashings: &[u64],
    roots: &[u8],
    closing_registry: &[u64],
    closing_slashings: &[u64],
    amounts: &[u64],
) -> RulesAnswer
    ensures { result
        ≡ rules_answer_for (rules_with (lent store.now count) slot registry.now slashings.now roots.now
        closing_registry.now closing_slashings.now amounts.now) }
{
    if let Err(refusal) = call_tests(
        store,
        count,
        registry,
        slashings,
        roots,
        closing_registry,
        closing_slashings,
        amounts,
    ) {
        return turned_away(refusal.number());
    }
    rules_at_slot(store, count as usize, slot)
}
