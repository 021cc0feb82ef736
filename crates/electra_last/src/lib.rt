// The last steps of a close under Electra on the validators of the opening, and what stands in the lent lists at the end.
#![tactic(auto)]

ghost use Rattle.std.specs.Prelude.{◌≡◌, true, ◌+◌, ◌*◌, ◌/◌, ◌≤◌, ◌<◌, length};
ghost use Rattle.definitions.specs.Record.{decode};
ghost use Rattle.definitions.specs.Refusals.{good_settings};
ghost use Rattle.electra_consolidations.specs.Consolidations.{placed};
ghost use Rattle.electra_last.specs.Moved.{moved_by, MovedRan};
ghost use Rattle.electra_last.specs.Added.{added_at, Added};

use definitions::{BALANCE, Refusal};
use definitions_electra::ElectraRules;
use electra_balances::effective_balances_core;
use electra_consolidations::consolidate_all;

// Pending consolidations with the amounts that they book, and effective balances, in place: how many consolidations are done. On refusal
// all is left half done.
pub fn moves_and_balances(
    rules: ElectraRules,
    compounding: &[u64],
    pairs: &[u64],
    next_epoch: u64,
    registry: &mut [u64],
    amounts: &mut [u64],
) -> Result<usize, Refusal>
    requires registry_len { (length registry.old ≡ 10 * length compounding.now) × (length pairs.now ≡ 2 * (length pairs.now / 2)) }
    requires pairs_value { placed (length compounding.now) pairs.now ≡ true }
    requires settings_value { good_settings rules.settings ≡ true }
    ensures { MovedRan next_epoch (length compounding.now) (decode registry.old) pairs.now
        (moved_by rules next_epoch compounding.now (decode registry.old) pairs.now)
        registry.new amounts.old amounts.new result }
{
    let n = compounding.len();
    let count = consolidate_all(registry, n, pairs, next_epoch, amounts)?;
    effective_balances_core(rules, compounding, registry)?;
    Ok(count)
}

fn added_value(registry: &[u64], p: usize) -> u64
    requires { 10 * (p / 12) + 6 < length registry.now }
    ensures { result ≡ added_at registry.now p }
{
    if p % 12 == 9 {
        return registry[10 * (p / 12) + BALANCE];
    }
    0
}

// The amounts of those whom the deposits have added, from the n-th on: their balance was deposited.
pub fn append_amounts(registry: &[u64], n: usize, count: usize, amounts: &mut [u64])
    requires { (10 * count ≤ length registry.now) × (12 * count ≤ length amounts.old) × (n ≤ count) }
    ensures { Added n count registry.now amounts.old amounts.new }
{
    let first = 12 * n;
    let long = 12 * (count - n);
    for k in 0..long {
        let p = first + k;
        let x = added_value(registry, p);
        amounts[p] = x;
    }
}
