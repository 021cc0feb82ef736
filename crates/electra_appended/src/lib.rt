// Those whom the deposits of a close under Electra add, behind the validators of the opening: written once nothing can be refused any more.
#![tactic(auto)]

ghost use Rattle.std.specs.Prelude.{◌≡◌, true, ◌+◌, ◌*◌, ◌/◌, ◌≤◌, length, take};
ghost use Rattle.definitions.specs.Refusals.{good_settings};
ghost use Rattle.definitions_electra.specs.Record.{decode_deposits};
ghost use Rattle.definitions_electra.specs.Calls.{over};
ghost use Rattle.electra_deposits.specs.Room.{rules_by, opening, joined, Added};
ghost use Rattle.electra_deposits.specs.Step.{new_of};
ghost use Rattle.electra_appended.specs.Appended.{Buffers, Updates, WritesAdded};

use definitions_electra::ElectraRules;
use electra_balances::effective_balances_core;
use electra_deposits::adding::add_deposits;
use electra_deposits::closing::copy_front;
use electra_deposits::step::new_numbers;
use electra_last::append_amounts;

// As the deposits leave them. Answers how many validators there are then.
fn add_behind(
    rules: ElectraRules,
    n: usize,
    deposits: &[u64],
    compounding: &[u64],
    index: usize,
    closing_registry: &mut [u64],
    closing_compounding: &mut [u64],
    places: &mut [u64],
) -> usize
    requires buffers { Buffers n compounding.now deposits.now closing_registry.old closing_compounding.old places.old }
    requires settings_value { (good_settings rules.settings ≡ true) × (index ≤ length deposits.now / 5) }
    ensures added { Added
        (joined (rules_by (new_of rules) 0) n
        (opening n closing_registry.old (over compounding.now closing_compounding.old))
        (take index (decode_deposits deposits.now)))
        closing_registry.old (over compounding.now closing_compounding.old)
        closing_registry.new closing_compounding.new result }
    ensures lower_bound { (n ≤ result) × (result ≤ n + length deposits.now / 5) }
{
    copy_front(compounding, closing_compounding);
    places.fill(0);
    let k = new_numbers(rules);
    add_deposits(
        closing_registry,
        closing_compounding,
        places,
        deposits,
        n as u64,
        index,
        k,
    )
}

// Effective balances of those added. Whether they are refused is asked before anything is written: nobody asks it here.
fn update_added(
    rules: ElectraRules,
    n: usize,
    count: usize,
    compounding: &[u64],
    registry: &mut [u64],
)
    requires registry_len { (length registry.old ≡ 10 * length compounding.now) × (n ≤ count) × (count ≤ length compounding.now) }
    requires settings_value { good_settings rules.settings ≡ true }
    ensures { Updates rules n count compounding.now registry.old registry.new }
{
    let a = 10 * n;
    let b = 10 * count;
    let _ = effective_balances_core(rules, &compounding[n..count], &mut registry[a..b]);
}

// The first `index` deposits are done, and n validators stand in front. Their amounts before their effective balances, which no amount reads.
pub fn write_added(
    rules: ElectraRules,
    n: usize,
    deposits: &[u64],
    compounding: &[u64],
    index: usize,
    closing_registry: &mut [u64],
    closing_compounding: &mut [u64],
    amounts: &mut [u64],
    places: &mut [u64],
) -> usize
    requires buffers { Buffers n compounding.now deposits.now closing_registry.old closing_compounding.old places.old }
    requires settings_value { (good_settings rules.settings ≡ true) × (index ≤ length deposits.now / 5) }
    requires amounts_len { length amounts.old ≡ 12 * length closing_compounding.old }
    ensures { WritesAdded rules n deposits.now compounding.now index closing_registry.old closing_registry.new
        closing_compounding.old closing_compounding.new amounts.old amounts.new result }
{
    let count = add_behind(
        rules,
        n,
        deposits,
        compounding,
        index,
        closing_registry,
        closing_compounding,
        places,
    );
    append_amounts(closing_registry, n, count, amounts);
    update_added(rules, n, count, closing_compounding, closing_registry);
    count
}
