// Tests 1, 2 and 3 of the Electra calls: what they are lent beside an Altair call. Document 03, F-2, the table.
#![tactic(auto)]

ghost use Rattle.std.specs.Prelude.{◌≡◌, [], ◌∷◌, leb};
ghost use Rattle.definitions.specs.Lists.{all, every};
ghost use Rattle.definitions.specs.Refusals.{is_small};
ghost use Rattle.definitions.specs.Rules.{good_bellatrix};
ghost use Rattle.definitions_electra.specs.Refusals.{deposits_shaped, consolidations_shaped, keys_shaped, indices_shaped, good_electra, good_compounding, good_deposits};

pub mod leaf_tests;
pub mod step_tests;

use definitions::{Bellatrix, Rules, Settings};
use definitions_electra::ElectraRules;
use refusals::rules::rules_refusal;
use refusals::{all_below, all_pass, good_settings, is_small};

// The pair, tested as under fork 1.
fn good_pair(settings: Settings, pair: Bellatrix) -> bool
    ensures { result ≡ good_bellatrix pair }
{
    let rules = Rules {
        settings: settings,
        fork: 1,
        bellatrix: pair,
    };
    rules_refusal(rules, Ok(())).is_ok()
}

pub fn good_electra(rules: ElectraRules) -> bool
    ensures { result ≡ good_electra rules }
{
    let s = rules.settings;
    let e = rules.electra;
    let numbers = [
        e.min_activation_balance,
        e.max_effective_balance_electra,
        e.min_per_epoch_churn_limit_electra,
        e.max_per_epoch_activation_exit_churn_limit,
        e.max_pending_deposits_per_epoch,
    ];
    all_pass(&[
        good_settings(s),
        good_pair(s, rules.bellatrix),
        all_below(&numbers, 281474976710656),
        s.effective_balance_increment <= e.min_per_epoch_churn_limit_electra,
        e.max_per_epoch_activation_exit_churn_limit != 0,
    ])
}

// Five numbers a deposit, and at most 2^24 deposits.
pub fn deposits_shaped(deposits: &[u64]) -> bool
    ensures { result ≡ deposits_shaped deposits.now }
{
    let n = deposits.len();
    if n % 5 != 0 {
        return false;
    }
    n / 5 <= 16777216
}

// Two numbers a consolidation, and at most 2^24 of them.
pub fn consolidations_shaped(consolidations: &[u64]) -> bool
    ensures { result ≡ consolidations_shaped consolidations.now }
{
    let n = consolidations.len();
    if n % 2 != 0 {
        return false;
    }
    n / 2 <= 16777216
}

// A key stands for a validator or for one of as many new keys as there are deposits.
pub fn keys_shaped(registry: &[u64], deposits: &[u64]) -> bool
    ensures { result ≡ keys_shaped registry.now deposits.now }
{
    let d = deposits.len() / 5;
    let bound = (registry.len() / 10 + d) as u64;
    for i in 0..d {
        if bound <= deposits[5 * i] {
            return false;
        }
    }
    true
}

// Source and target are validators.
pub fn indices_shaped(registry: &[u64], consolidations: &[u64]) -> bool
    ensures { result ≡ indices_shaped registry.now consolidations.now }
{
    let n = (registry.len() / 10) as u64;
    let m = consolidations.len() / 2;
    for i in 0..m {
        if n <= consolidations[2 * i] {
            return false;
        }
        if n <= consolidations[2 * i + 1] {
            return false;
        }
    }
    true
}

pub fn good_compounding(compounding: &[u64]) -> bool
    ensures { result ≡ good_compounding compounding.now }
{
    for &credential in compounding {
        if 1 < credential {
            return false;
        }
    }
    true
}

fn good_deposit(compounding: u64, valid: u64, slot: u64) -> bool
    ensures { result ≡ every (leb compounding 1 ∷ leb valid 1 ∷ is_small slot ∷ []) }
{
    if 1 < compounding {
        return false;
    }
    if 1 < valid {
        return false;
    }
    is_small(slot)
}

pub fn good_deposits(deposits: &[u64]) -> bool
    ensures { result ≡ good_deposits deposits.now }
{
    let d = deposits.len() / 5;
    for i in 0..d {
        let a = 5 * i;
        if !good_deposit(deposits[a + 1], deposits[a + 4], deposits[a + 3]) {
            return false;
        }
    }
    true
}
