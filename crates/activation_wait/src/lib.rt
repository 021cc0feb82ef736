// How long a validator waits for activation: how many are ahead of it, in one pass over the registry, and the closes that demand 3 promises.
#![tactic(auto)]

ghost use Rattle.std.specs.Prelude.{◌≡◌, ◌&&◌, ◌||◌, ◌*◌, ◌≤◌, ◌<◌, ltb, eqb, length};
ghost use Rattle.definitions.specs.Record.{decode_one, decode};
ghost use Rattle.definitions.specs.Document.Phase0.Helpers.{is_eligible_for_activation};
ghost use Rattle.definitions.specs.RegisterOrder.{ahead};
ghost use Rattle.definitions_wait.specs.Wait.{wait_tests, closes_for, no_wait, wait_of, activation_wait};

use definitions::{ACTIVATION_ELIGIBILITY_EPOCH, Refusal, Settings};
use definitions_wait::WaitAnswer;
use entries::entry_is_eligible_for_activation;
use refusals::{
    good_registry, good_settings, in_order, is_small, registry_shaped, settings_shaped,
};

// Whether the validator at `j` is ahead of the one at `index`, which queues since this epoch.
fn entry_queues_before(
    finalized_epoch: u64,
    since: u64,
    index: usize,
    j: usize,
    entry: &[u64],
) -> bool
    requires { length entry.now ≡ 10 }
    ensures { result
        ≡ (is_eligible_for_activation finalized_epoch (decode_one entry.now)
        && (ltb (decode_one entry.now).activation_eligibility_epoch since
        || (eqb (decode_one entry.now).activation_eligibility_epoch since && ltb j index))) }
{
    if !entry_is_eligible_for_activation(finalized_epoch, entry) {
        return false;
    }
    let own = entry[ACTIVATION_ELIGIBILITY_EPOCH];
    if own < since {
        return true;
    }
    if own != since {
        return false;
    }
    j < index
}

fn count_ahead(finalized_epoch: u64, registry: &[u64], n: usize, index: usize) -> u64
    requires { (length registry.now ≡ 10 * n) × (index < n) }
    ensures value { result ≡ ahead finalized_epoch (decode registry.now) index }
    ensures upper_bound { result ≤ n }
{
    let since = registry[10 * index + ACTIVATION_ELIGIBILITY_EPOCH];
    let mut count: u64 = 0;
    for j in 0..n {
        let a = 10 * j;
        let b = a + 10;
        if !entry_queues_before(finalized_epoch, since, index, j, &registry[a..b]) {
            continue;
        }
        count += 1;
    }
    count
}

fn closes_for(m: u64, k: u64) -> u64
    requires { k < 18446744073709551615 }
    ensures { result ≡ closes_for m k }
{
    if m == 0 {
        return 0;
    }
    k / m + 1
}

fn no_wait(refusal: u64) -> WaitAnswer
    ensures { result ≡ no_wait refusal }
{
    WaitAnswer {
        refusal: refusal,
        waits: 0,
        ahead: 0,
        closes: 0,
    }
}

fn wait_tests(
    s: Settings,
    finalized_epoch: u64,
    registry: &[u64],
    index: u64,
) -> Result<(), Refusal>
    ensures { result ≡ wait_tests s finalized_epoch registry.now index }
{
    in_order(
        &[
            settings_shaped(s),
            registry_shaped(registry),
            index < (registry.len() / 10) as u64,
        ],
        &[good_settings(s)],
        &[is_small(finalized_epoch), good_registry(registry)],
    )
}

// Of a validator that is known.
fn wait_core(
    s: Settings,
    finalized_epoch: u64,
    registry: &[u64],
    n: usize,
    index: usize,
) -> WaitAnswer
    requires { (length registry.now ≡ 10 * n) × (index < n) }
    ensures { result ≡ wait_of s finalized_epoch (decode registry.now) index }
{
    let a = 10 * index;
    let b = a + 10;
    if !entry_is_eligible_for_activation(finalized_epoch, &registry[a..b]) {
        return no_wait(0);
    }
    let k = count_ahead(finalized_epoch, registry, n, index);
    WaitAnswer {
        refusal: 0,
        waits: 1,
        ahead: k,
        closes: closes_for(s.min_per_epoch_churn_limit, k),
    }
}

pub fn activation_wait(
    s: Settings,
    finalized_epoch: u64,
    registry: &[u64],
    index: u64,
) -> WaitAnswer
    ensures { result ≡ activation_wait s finalized_epoch registry.now index }
{
    if let Err(refusal) = wait_tests(s, finalized_epoch, registry, index) {
        return no_wait(refusal.number());
    }
    wait_core(
        s,
        finalized_epoch,
        registry,
        registry.len() / 10,
        index as usize,
    )
}
