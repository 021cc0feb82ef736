// get_flag_index_deltas, of one validator of the registry.
ghost use Rattle.std.specs.Prelude.{◌≡◌, true, ◌*◌, ◌/◌, ◌≤◌, ◌<◌, length, get_or};
ghost use Rattle.definitions.specs.Record.{decode_one, decode, nobody};
ghost use Rattle.definitions.specs.Refusals.{after_tests, good_settings};
ghost use Rattle.definitions.specs.LeafRefusals.{flag_deltas_tests};
ghost use Rattle.definitions.specs.Rust.Altair.Helpers.{flag_index_deltas, get_flag_index_deltas};
ghost use Rattle.rewards_step.specs.Totals.{flag_totals_of};
ghost use Rattle.rewards_step.specs.Step.{flag_deltas_from};

use definitions::{Deltas, Refusal, Settings};
use epochs::{current_epoch, previous_epoch};
use finality::inactivity_leak;
use refusals::{
    good_registry, good_settings, in_order, is_small, registry_shaped, settings_shaped,
};
use rewards::base_rewards::entry_base_reward;
use rewards::{flag_deltas, shared_numbers};
use totals::{total_active, total_participating};

// By a flag, from the totals.
fn entry_flag_deltas(
    s: Settings,
    current_epoch: u64,
    previous_epoch: u64,
    flag_index: u64,
    participating: u64,
    total: u64,
    leaking: bool,
    entry: &[u64],
) -> Result<Deltas, Refusal>
    requires effective_balance_increment_nonzero { 0 < s.effective_balance_increment }
    requires effective_balance_increment_bound { s.effective_balance_increment ≤ total }
    requires flag_index_bound { flag_index ≤ 2 }
    requires len { length entry.now ≡ 10 }
    ensures { result ≡
        flag_index_deltas s current_epoch previous_epoch flag_index (flag_totals_of s participating total leaking) (decode_one entry.now) }
{
    let shared = shared_numbers(s, current_epoch, previous_epoch, total, leaking);
    let per_increment = shared.per_increment;
    let base = entry_base_reward(s, total, per_increment, entry);
    let increments = participating / s.effective_balance_increment;
    flag_deltas(s, shared, flag_index, increments, base, entry)
}

fn flag_deltas_tests(
    s: Settings,
    state_slot: u64,
    finalized_epoch: u64,
    flag_index: u64,
    index: usize,
    registry: &[u64],
) -> Result<(), Refusal>
    ensures { result ≡ flag_deltas_tests s state_slot finalized_epoch flag_index index registry.now }
{
    in_order(
        &[
            settings_shaped(s),
            registry_shaped(registry),
            flag_index <= 2,
            index < registry.len() / 10,
        ],
        &[good_settings(s)],
        &[
            is_small(state_slot),
            is_small(finalized_epoch),
            good_registry(registry),
        ],
    )
}

// From the participants' balance, apart so that each chain of refusing calls is short.
fn flag_deltas_from(
    s: Settings,
    state_slot: u64,
    finalized_epoch: u64,
    current: u64,
    previous: u64,
    flag_index: u64,
    participating: u64,
    index: usize,
    registry: &[u64],
) -> Result<Deltas, Refusal>
    requires s_value { good_settings s ≡ true }
    requires flag_index_bound { (flag_index ≤ 2) × (index < length registry.now / 10) }
    requires registry_len { length registry.now ≡ 10 * (length registry.now / 10) }
    ensures { result ≡ flag_deltas_from s state_slot finalized_epoch (decode registry.now) current previous flag_index participating
        (get_or (decode registry.now) index nobody) }
{
    let total = total_active(s, current, registry)?;
    let leaking = inactivity_leak(s, state_slot, finalized_epoch)?;
    let a = 10 * index;
    let b = a + 10;
    entry_flag_deltas(
        s,
        current,
        previous,
        flag_index,
        participating,
        total,
        leaking,
        &registry[a..b],
    )
}

// Once the tests are passed, apart so that what they give is said in one place.
fn tested_flag_deltas(
    s: Settings,
    state_slot: u64,
    finalized_epoch: u64,
    flag_index: u64,
    index: usize,
    registry: &[u64],
) -> Result<Deltas, Refusal>
    requires s_value { good_settings s ≡ true }
    requires flag_index_bound { (flag_index ≤ 2) × (index < length registry.now / 10) }
    requires registry_len { length registry.now ≡ 10 * (length registry.now / 10) }
    ensures { result ≡ get_flag_index_deltas s state_slot finalized_epoch (decode registry.now) flag_index
        (get_or (decode registry.now) index nobody) }
{
    let current = current_epoch(s, state_slot);
    let previous = previous_epoch(s, state_slot);
    let participating = total_participating(s, current, flag_index, previous, registry)?;
    flag_deltas_from(
        s,
        state_slot,
        finalized_epoch,
        current,
        previous,
        flag_index,
        participating,
        index,
        registry,
    )
}

pub fn get_flag_index_deltas(
    s: Settings,
    state_slot: u64,
    finalized_epoch: u64,
    flag_index: u64,
    index: usize,
    registry: &[u64],
) -> Result<Deltas, Refusal>
    ensures { result ≡ after_tests (flag_deltas_tests s state_slot finalized_epoch flag_index index registry.now)
        (get_flag_index_deltas s state_slot finalized_epoch (decode registry.now) flag_index
        (get_or (decode registry.now) index nobody)) }
{
    flag_deltas_tests(s, state_slot, finalized_epoch, flag_index, index, registry)?;
    tested_flag_deltas(s, state_slot, finalized_epoch, flag_index, index, registry)
}
