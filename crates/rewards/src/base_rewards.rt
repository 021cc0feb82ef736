// The base reward: of an increment, from the total active balance, and of a validator. `entry_base_reward` is for steps, which have tested the
// record already and carry the reward of an increment as an answer: it may have left 64 bits and be wanted by nobody.
ghost use Rattle.std.specs.Prelude.{◌≡◌, ◌<◌, length};
ghost use Rattle.definitions.specs.Record.{decode_one};
ghost use Rattle.definitions.specs.Refusals.{after_tests};
ghost use Rattle.definitions.specs.LeafRefusals.{total_tests, total_entry_tests};
ghost use Rattle.definitions.specs.Rust.Altair.Helpers.{get_base_reward_per_increment, get_base_reward};

use arithmetic::{integer_sqrt, mul64};
use definitions::{EFFECTIVE_BALANCE, Refusal, Settings};
use leaf_refusals::settings_entry_tests;
use refusals::{good_entry, good_settings, in_order, settings_shaped};

pub fn base_reward_per_increment(s: Settings, total: u64) -> Result<u64, Refusal>
    requires { 0 < total }
    ensures { result ≡ get_base_reward_per_increment s total }
{
    let product = mul64(s.effective_balance_increment, s.base_reward_factor)?;
    let root = integer_sqrt(total);
    let reward = product / root;
    Ok(reward)
}

pub fn entry_base_reward(
    s: Settings,
    total: u64,
    per_increment: Result<u64, Refusal>,
    entry: &[u64],
) -> Result<u64, Refusal>
    requires effective_balance_increment_nonzero { 0 < s.effective_balance_increment }
    requires len { length entry.now ≡ 10 }
    requires says { per_increment ≡ get_base_reward_per_increment s total }
    ensures { result ≡ get_base_reward s total (decode_one entry.now) }
{
    let reward = per_increment?;
    mul64(
        entry[EFFECTIVE_BALANCE] / s.effective_balance_increment,
        reward,
    )
}

fn total_tests(s: Settings, total: u64) -> Result<(), Refusal>
    ensures { result ≡ total_tests s total }
{
    in_order(&[settings_shaped(s), total != 0], &[good_settings(s)], &[])
}

fn total_entry_tests(s: Settings, total: u64, entry: &[u64]) -> Result<(), Refusal>
    ensures { result ≡ total_entry_tests s total entry.now }
{
    if entry.len() != 10 {
        return Err(Refusal::BadShape);
    }
    in_order(
        &[settings_shaped(s), total != 0],
        &[good_settings(s)],
        &[good_entry(entry)],
    )
}

pub fn get_base_reward_per_increment(s: Settings, total: u64) -> Result<u64, Refusal>
    ensures { result ≡ after_tests (total_tests s total) (get_base_reward_per_increment s total) }
{
    total_tests(s, total)?;
    base_reward_per_increment(s, total)
}

pub fn get_base_reward(s: Settings, total: u64, entry: &[u64]) -> Result<u64, Refusal>
    ensures { result ≡ after_tests (total_entry_tests s total entry.now) (get_base_reward s total (decode_one entry.now)) }
{
    total_entry_tests(s, total, entry)?;
    let per_increment = base_reward_per_increment(s, total);
    entry_base_reward(s, total, per_increment, entry)
}
