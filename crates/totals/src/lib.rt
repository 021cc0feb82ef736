// Totals and counts over the registry, each in one pass: of those active at an epoch, those that the eligibility rule picks, or those that
// participate by a flag. A function without the Rust's name is for steps, which have tested the record already.
#![tactic(auto)]

ghost use Rattle.std.specs.Prelude.{◌≡◌, cond, map, ◌+◌, ◌*◌, ◌/◌, ◌≤◌, ◌<◌, max, ltb, length};
ghost use Rattle.definitions.specs.Lists.{filter};
ghost use Rattle.definitions.specs.Record.{decode_one, decode};
ghost use Rattle.definitions.specs.Checked.{value, sum64};
ghost use Rattle.definitions.specs.Raised.{total_with_raised};
ghost use Rattle.definitions.specs.Refusals.{after_tests};
ghost use Rattle.definitions.specs.LeafRefusals.{slot_registry_tests, participation_tests};
ghost use Rattle.definitions.specs.Rust.Phase0.Helpers.{get_current_epoch, get_active_validator_indices, get_total_balance, get_validator_churn_limit};
ghost use Rattle.definitions.specs.Rust.Phase0.EpochProcessing.{activation_limit};
ghost use Rattle.definitions.specs.Rust.Altair.Helpers.{is_unslashed_participating, get_unslashed_participating_indices};
ghost use Rattle.definitions.specs.Close.{charged};
ghost use Rattle.totals.specs.Members.{is_member, flag_of};
ghost use Rattle.totals.specs.Totals.{total_from, balance_for};

pub mod raising;

use arithmetic::{max, min};
use definitions::{ActivationLimit, EFFECTIVE_BALANCE, Refusal, Settings, Total};
use entries::{entry_is_active, entry_is_eligible, entry_is_participating};
use epochs::{current_epoch, previous_epoch};
use leaf_refusals::registry_refusals::{participation_tests, slot_registry_tests};
use over_entries::{count_entries, sum_entries};

pub fn count_if(count: u64, on: bool) -> u64
    requires { count < 18446744073709551615 }
    ensures { result ≡ count + cond on 1 0 }
{
    if on {
        return count + 1;
    }
    count
}

// Whom a total or a count is over. At `Participating` the flag's index is at most 7.
#[derive(Clone, Copy)]
enum Members {
    Active {
        epoch: u64,
    },
    Eligible {
        previous_epoch: u64,
    },
    Participating {
        current_epoch: u64,
        flag_index: u64,
        epoch: u64,
    },
}

fn is_member(members: Members, entry: &[u64]) -> bool
    requires len { length entry.now ≡ 10 }
    requires members_bound { flag_of members ≤ 7 }
    ensures { result ≡ is_member members (decode_one entry.now) }
{
    match members {
        Members::Active { epoch } => entry_is_active(entry, epoch),
        Members::Eligible { previous_epoch } => entry_is_eligible(previous_epoch, entry),
        Members::Participating {
            current_epoch,
            flag_index,
            epoch,
        } => entry_is_participating(current_epoch, flag_index, epoch, entry),
    }
}

fn member_weight(members: Members, entry: &[u64]) -> u64
    requires len { length entry.now ≡ 10 }
    requires members_bound { flag_of members ≤ 7 }
    ensures { result ≡ cond (is_member members (decode_one entry.now)) (decode_one entry.now).effective_balance 0 }
{
    if is_member(members, entry) {
        return entry[EFFECTIVE_BALANCE];
    }
    0
}

// The plain sum of the members' effective balances.
fn members_balance(members: Members, registry: &[u64]) -> Result<u64, Refusal>
    requires registry_len { length registry.now ≡ 10 * (length registry.now / 10) }
    requires members_bound { flag_of members ≤ 7 }
    ensures { result ≡ sum64 (map (λ v. v.effective_balance) (filter (is_member members) (decode registry.now))) }
{
    sum_entries(|entry| member_weight(members, entry), registry)
}

// How many they are.
fn members_count(members: Members, registry: &[u64]) -> u64
    requires registry_len { length registry.now ≡ 10 * (length registry.now / 10) }
    requires members_bound { flag_of members ≤ 7 }
    ensures { result ≡ length (filter (is_member members) (decode registry.now)) }
{
    count_entries(|entry| is_member(members, entry), registry)
}

// A total is its plain sum, and at least one increment, also over nobody.
pub fn raised(sum: u64, increment: u64) -> u64
    ensures { result ≡ max increment sum }
{
    max(increment, sum)
}

// 1 where a plain sum is below one increment, so that its total was raised, and else 0.
fn was_raised(sum: u64, increment: u64) -> u64
    ensures { result ≡ cond (ltb sum increment) 1 0 }
{
    if sum < increment {
        return 1;
    }
    0
}

// A total from its plain sum.
pub fn total_from(sum: u64, increment: u64) -> Total
    ensures { result ≡ total_from increment sum }
{
    Total {
        balance: raised(sum, increment),
        raised: was_raised(sum, increment),
    }
}

fn members_total(s: Settings, members: Members, registry: &[u64]) -> Result<Total, Refusal>
    requires registry_len { length registry.now ≡ 10 * (length registry.now / 10) }
    requires members_bound { flag_of members ≤ 7 }
    ensures { result ≡ total_with_raised s (filter (is_member members) (decode registry.now)) }
{
    let sum = members_balance(members, registry)?;
    let total = total_from(sum, s.effective_balance_increment);
    Ok(total)
}

pub fn active_total(s: Settings, epoch: u64, registry: &[u64]) -> Result<Total, Refusal>
    requires { length registry.now ≡ 10 * (length registry.now / 10) }
    ensures { result ≡ total_with_raised s (get_active_validator_indices (decode registry.now) epoch) }
{
    let members = Members::Active { epoch: epoch };
    members_total(s, members, registry)
}

pub fn participating_total(
    s: Settings,
    current_epoch: u64,
    flag_index: u64,
    epoch: u64,
    registry: &[u64],
) -> Result<Total, Refusal>
    requires registry_len { length registry.now ≡ 10 * (length registry.now / 10) }
    requires flag_index_bound { flag_index ≤ 7 }
    ensures { result ≡ total_with_raised s (filter (is_unslashed_participating current_epoch flag_index epoch) (decode registry.now)) }
{
    let members = Members::Participating {
        current_epoch: current_epoch,
        flag_index: flag_index,
        epoch: epoch,
    };
    members_total(s, members, registry)
}

// A total alone, for what does not ask whether it was raised.
pub fn balance_of(answer: Result<Total, Refusal>) -> Result<u64, Refusal>
    ensures { result ≡ balance_for answer }
{
    let total = answer?;
    Ok(total.balance)
}

pub fn total_active(s: Settings, epoch: u64, registry: &[u64]) -> Result<u64, Refusal>
    requires { length registry.now ≡ 10 * (length registry.now / 10) }
    ensures { result ≡ get_total_balance s (get_active_validator_indices (decode registry.now) epoch) }
{
    balance_of(active_total(s, epoch, registry))
}

pub fn total_participating(
    s: Settings,
    current_epoch: u64,
    flag_index: u64,
    epoch: u64,
    registry: &[u64],
) -> Result<u64, Refusal>
    requires registry_len { length registry.now ≡ 10 * (length registry.now / 10) }
    requires flag_index_bound { flag_index ≤ 7 }
    ensures { result ≡ get_total_balance s (filter (is_unslashed_participating current_epoch flag_index epoch) (decode registry.now)) }
{
    balance_of(participating_total(s, current_epoch, flag_index, epoch, registry))
}

pub fn get_total_active_balance(
    s: Settings,
    state_slot: u64,
    registry: &[u64],
) -> Result<Total, Refusal>
    ensures { result ≡ after_tests (slot_registry_tests s state_slot registry.now)
        (total_with_raised s (get_active_validator_indices (decode registry.now) (get_current_epoch s state_slot))) }
{
    slot_registry_tests(s, state_slot, registry)?;
    let epoch = current_epoch(s, state_slot);
    active_total(s, epoch, registry)
}

// The balance that participates by a flag.
pub fn get_participating_balance(
    s: Settings,
    state_slot: u64,
    flag_index: u64,
    epoch: u64,
    registry: &[u64],
) -> Result<Total, Refusal>
    ensures { result ≡ after_tests (participation_tests s state_slot flag_index epoch registry.now)
        (total_with_raised s (get_unslashed_participating_indices s state_slot (decode registry.now) flag_index epoch)) }
{
    participation_tests(s, state_slot, flag_index, epoch, registry)?;
    let current = current_epoch(s, state_slot);
    participating_total(s, current, flag_index, epoch, registry)
}

// The churn limit by the number of the active.
pub fn churn_by(s: Settings, active: u64) -> u64
    requires { 0 < s.churn_limit_quotient }
    ensures { result ≡ max s.min_per_epoch_churn_limit (active / s.churn_limit_quotient) }
{
    max(s.min_per_epoch_churn_limit, active / s.churn_limit_quotient)
}

// How many may be activated where `churn` may exit: from Deneb on at most its own number.
pub fn activation_limit(limit: ActivationLimit, churn: u64) -> u64
    ensures { result ≡ activation_limit limit churn }
{
    match limit {
        ActivationLimit::Churn => churn,
        ActivationLimit::AtMost(maximum) => min(maximum, churn),
    }
}

pub fn churn_limit(s: Settings, state_slot: u64, registry: &[u64]) -> u64
    requires registry_len { length registry.now ≡ 10 * (length registry.now / 10) }
    requires slots_per_epoch_nonzero { (0 < s.slots_per_epoch) × (0 < s.churn_limit_quotient) }
    ensures { result ≡ get_validator_churn_limit s state_slot (decode registry.now) }
{
    let epoch = current_epoch(s, state_slot);
    let members = Members::Active { epoch: epoch };
    let active = members_count(members, registry);
    churn_by(s, active)
}

pub fn get_validator_churn_limit(
    s: Settings,
    state_slot: u64,
    registry: &[u64],
) -> Result<u64, Refusal>
    ensures { result ≡ after_tests (slot_registry_tests s state_slot registry.now)
        (value (get_validator_churn_limit s state_slot (decode registry.now))) }
{
    slot_registry_tests(s, state_slot, registry)?;
    let limit = churn_limit(s, state_slot, registry);
    Ok(limit)
}

// How many are charged: nobody at the genesis epoch, where there are no rewards and penalties.
pub fn charged_count(s: Settings, state_slot: u64, registry: &[u64]) -> u64
    requires registry_len { length registry.now ≡ 10 * (length registry.now / 10) }
    requires slots_per_epoch_nonzero { 0 < s.slots_per_epoch }
    ensures { result ≡ charged s state_slot (decode registry.now) }
{
    let current = current_epoch(s, state_slot);
    if current == 0 {
        return 0;
    }
    let previous = previous_epoch(s, state_slot);
    let members = Members::Eligible {
        previous_epoch: previous,
    };
    members_count(members, registry)
}

pub fn charged(s: Settings, state_slot: u64, registry: &[u64]) -> Result<u64, Refusal>
    ensures { result ≡ after_tests (slot_registry_tests s state_slot registry.now) (value (charged s state_slot (decode registry.now))) }
{
    slot_registry_tests(s, state_slot, registry)?;
    let count = charged_count(s, state_slot, registry);
    Ok(count)
}
