// The leaves of altair/helpers.rs: flags and participation, base rewards, deltas.
ghost use Rattle.std.specs.Prelude.{◌≡◌, get_or};
ghost use Rattle.definitions.specs.Record.{decode_one, decode, nobody};
ghost use Rattle.definitions.specs.Checked.{value};
ghost use Rattle.definitions.specs.Raised.{total_with_raised};
ghost use Rattle.definitions.specs.Refusals.{after_tests};
ghost use Rattle.definitions.specs.LeafRefusals.{flag_tests, participation_entry_tests, participation_tests, total_tests, total_entry_tests, flag_deltas_tests};
ghost use Rattle.definitions.specs.Rules.{settings_under, inactivity_penalty_tests};
ghost use Rattle.definitions.specs.Document.Altair.Helpers.{has_flag, add_flag};
ghost use Rattle.definitions.specs.Rust.Phase0.Helpers.{get_current_epoch};
ghost use Rattle.definitions.specs.Rust.Altair.Helpers.{is_unslashed_participating, get_unslashed_participating_indices, get_base_reward_per_increment, get_base_reward, get_flag_index_deltas, get_inactivity_penalty_deltas};
ghost use Rattle.definitions.specs.Plain.{plain_number, plain_truth, plain_deltas, plain_total};

use definitions::{PlainDeltas, PlainNumber, PlainTotal, PlainTruth, Rules, Settings};
use plain::{plain_deltas, plain_number, plain_total, plain_truth};

// Flags and participation

#[unsafe(no_mangle)]
pub extern "C" fn altair_has_flag(flags: u8, flag_index: u64) -> PlainTruth
    ensures { result ≡ plain_truth (after_tests (flag_tests flag_index) (value (has_flag flags flag_index))) }
{
    plain_truth(entries::has_flag(flags, flag_index))
}

#[unsafe(no_mangle)]
pub extern "C" fn altair_add_flag(flags: u8, flag_index: u64) -> PlainNumber
    ensures { result ≡ plain_number (after_tests (flag_tests flag_index) (value (add_flag flags flag_index))) }
{
    plain_number(entries::add_flag(flags, flag_index))
}

#[unsafe(no_mangle)]
pub extern "C" fn altair_is_unslashed_participating(
    s: Settings,
    state_slot: u64,
    flag_index: u64,
    epoch: u64,
    entry: &[u64],
) -> PlainTruth
    ensures { result
        ≡ plain_truth (after_tests (participation_entry_tests s state_slot flag_index epoch entry.now)
        (value (is_unslashed_participating (get_current_epoch s state_slot) flag_index epoch (decode_one entry.now)))) }
{
    plain_truth(entries::is_unslashed_participating(s, state_slot, flag_index, epoch, entry))
}

// The total balance of a flag's unslashed participants in the previous or the current epoch.
#[unsafe(no_mangle)]
pub extern "C" fn altair_get_participating_balance(
    s: Settings,
    state_slot: u64,
    flag_index: u64,
    epoch: u64,
    registry: &[u64],
) -> PlainTotal
    ensures { result
        ≡ plain_total (after_tests (participation_tests s state_slot flag_index epoch registry.now)
        (total_with_raised s (get_unslashed_participating_indices s state_slot (decode registry.now) flag_index epoch))) }
{
    plain_total(totals::get_participating_balance(s, state_slot, flag_index, epoch, registry))
}

// Base rewards, of a total that is handed in

#[unsafe(no_mangle)]
pub extern "C" fn altair_get_base_reward_per_increment(s: Settings, total: u64) -> PlainNumber
    ensures { result ≡ plain_number (after_tests (total_tests s total) (get_base_reward_per_increment s total)) }
{
    plain_number(rewards::base_rewards::get_base_reward_per_increment(s, total))
}

#[unsafe(no_mangle)]
pub extern "C" fn altair_get_base_reward(s: Settings, total: u64, entry: &[u64]) -> PlainNumber
    ensures { result
        ≡ plain_number (after_tests (total_entry_tests s total entry.now) (get_base_reward s total (decode_one entry.now))) }
{
    plain_number(rewards::base_rewards::get_base_reward(s, total, entry))
}

// One validator's deltas

#[unsafe(no_mangle)]
pub extern "C" fn altair_get_flag_index_deltas(
    s: Settings,
    state_slot: u64,
    finalized_epoch: u64,
    flag_index: u64,
    index: usize,
    registry: &[u64],
) -> PlainDeltas
    ensures { result
        ≡ plain_deltas (after_tests (flag_deltas_tests s state_slot finalized_epoch flag_index index registry.now)
        (get_flag_index_deltas s state_slot finalized_epoch (decode registry.now) flag_index
        (get_or (decode registry.now) index nobody))) }
{
    plain_deltas(rewards_step::flag_rewards::get_flag_index_deltas(
        s,
        state_slot,
        finalized_epoch,
        flag_index,
        index,
        registry,
    ))
}

#[unsafe(no_mangle)]
pub extern "C" fn altair_get_inactivity_penalty_deltas(
    rules: Rules,
    state_slot: u64,
    entry: &[u64],
) -> PlainDeltas
    ensures { result
        ≡ plain_deltas (after_tests (inactivity_penalty_tests rules state_slot entry.now)
        (get_inactivity_penalty_deltas (settings_under rules) (settings_under rules).inactivity_penalty_quotient_altair state_slot
        (decode_one entry.now))) }
{
    plain_deltas(rewards::get_inactivity_penalty_deltas(rules, state_slot, entry))
}
