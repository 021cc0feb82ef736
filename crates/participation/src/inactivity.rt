// Inactivity scores: a validator's ten numbers, the registry in place, and process_inactivity_updates.
ghost use Rattle.std.specs.Prelude.{◌≡◌, true, ◌*◌, ◌/◌, length};
ghost use Rattle.definitions.specs.Record.{decode, encode};
ghost use Rattle.definitions.specs.Checked.{code_of, value, bind, map_checked};
ghost use Rattle.definitions.specs.Refusals.{good_settings, registry_tests};
ghost use Rattle.definitions.specs.Rust.Altair.EpochProcessing.{moved_score, recovered_score, update_inactivity_score, process_inactivity_updates};
ghost use Rattle.laws.specs.Ran.{Settles, Ran};
ghost use Rattle.definitions.specs.Closes.{Closes};

use arithmetic::{add64, min};
use definitions::{INACTIVITY_SCORE, Refusal, Settings};
use entries::{entry_is_eligible, entry_is_participating};
use epochs::{current_epoch, previous_epoch};
use finality::inactivity_leak;
use leaf_refusals::registry_refusals::registry_tests;
use over_entries::each_entry;
use refusals::buffers::{copy, put_back};

// One less for a hit, the bias more for a miss.
fn moved_score(s: Settings, participating: bool, score: u64) -> Result<u64, Refusal>
    ensures { result ≡ moved_score s participating score }
{
    if participating {
        let less = score - min(1, score);
        return Ok(less);
    }
    add64(score, s.inactivity_score_bias)
}

// Outside a leak the recovery rate comes off.
fn recovered_score(s: Settings, leaking: bool, score: u64) -> u64
    ensures { result ≡ recovered_score s leaking score }
{
    if leaking {
        return score;
    }
    score - min(s.inactivity_score_recovery_rate, score)
}

// The bias first, then the recovery.
fn new_score(s: Settings, participating: bool, leaking: bool, score: u64) -> Result<u64, Refusal>
    ensures { result ≡ bind (moved_score s participating score) (λ moved. value (recovered_score s leaking moved)) }
{
    let moved = moved_score(s, participating, score)?;
    let recovered = recovered_score(s, leaking, moved);
    Ok(recovered)
}

pub fn entry_update_score(
    s: Settings,
    current_epoch: u64,
    previous_epoch: u64,
    leaking: bool,
    entry: &mut [u64],
) -> Result<(), Refusal>
    requires { length entry.old ≡ 10 }
    ensures { Settles (update_inactivity_score s current_epoch previous_epoch leaking) entry.old entry.new result }
{
    if !entry_is_eligible(previous_epoch, entry) {
        return Ok(());
    }
    let participating = entry_is_participating(current_epoch, 1, previous_epoch, entry);
    let score = new_score(s, participating, leaking, entry[INACTIVITY_SCORE])?;
    entry[INACTIVITY_SCORE] = score;
    Ok(())
}

fn update_scores(
    s: Settings,
    current_epoch: u64,
    previous_epoch: u64,
    leaking: bool,
    registry: &mut [u64],
) -> Result<(), Refusal>
    requires { length registry.old ≡ 10 * (length registry.old / 10) }
    ensures { Ran (map_checked (update_inactivity_score s current_epoch previous_epoch leaking) (decode registry.old)) registry.new result }
{
    each_entry(
        |entry| entry_update_score(s, current_epoch, previous_epoch, leaking, entry),
        registry,
    )
}

// In place, for callers that have tested the record and put the opening back on refusal.
pub fn inactivity_core(
    s: Settings,
    state_slot: u64,
    finalized_epoch: u64,
    registry: &mut [u64],
) -> Result<(), Refusal>
    requires s_value { good_settings s ≡ true }
    requires registry_len { length registry.old ≡ 10 * (length registry.old / 10) }
    ensures { Ran (process_inactivity_updates s state_slot finalized_epoch (decode registry.old)) registry.new result }
{
    let current = current_epoch(s, state_slot);
    if current == 0 {
        return Ok(());
    }
    let leaking = inactivity_leak(s, state_slot, finalized_epoch)?;
    let previous = previous_epoch(s, state_slot);
    update_scores(s, current, previous, leaking, registry)
}

pub fn process_inactivity_updates(
    s: Settings,
    state_slot: u64,
    finalized_epoch: u64,
    opening: &[u64],
    closing: &mut [u64],
) -> Result<(), Refusal>
    ensures { Closes encode (registry_tests s state_slot finalized_epoch opening.now closing.old)
        (process_inactivity_updates s state_slot finalized_epoch (decode opening.now)) opening.now closing.old
        closing.new (code_of result) }
{
    registry_tests(s, state_slot, finalized_epoch, opening, closing)?;
    copy(opening, closing);
    let done = inactivity_core(s, state_slot, finalized_epoch, closing);
    put_back(done, opening, closing);
    done
}
