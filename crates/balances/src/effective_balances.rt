// process_effective_balance_updates: an effective balance follows its balance once that has left the hysteresis.
ghost use Rattle.std.specs.Prelude.{◌≡◌, true, ◌-◌, ◌*◌, ◌/◌, ◌%◌, ◌<◌, min, length};
ghost use Rattle.definitions.specs.Record.{decode, encode};
ghost use Rattle.definitions.specs.Checked.{code_of, map_checked};
ghost use Rattle.definitions.specs.Refusals.{good_settings, effective_balance_tests};
ghost use Rattle.definitions.specs.Rust.Phase0.EpochProcessing.{update_effective_balance, process_effective_balance_updates};
ghost use Rattle.laws.specs.Ran.{Settles, Ran};
ghost use Rattle.definitions.specs.Closes.{Closes};
ghost use Rattle.balances.specs.Thresholds.{thresholds_of};

use arithmetic::{add64, min, mul64};
use definitions::{BALANCE, EFFECTIVE_BALANCE, Refusal, Settings};
use over_entries::each_entry;
use refusals::buffers::{copy, put_back};
use refusals::{good_registry, good_settings, in_order, registry_shaped, settings_shaped};

// How far a balance may lie below and above the effective balance before that follows it.
#[derive(Clone, Copy)]
pub struct Thresholds {
    pub downward: u64,
    pub upward: u64,
}

pub fn hysteresis(s: Settings) -> Result<Thresholds, Refusal>
    requires { 0 < s.hysteresis_quotient }
    ensures { result ≡ thresholds_of s }
{
    let increment = s.effective_balance_increment / s.hysteresis_quotient;
    let downward = mul64(increment, s.hysteresis_downward_multiplier)?;
    let upward = mul64(increment, s.hysteresis_upward_multiplier)?;
    let thresholds = Thresholds {
        downward: downward,
        upward: upward,
    };
    Ok(thresholds)
}

// Rounded down to an increment, and at most the maximum.
fn rounded(s: Settings, balance: u64) -> u64
    requires { 0 < s.effective_balance_increment }
    ensures { result ≡ min (balance - balance % s.effective_balance_increment) s.max_effective_balance }
{
    min(
        balance - balance % s.effective_balance_increment,
        s.max_effective_balance,
    )
}

// The second sum is evaluated only where the first test failed.
pub fn entry_update(
    s: Settings,
    downward: u64,
    upward: u64,
    entry: &mut [u64],
) -> Result<(), Refusal>
    requires { (length entry.old ≡ 10) × (0 < s.effective_balance_increment) }
    ensures { Settles (update_effective_balance s downward upward) entry.old entry.new result }
{
    let effective = entry[EFFECTIVE_BALANCE];
    let balance = entry[BALANCE];
    let low = add64(balance, downward)?;
    if low < effective {
        entry[EFFECTIVE_BALANCE] = rounded(s, balance);
        return Ok(());
    }
    let high = add64(effective, upward)?;
    if high < balance {
        entry[EFFECTIVE_BALANCE] = rounded(s, balance);
        return Ok(());
    }
    Ok(())
}

fn update_all(s: Settings, downward: u64, upward: u64, registry: &mut [u64]) -> Result<(), Refusal>
    requires { (length registry.old ≡ 10 * (length registry.old / 10)) × (0 < s.effective_balance_increment) }
    ensures { Ran (map_checked (update_effective_balance s downward upward) (decode registry.old)) registry.new result }
{
    each_entry(|entry| entry_update(s, downward, upward, entry), registry)
}

// The step in place. Both thresholds are evaluated also over no validators.
pub fn effective_balances_core(s: Settings, registry: &mut [u64]) -> Result<(), Refusal>
    requires { (length registry.old ≡ 10 * (length registry.old / 10)) × (good_settings s ≡ true) }
    ensures { Ran (process_effective_balance_updates s (decode registry.old)) registry.new result }
{
    let thresholds = hysteresis(s)?;
    update_all(s, thresholds.downward, thresholds.upward, registry)
}

fn effective_balance_tests(s: Settings, opening: &[u64], closing: &[u64]) -> Result<(), Refusal>
    ensures { result ≡ effective_balance_tests s opening.now closing.now }
{
    in_order(
        &[
            settings_shaped(s),
            registry_shaped(opening),
            closing.len() == opening.len(),
        ],
        &[good_settings(s)],
        &[good_registry(opening)],
    )
}

pub fn process_effective_balance_updates(
    s: Settings,
    opening: &[u64],
    closing: &mut [u64],
) -> Result<(), Refusal>
    ensures { Closes encode (effective_balance_tests s opening.now closing.old)
        (process_effective_balance_updates s (decode opening.now)) opening.now closing.old closing.new (code_of result) }
{
    effective_balance_tests(s, opening, closing)?;
    copy(opening, closing);
    let done = effective_balances_core(s, closing);
    put_back(done, opening, closing);
    done
}
