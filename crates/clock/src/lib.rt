// The clock of document 02, R-11: which second belongs to which slot and epoch, after clock.rs. No number on the way is above the answer,
// so that a checked operation refuses only where the answer does not fit.
#![tactic(auto)]

ghost use Rattle.std.specs.Prelude.{◌≡◌, ◌<◌};
ghost use Rattle.definitions_clock.specs.Clock.{last_slot_of, first_second_of_slot_call, last_second_of_slot_call, first_second_of_epoch_call, last_second_of_epoch_call};
ghost use Rattle.definitions_clock.specs.Calls.{clock_tests, second_tests, fits64, slot_at_time, epoch_at_time, is_in_closing_window, first_second_of_slot, last_second_of_slot, first_second_of_epoch, last_second_of_epoch};

use arithmetic::{add64, mul64};
use definitions::Refusal;
use definitions_clock::Clock;

// 15, then 2.
fn clock_refusal(c: Clock) -> Result<(), Refusal>
    ensures { result ≡ clock_tests c }
{
    if c.seconds_per_slot == 0 {
        return Err(Refusal::NoSeconds);
    }
    if c.slots_per_epoch == 0 {
        return Err(Refusal::BadSettings);
    }
    if c.slots_per_epoch < 281474976710656 {
        return Ok(());
    }
    Err(Refusal::BadSettings)
}

// 15, then 2, then 14.
fn second_refusal(c: Clock, second: u64) -> Result<(), Refusal>
    ensures { result ≡ second_tests c second }
{
    clock_refusal(c)?;
    if second < c.genesis_time {
        return Err(Refusal::BeforeGenesis);
    }
    Ok(())
}

// What is worked out once the tests have passed.

fn slot_start(c: Clock, slot: u64) -> Result<u64, Refusal>
    ensures { result ≡ fits64 (first_second_of_slot_call c slot) }
{
    let seconds = mul64(slot, c.seconds_per_slot)?;
    add64(seconds, c.genesis_time)
}

fn slot_end(c: Clock, slot: u64) -> Result<u64, Refusal>
    requires { 0 < c.seconds_per_slot }
    ensures { result ≡ fits64 (last_second_of_slot_call c slot) }
{
    let start = slot_start(c, slot)?;
    add64(start, c.seconds_per_slot - 1)
}

fn epoch_start(c: Clock, epoch: u64) -> Result<u64, Refusal>
    requires { 0 < c.seconds_per_slot }
    ensures { result ≡ fits64 (first_second_of_epoch_call c epoch) }
{
    let slot = mul64(epoch, c.slots_per_epoch)?;
    slot_start(c, slot)
}

fn epoch_last_slot(c: Clock, epoch: u64) -> Result<u64, Refusal>
    requires { 0 < c.slots_per_epoch }
    ensures { result ≡ fits64 (last_slot_of c epoch) }
{
    let first = mul64(epoch, c.slots_per_epoch)?;
    add64(first, c.slots_per_epoch - 1)
}

fn epoch_end(c: Clock, epoch: u64) -> Result<u64, Refusal>
    requires { (0 < c.seconds_per_slot) × (0 < c.slots_per_epoch) }
    ensures { result ≡ fits64 (last_second_of_epoch_call c epoch) }
{
    let slot = epoch_last_slot(c, epoch)?;
    slot_end(c, slot)
}

// The calls.

pub fn slot_at_time(c: Clock, second: u64) -> Result<u64, Refusal>
    ensures { result ≡ slot_at_time c second }
{
    second_refusal(c, second)?;
    Ok((second - c.genesis_time) / c.seconds_per_slot)
}

pub fn epoch_at_time(c: Clock, second: u64) -> Result<u64, Refusal>
    ensures { result ≡ epoch_at_time c second }
{
    second_refusal(c, second)?;
    Ok((second - c.genesis_time) / c.seconds_per_slot / c.slots_per_epoch)
}

// Whether a second is in the last slot of its epoch.
pub fn is_in_closing_window(c: Clock, second: u64) -> Result<bool, Refusal>
    ensures { result ≡ is_in_closing_window c second }
{
    second_refusal(c, second)?;
    let slot = (second - c.genesis_time) / c.seconds_per_slot;
    Ok(slot % c.slots_per_epoch == c.slots_per_epoch - 1)
}

pub fn first_second_of_slot(c: Clock, slot: u64) -> Result<u64, Refusal>
    ensures { result ≡ first_second_of_slot c slot }
{
    clock_refusal(c)?;
    slot_start(c, slot)
}

pub fn last_second_of_slot(c: Clock, slot: u64) -> Result<u64, Refusal>
    ensures { result ≡ last_second_of_slot c slot }
{
    clock_refusal(c)?;
    slot_end(c, slot)
}

pub fn first_second_of_epoch(c: Clock, epoch: u64) -> Result<u64, Refusal>
    ensures { result ≡ first_second_of_epoch c epoch }
{
    clock_refusal(c)?;
    epoch_start(c, epoch)
}

pub fn last_second_of_epoch(c: Clock, epoch: u64) -> Result<u64, Refusal>
    ensures { result ≡ last_second_of_epoch c epoch }
{
    clock_refusal(c)?;
    epoch_end(c, epoch)
}
