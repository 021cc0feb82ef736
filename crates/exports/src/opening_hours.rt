// Opening hours of an epoch, after clock.rs: slots and epochs by the wall clock.
ghost use Rattle.std.specs.Prelude.{◌≡◌};
ghost use Rattle.definitions_clock.specs.Calls.{slot_at_time, epoch_at_time, is_in_closing_window, first_second_of_slot, last_second_of_slot, first_second_of_epoch, last_second_of_epoch};
ghost use Rattle.definitions.specs.Plain.{plain_number, plain_truth};

use definitions::{PlainNumber, PlainTruth};
use definitions_clock::Clock;
use plain::{plain_number, plain_truth};

#[unsafe(no_mangle)]
pub extern "C" fn altair_slot_at_time(c: Clock, second: u64) -> PlainNumber
    ensures { result ≡ plain_number (slot_at_time c second) }
{
    plain_number(clock::slot_at_time(c, second))
}

#[unsafe(no_mangle)]
pub extern "C" fn altair_epoch_at_time(c: Clock, second: u64) -> PlainNumber
    ensures { result ≡ plain_number (epoch_at_time c second) }
{
    plain_number(clock::epoch_at_time(c, second))
}

#[unsafe(no_mangle)]
pub extern "C" fn altair_is_in_closing_window(c: Clock, second: u64) -> PlainTruth
    ensures { result ≡ plain_truth (is_in_closing_window c second) }
{
    plain_truth(clock::is_in_closing_window(c, second))
}

#[unsafe(no_mangle)]
pub extern "C" fn altair_first_second_of_slot(c: Clock, slot: u64) -> PlainNumber
    ensures { result ≡ plain_number (first_second_of_slot c slot) }
{
    plain_number(clock::first_second_of_slot(c, slot))
}

#[unsafe(no_mangle)]
pub extern "C" fn altair_last_second_of_slot(c: Clock, slot: u64) -> PlainNumber
    ensures { result ≡ plain_number (last_second_of_slot c slot) }
{
    plain_number(clock::last_second_of_slot(c, slot))
}

#[unsafe(no_mangle)]
pub extern "C" fn altair_first_second_of_epoch(c: Clock, epoch: u64) -> PlainNumber
    ensures { result ≡ plain_number (first_second_of_epoch c epoch) }
{
    plain_number(clock::first_second_of_epoch(c, epoch))
}

#[unsafe(no_mangle)]
pub extern "C" fn altair_last_second_of_epoch(c: Clock, epoch: u64) -> PlainNumber
    ensures { result ≡ plain_number (last_second_of_epoch c epoch) }
{
    plain_number(clock::last_second_of_epoch(c, epoch))
}
