// A validator's balance raised and lowered, on its ten numbers. `entry_..` is for steps, which have tested the record already.
#![tactic(auto)]

ghost use Rattle.std.specs.Prelude.{◌≡◌, length};
ghost use Rattle.definitions.specs.Record.{decode_one, encode_one};
ghost use Rattle.definitions.specs.Checked.{code_of, value};
ghost use Rattle.definitions.specs.LeafRefusals.{entry_tests};
ghost use Rattle.definitions.specs.Rust.Phase0.Helpers.{increase_balance, decrease_balance};
ghost use Rattle.laws.specs.Ran.{Settles};
ghost use Rattle.definitions.specs.Closes.{Closes};

pub mod effective_balances;

use arithmetic::add64;
use definitions::{BALANCE, Refusal};
use leaf_refusals::entry_tests;

pub fn entry_increase_balance(entry: &mut [u64], delta: u64) -> Result<(), Refusal>
    requires { length entry.old ≡ 10 }
    ensures { Settles (λ v. increase_balance v delta) entry.old entry.new result }
{
    let balance = add64(entry[BALANCE], delta)?;
    entry[BALANCE] = balance;
    Ok(())
}

// Stops at 0.
pub fn entry_decrease_balance(entry: &mut [u64], delta: u64)
    requires { length entry.old ≡ 10 }
    ensures { entry.new ≡ encode_one (decrease_balance (decode_one entry.old) delta) }
{
    let balance = entry[BALANCE];
    if balance < delta {
        entry[BALANCE] = 0;
        return;
    }
    entry[BALANCE] = balance - delta;
}

pub fn increase_balance(entry: &mut [u64], delta: u64) -> Result<(), Refusal>
    ensures { Closes encode_one (entry_tests entry.old) (increase_balance (decode_one entry.old) delta) entry.old
        entry.old entry.new (code_of result) }
{
    entry_tests(entry)?;
    entry_increase_balance(entry, delta)
}

pub fn decrease_balance(entry: &mut [u64], delta: u64) -> Result<(), Refusal>
    ensures { Closes encode_one (entry_tests entry.old) (value (decrease_balance (decode_one entry.old) delta)) entry.old
        entry.old entry.new (code_of result) }
{
    entry_tests(entry)?;
    entry_decrease_balance(entry, delta);
    Ok(())
}
