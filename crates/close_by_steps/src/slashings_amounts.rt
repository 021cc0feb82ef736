// The slashings step run alone, with the amounts that it books (R-9): each balance is kept as the ninth number, and lessened by what is left.
ghost use Rattle.std.specs.Prelude.{◌≡◌, true, [], ◌∷◌, ◌++◌, ◌*◌, ◌/◌, length, take};
ghost use Rattle.definitions.specs.Refusals.{good_settings};
ghost use Rattle.close_by_steps.specs.Taken.{SlashingsBooked, NinthsPut, NinthsTaken};

use definitions::{BALANCE, Refusal, Settings};
use rates::reward_balances::lowered_by;
use slashings::slashings_core;

fn put_ninth(x: u64, nine: &mut [u64])
    requires { length nine.old ≡ 9 }
    ensures { nine.new ≡ take 8 nine.old ++ (x ∷ []) }
{
    nine[8] = x;
}

// The balances as they stand.
fn keep_balances(registry: &[u64], amounts: &mut [u64])
    requires { (length registry.now ≡ 10 * (length registry.now / 10)) × (length amounts.old ≡ 9 * (length registry.now / 10)) }
    ensures { NinthsPut registry.now amounts.old amounts.new }
{
    let n = registry.len() / 10;
    for i in 0..n {
        let c = 9 * i;
        let d = c + 9;
        let balance = registry[10 * i + BALANCE];
        put_ninth(balance, &mut amounts[c..d]);
    }
}

// What they are less than those that were kept.
fn take_balances(registry: &[u64], amounts: &mut [u64])
    requires { (length registry.now ≡ 10 * (length registry.now / 10)) × (length amounts.old ≡ 9 * (length registry.now / 10)) }
    ensures { NinthsTaken registry.now amounts.old amounts.new }
{
    let n = registry.len() / 10;
    for i in 0..n {
        let c = 9 * i;
        let d = c + 9;
        let balance = registry[10 * i + BALANCE];
        let kept = amounts[9 * i + 8];
        let taken = lowered_by(kept, balance);
        put_ninth(taken, &mut amounts[c..d]);
    }
}

// process_slashings in place, as slashings_core of slashings.
pub fn slashings_booked(
    s: Settings,
    multiplier: u64,
    state_slot: u64,
    slashings: &[u64],
    registry: &mut [u64],
    amounts: &mut [u64],
) -> Result<(), Refusal>
    requires s_value { good_settings s ≡ true }
    requires registry_len { (length registry.old ≡ 10 * (length registry.old / 10)) × (length amounts.old ≡ 9 * (length registry.old / 10)) }
    ensures { SlashingsBooked s multiplier state_slot slashings.now registry.old registry.new amounts.old
        amounts.new result }
{
    keep_balances(&registry[..], amounts);
    slashings_core(s, multiplier, state_slot, slashings, registry)?;
    take_balances(&registry[..], amounts);
    Ok(())
}
