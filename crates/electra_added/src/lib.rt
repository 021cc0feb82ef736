// Whether step 8 of a close under Electra refuses at one of those whom the deposits add, before they are written.
#![tactic(auto)]

ghost use Rattle.std.specs.Prelude.{◌≡◌, true, cond, ◌&&◌, ◌/◌, ◌≤◌, eqb, length};
ghost use Rattle.definitions.specs.Checked.{value, refused};
ghost use Rattle.definitions.specs.declared.Refusal.TheVariants.{Overflow};
ghost use Rattle.definitions_electra.specs.Refusals.{good_electra};
ghost use Rattle.electra_deposits.specs.Room.{keyed};
ghost use Rattle.electra_added.specs.New.{NewRefusal};

use balances::effective_balances::hysteresis;
use definitions::Refusal;
use definitions_electra::ElectraRules;
use electra_deposits::step::new_numbers;
use electra_deposits::testing::new_pass;

// Whoever is added where thresholds leave 64 bits is refused.
fn tested(added: u64, fits: bool) -> Result<(), Refusal>
    ensures { result ≡ cond (eqb added 0 && fits) (value tt) (refused Overflow) }
{
    if added != 0 {
        return Err(Refusal::Overflow);
    }
    if fits {
        return Ok(());
    }
    Err(Refusal::Overflow)
}

// The first `index` deposits are done. `places` is a working list: any contents before and afterwards.
pub fn new_refusal(
    rules: ElectraRules,
    n: usize,
    deposits: &[u64],
    index: usize,
    places: &mut [u64],
) -> Result<(), Refusal>
    requires rules_value { (good_electra rules ≡ true) × (keyed n deposits.now ≡ true) }
    requires index_in_bounds { (index ≤ length deposits.now / 5) × (length places.old ≡ length deposits.now / 5) }
    ensures { NewRefusal rules n deposits.now index result }
{
    places.fill(0);
    let k = new_numbers(rules);
    let Ok(t) = hysteresis(rules.settings) else {
        // they are only counted
        let counted = new_pass(deposits, n as u64, index, k, 0, 0, places);
        return tested(counted.added, counted.fits);
    };
    let passed = new_pass(deposits, n as u64, index, k, t.downward, t.upward, places);
    tested(0, passed.fits)
}
