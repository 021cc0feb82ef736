// The registry loop, by the few numbers that a turn reads of rules, slot and registry.
ghost use Rattle.std.specs.Prelude.{◌≡◌, ◌*◌, ◌^◌, ◌<◌, length};
ghost use Rattle.definitions.specs.Record.{decode_one, decode};
ghost use Rattle.electra_registry.specs.Turns.{is_queued, is_ejected_by, turn_by, Turns};
ghost use Rattle.electra_registry.specs.Updates.{exiting, updates_by, Moves};

use crate::exits::exit_by_balance;
use definitions::{
    ACTIVATION_ELIGIBILITY_EPOCH, ACTIVATION_EPOCH, EFFECTIVE_BALANCE, FAR_FUTURE_EPOCH, Refusal,
};
use definitions_electra::ExitChurn;
use entries::{entry_is_active, entry_is_eligible_for_activation};

// What a turn reads besides the validator and the churn: `least` is the activation exit epoch of the present epoch.
#[derive(Clone, Copy)]
pub struct RegistryNumbers {
    pub epoch: u64,
    pub finalized_epoch: u64,
    pub least: u64,
    pub limit: u64,
    pub delay: u64,
    pub min_activation_balance: u64,
    pub ejection_balance: u64,
}

fn entry_is_queued(n: RegistryNumbers, entry: &[u64]) -> bool
    requires { length entry.now ≡ 10 }
    ensures { result ≡ is_queued n (decode_one entry.now) }
{
    if entry[ACTIVATION_ELIGIBILITY_EPOCH] != FAR_FUTURE_EPOCH {
        return false;
    }
    n.min_activation_balance <= entry[EFFECTIVE_BALANCE]
}

fn entry_is_ejected(n: RegistryNumbers, entry: &[u64]) -> bool
    requires { length entry.now ≡ 10 }
    ensures { result ≡ is_ejected_by n (decode_one entry.now) }
{
    if !entry_is_active(entry, n.epoch) {
        return false;
    }
    entry[EFFECTIVE_BALANCE] <= n.ejection_balance
}

// One validator's turn: the first of the three cases that holds.
pub fn update_entry(
    entry: &mut [u64],
    n: RegistryNumbers,
    churn: ExitChurn,
) -> Result<ExitChurn, Refusal>
    requires { (length entry.old ≡ 10) × (n.epoch < 2 ^ 48) }
    ensures { Turns (turn_by n churn) churn entry.old entry.new result }
{
    if entry_is_queued(n, &entry[..]) {
        entry[ACTIVATION_ELIGIBILITY_EPOCH] = n.epoch + 1;
        return Ok(churn);
    }
    if entry_is_ejected(n, &entry[..]) {
        return exit_by_balance(entry, churn, n.least, n.limit, n.delay);
    }
    if entry_is_eligible_for_activation(n.finalized_epoch, &entry[..]) {
        entry[ACTIVATION_EPOCH] = n.least;
    }
    Ok(churn)
}

// In register order, carrying the two numbers of the exit queue. On refusal the registry is left half done.
pub fn update_all(
    n: RegistryNumbers,
    first: ExitChurn,
    registry: &mut [u64],
    count: usize,
) -> Result<ExitChurn, Refusal>
    requires { (length registry.old ≡ 10 * count) × (n.epoch < 2 ^ 48) }
    ensures { Moves (updates_by n (exiting (decode registry.old) first)) registry.new result }
{
    let mut churn = first;
    for i in 0..count {
        let a = 10 * i;
        let b = a + 10;
        churn = update_entry(&mut registry[a..b], n, churn)?;
    }
    Ok(churn)
}
