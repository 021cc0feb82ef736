// An Electra close that is refused: what it answers, and the opening put back in front of what stands behind it.
#![tactic(auto)]

ghost use Rattle.std.specs.Prelude.{◌≡◌, ◌*◌, ◌/◌, ◌≤◌, length, replicate};
ghost use Rattle.definitions.specs.Checked.{number_of};
ghost use Rattle.definitions_electra.specs.Calls.{over};
ghost use Rattle.electra_refused.specs.Outcome.{as_opened};

use definitions::{Finality, Refusal};
use definitions_electra::{DepositNumbers, ExitChurn};
use definitions_electra_close::ElectraAnswer;
use electra_deposits::closing::copy_front;
use refusals::buffers::copy;
use totals::raising::none_raised;

// As the opening has them, none raised.
pub fn opening_answer(
    refusal: Refusal,
    finality: Finality,
    churn: ExitChurn,
    numbers: DepositNumbers,
    registry: &[u64],
    deposits: &[u64],
    consolidations: &[u64],
) -> ElectraAnswer
    ensures { result ≡ as_opened (number_of refusal) finality churn numbers registry.now deposits.now consolidations.now }
{
    let n = registry.len() / 10;
    let d = deposits.len() / 5;
    let m = consolidations.len() / 2;
    ElectraAnswer {
        refusal: refusal.number(),
        finality: finality,
        raised: none_raised(),
        test: 0,
        validators: n as u64,
        deposits: d as u64,
        consolidations: m as u64,
        deposit_balance_to_consume: numbers.deposit_balance_to_consume,
        churn: churn,
    }
}

fn clear_front(list: &mut [u64], n: usize)
    requires { n ≤ length list.old }
    ensures { list.new ≡ over (replicate n 0) list.old }
{
    list[0..n].fill(0);
}

// What was worked on in place.
pub fn open_registry(
    registry: &[u64],
    compounding: &[u64],
    closing_registry: &mut [u64],
    closing_compounding: &mut [u64],
    amounts: &mut [u64],
)
    requires { (length registry.now ≤ length closing_registry.old)
        × (length compounding.now ≤ length closing_compounding.old)
        × (12 * (length registry.now / 10) ≤ length amounts.old) }
    ensures closing_registry_after { closing_registry.new ≡ over registry.now closing_registry.old }
    ensures closing_compounding_after { closing_compounding.new ≡ over compounding.now closing_compounding.old }
    ensures amounts_after { amounts.new ≡ over (replicate (12 * (length registry.now / 10)) 0) amounts.old }
{
    copy_front(registry, closing_registry);
    copy_front(compounding, closing_compounding);
    let n = registry.len() / 10;
    clear_front(amounts, 12 * n);
}

// And the lists that the close opens with the same length.
pub fn open_queues(
    slashings: &[u64],
    deposits: &[u64],
    consolidations: &[u64],
    closing_slashings: &mut [u64],
    closing_deposits: &mut [u64],
    closing_consolidations: &mut [u64],
)
    requires { (length closing_slashings.old ≡ length slashings.now)
        × (length closing_deposits.old ≡ length deposits.now)
        × (length closing_consolidations.old ≡ length consolidations.now) }
    ensures closing_slashings_after { closing_slashings.new ≡ slashings.now }
    ensures closing_deposits_after { closing_deposits.new ≡ deposits.now }
    ensures closing_consolidations_after { closing_consolidations.new ≡ consolidations.now }
{
    copy(slashings, closing_slashings);
    copy(deposits, closing_deposits);
    copy(consolidations, closing_consolidations);
}
