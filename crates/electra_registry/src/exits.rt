// Exits by balance: how far an exit moves the two numbers of the exit queue, and one validator's exit. The two come back as they are afterwards.
ghost use Rattle.std.specs.Prelude.{◌≡◌, ◌<◌, length};
ghost use Rattle.definitions_electra.specs.Calls.{exit_churn_answer};
ghost use Rattle.definitions_electra.specs.Document.Electra.Helpers.{to_consume};
ghost use Rattle.definitions_electra.specs.Evaluated.Electra.Helpers.{further_epochs};
ghost use Rattle.electra_registry.specs.Turns.{churn_by, exit_with, Turns};

use arithmetic::{add64, max, mul64, sub64};
use definitions::{EFFECTIVE_BALANCE, EXIT_EPOCH, FAR_FUTURE_EPOCH, Refusal};
use definitions_electra::{ExitChurn, ExitChurnAnswer};
use exit_queue::exits::write_exit;

fn to_consume(churn: ExitChurn, earliest: u64, limit: u64) -> u64
    ensures { result ≡ to_consume earliest limit churn }
{
    if churn.earliest_exit_epoch < earliest {
        return limit;
    }
    churn.exit_balance_to_consume
}

fn further_epochs(
    earliest: u64,
    available: u64,
    limit: u64,
    balance: u64,
) -> Result<ExitChurn, Refusal>
    requires { 0 < limit }
    ensures { result ≡ further_epochs earliest available limit balance }
{
    let to_process = sub64(balance, available)?;
    let less = sub64(to_process, 1)?;
    let additional = add64(less / limit, 1)?;
    let later = add64(earliest, additional)?;
    let product = mul64(additional, limit)?;
    let more = add64(available, product)?;
    let left = sub64(more, balance)?;
    Ok(ExitChurn {
        exit_balance_to_consume: left,
        earliest_exit_epoch: later,
    })
}

// compute_exit_epoch_and_update_churn. `least` is the activation exit epoch of the present epoch, `limit` as limit_number answers it.
pub fn exit_churn(
    churn: ExitChurn,
    least: u64,
    limit: u64,
    balance: u64,
) -> Result<ExitChurn, Refusal>
    ensures { result ≡ churn_by least limit churn balance }
{
    if limit == 0 {
        return Err(Refusal::Overflow);
    }
    let earliest = max(churn.earliest_exit_epoch, least);
    let available = to_consume(churn, earliest, limit);
    if available < balance {
        return further_epochs(earliest, available, limit, balance);
    }
    Ok(ExitChurn {
        exit_balance_to_consume: available - balance,
        earliest_exit_epoch: earliest,
    })
}

// One validator's exit, on its ten numbers, which are left as lent on refusal.
pub fn exit_by_balance(
    entry: &mut [u64],
    churn: ExitChurn,
    least: u64,
    limit: u64,
    delay: u64,
) -> Result<ExitChurn, Refusal>
    requires { length entry.old ≡ 10 }
    ensures { Turns (exit_with least limit delay churn) churn entry.old entry.new result }
{
    if entry[EXIT_EPOCH] != FAR_FUTURE_EPOCH {
        return Ok(churn);
    }
    let balance = entry[EFFECTIVE_BALANCE];
    let after = exit_churn(churn, least, limit, balance)?;
    let withdrawable = add64(after.earliest_exit_epoch, delay)?;
    write_exit(entry, after.earliest_exit_epoch, withdrawable);
    Ok(after)
}

// What a call answers: the two numbers afterwards, or those that were handed in.
pub fn exit_churn_answer(done: Result<ExitChurn, Refusal>, before: ExitChurn) -> ExitChurnAnswer
    ensures { result ≡ exit_churn_answer done before }
{
    match done {
        Ok(churn) => ExitChurnAnswer {
            refusal: 0,
            churn: churn,
        },
        Err(refusal) => ExitChurnAnswer {
            refusal: refusal.number(),
            churn: before,
        },
    }
}
