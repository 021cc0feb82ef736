// process_pending_deposits. A refusal leaves what stands behind the opening untouched, so that those whom the deposits add are written behind it after
// the loop, of the deposits that it did.
ghost use Rattle.std.specs.Prelude.{◌≡◌, true, cond, ◌*◌, ◌/◌, ◌≤◌, ◌<◌, length};
ghost use Rattle.definitions.specs.Record.{decode, FAR_FUTURE_EPOCH};
ghost use Rattle.definitions.specs.Checked.{value, bind, sub64};
ghost use Rattle.definitions.specs.Refusals.{good_settings};
ghost use Rattle.definitions_electra.specs.Record.{decode_deposits};
ghost use Rattle.definitions_electra.specs.Refusals.{deposits_tests};
ghost use Rattle.definitions_electra.specs.Calls.{over, deposits_work, DepositsClose};
ghost use Rattle.definitions_electra.specs.Evaluated.Electra.EpochProcessing.{queueing};
ghost use Rattle.electra_deposits.specs.Alone.{queueing_of, alone};
ghost use Rattle.electra_deposits.specs.Room.{rules_by};
ghost use Rattle.electra_deposits.specs.Step.{numbers_by, new_of, lent_for, lent_registry, Lent, Fronted, Finished, left_by, step_by, Runs, as_opened};

use crate::adding::{NewNumbers, add_deposits};
use crate::closing::{copy_front, write_queue};
use crate::{Deposited, QueueNumbers, apply_deposits};
use arithmetic::{add64, mul64, sub64};
use definitions::Refusal;
use definitions_electra::{DepositNumbers, DepositsAnswer, ElectraRules};
use electra_refusals::step_tests::deposits_tests;
use electra_registry::activation_exit_churn;
use epochs::current_epoch;

// Next epoch, limit, what is available, finalized slot: also where the queue is empty.
pub fn queue_numbers(
    rules: ElectraRules,
    state_slot: u64,
    finalized_epoch: u64,
    numbers: DepositNumbers,
    registry: &[u64],
) -> Result<QueueNumbers, Refusal>
    requires { (length registry.now ≡ 10 * (length registry.now / 10)) × (good_settings rules.settings ≡ true) }
    ensures { result ≡ bind (queueing rules (lent_for state_slot finalized_epoch numbers registry.now))
        (λ q. value (numbers_by rules.electra.max_pending_deposits_per_epoch q)) }
{
    let s = rules.settings;
    let e = rules.electra;
    let next_epoch = add64(current_epoch(s, state_slot), 1)?;
    let limit = activation_exit_churn(rules, state_slot, registry)?;
    let available = add64(numbers.deposit_balance_to_consume, limit)?;
    let finalized_slot = mul64(finalized_epoch, s.slots_per_epoch)?;
    Ok(QueueNumbers {
        next_epoch: next_epoch,
        available: available,
        finalized_slot: finalized_slot,
        most: e.max_pending_deposits_per_epoch,
        bridge_open: numbers.eth1_deposit_index < numbers.deposit_requests_start_index,
    })
}

pub fn new_numbers(rules: ElectraRules) -> NewNumbers
    ensures { result ≡ new_of rules }
{
    let s = rules.settings;
    let e = rules.electra;
    NewNumbers {
        increment: s.effective_balance_increment,
        most: e.min_activation_balance,
        most_compounding: e.max_effective_balance_electra,
    }
}

// What is carried to the next close.
pub fn left_to_consume(available: u64, processed: u64, reached: bool) -> Result<u64, Refusal>
    ensures { result ≡ cond reached (sub64 available processed) (value 0) }
{
    if reached {
        return sub64(available, processed);
    }
    Ok(0)
}

fn answer_of(refusal: u64, to_consume: u64, validators: u64, deposits: u64) -> DepositsAnswer
    ensures { result ≡ record { refusal = refusal; deposit_balance_to_consume = to_consume; validators = validators; deposits = deposits } }
{
    DepositsAnswer {
        refusal: refusal,
        deposit_balance_to_consume: to_consume,
        validators: validators,
        deposits: deposits,
    }
}

// As the opening has them.
fn opening_answer(
    refusal: Refusal,
    numbers: DepositNumbers,
    registry: &[u64],
    deposits: &[u64],
) -> DepositsAnswer
    ensures { result ≡ as_opened refusal numbers registry.now deposits.now }
{
    let n = registry.len() / 10;
    let d = deposits.len() / 5;
    answer_of(
        refusal.number(),
        numbers.deposit_balance_to_consume,
        n as u64,
        d as u64,
    )
}

// The loop, on the opening at the front of the closing registry.
fn run_alone(
    q: QueueNumbers,
    registry: &[u64],
    deposits: &[u64],
    closing_registry: &mut [u64],
) -> Result<Deposited, Refusal>
    requires { (length registry.now ≡ 10 * (length registry.now / 10)) × (length registry.now ≤ length closing_registry.old) }
    ensures { Fronted (alone q registry.now deposits.now) (length registry.now) closing_registry.old
        closing_registry.new result }
{
    copy_front(registry, closing_registry);
    let a = registry.len();
    apply_deposits(&mut closing_registry[0..a], deposits, q)
}

// Once nothing can be refused any more: those added, and the closing queue. `index` deposits are done.
fn finish(
    next_epoch: u64,
    k: NewNumbers,
    registry: &[u64],
    compounding: &[u64],
    deposits: &[u64],
    closing_registry: &mut [u64],
    closing_compounding: &mut [u64],
    closing_deposits: &mut [u64],
    places: &mut [u64],
    index: usize,
    carried: u64,
) -> DepositsAnswer
    requires lent { Lent registry.now compounding.now deposits.now closing_registry.old closing_compounding.old places.old }
    requires increment_nonzero { (0 < k.increment) × (length closing_deposits.old ≡ length deposits.now) × (index ≤ length deposits.now / 5) }
    ensures { Finished next_epoch k registry.now deposits.now index carried closing_registry.old
        (over compounding.now closing_compounding.old) closing_deposits.old
        closing_registry.new closing_compounding.new closing_deposits.new result }
{
    copy_front(compounding, closing_compounding);
    places.fill(0);
    let n = (registry.len() / 10) as u64;
    let count = add_deposits(
        closing_registry,
        closing_compounding,
        places,
        deposits,
        n,
        index,
        k,
    );
    let left = write_queue(registry, next_epoch, deposits, index, closing_deposits);
    answer_of(0, carried, count as u64, left as u64)
}

// On refusal the opening may be put back in front of what stands behind.
fn run_queue(
    q: QueueNumbers,
    k: NewNumbers,
    registry: &[u64],
    compounding: &[u64],
    deposits: &[u64],
    closing_registry: &mut [u64],
    closing_compounding: &mut [u64],
    closing_deposits: &mut [u64],
    places: &mut [u64],
) -> Result<DepositsAnswer, Refusal>
    requires lent { Lent registry.now compounding.now deposits.now closing_registry.old closing_compounding.old places.old }
    requires increment_nonzero { (0 < k.increment) × (length closing_deposits.old ≡ length deposits.now) × (q.next_epoch ≤ FAR_FUTURE_EPOCH) }
    ensures { Runs (left_by (rules_by k q.most) (queueing_of q) (lent_registry registry.now compounding.now)
        (decode_deposits deposits.now))
        registry.now compounding.now closing_registry.old closing_compounding.old
        closing_deposits.old
        closing_registry.new closing_compounding.new closing_deposits.new result }
{
    let done = run_alone(q, registry, deposits, closing_registry)?;
    let carried = left_to_consume(q.available, done.processed, done.reached)?;
    Ok(finish(
        q.next_epoch,
        k,
        registry,
        compounding,
        deposits,
        closing_registry,
        closing_compounding,
        closing_deposits,
        places,
        done.index,
        carried,
    ))
}

fn run_deposits(
    rules: ElectraRules,
    state_slot: u64,
    finalized_epoch: u64,
    numbers: DepositNumbers,
    registry: &[u64],
    compounding: &[u64],
    deposits: &[u64],
    closing_registry: &mut [u64],
    closing_compounding: &mut [u64],
    closing_deposits: &mut [u64],
    places: &mut [u64],
) -> Result<DepositsAnswer, Refusal>
    requires lent { Lent registry.now compounding.now deposits.now closing_registry.old closing_compounding.old places.old }
    requires settings_value { (good_settings rules.settings ≡ true) × (length closing_deposits.old ≡ length deposits.now) }
    ensures { Runs (step_by rules state_slot finalized_epoch numbers registry.now compounding.now deposits.now)
        registry.now compounding.now closing_registry.old closing_compounding.old
        closing_deposits.old
        closing_registry.new closing_compounding.new closing_deposits.new result }
{
    let q = queue_numbers(rules, state_slot, finalized_epoch, numbers, registry)?;
    let k = new_numbers(rules);
    run_queue(
        q,
        k,
        registry,
        compounding,
        deposits,
        closing_registry,
        closing_compounding,
        closing_deposits,
        places,
    )
}

// The step without its tests. On refusal the opening stands at the front of the three buffers.
pub fn deposits_core(
    rules: ElectraRules,
    state_slot: u64,
    finalized_epoch: u64,
    numbers: DepositNumbers,
    registry: &[u64],
    compounding: &[u64],
    deposits: &[u64],
    closing_registry: &mut [u64],
    closing_compounding: &mut [u64],
    closing_deposits: &mut [u64],
    places: &mut [u64],
) -> DepositsAnswer
    requires lent { Lent registry.now compounding.now deposits.now closing_registry.old closing_compounding.old places.old }
    requires settings_value { (good_settings rules.settings ≡ true) × (length closing_deposits.old ≡ length deposits.now) }
    ensures { DepositsClose (value tt)
        (deposits_work rules state_slot finalized_epoch numbers registry.now compounding.now deposits.now) numbers
        registry.now compounding.now deposits.now closing_registry.old closing_registry.new
        closing_compounding.old closing_compounding.new closing_deposits.old closing_deposits.new result }
{
    let refusal = match run_deposits(
        rules,
        state_slot,
        finalized_epoch,
        numbers,
        registry,
        compounding,
        deposits,
        closing_registry,
        closing_compounding,
        closing_deposits,
        places,
    ) {
        Ok(answer) => return answer,
        Err(refusal) => refusal,
    };
    copy_front(registry, closing_registry);
    copy_front(compounding, closing_compounding);
    copy_front(deposits, closing_deposits);
    opening_answer(refusal, numbers, registry, deposits)
}

// `places` is the working list of the keys: any contents before and afterwards.
pub fn process_pending_deposits(
    rules: ElectraRules,
    state_slot: u64,
    finalized_epoch: u64,
    numbers: DepositNumbers,
    registry: &[u64],
    compounding: &[u64],
    deposits: &[u64],
    closing_registry: &mut [u64],
    closing_compounding: &mut [u64],
    closing_deposits: &mut [u64],
    places: &mut [u64],
) -> DepositsAnswer
    ensures { DepositsClose
        (deposits_tests rules state_slot finalized_epoch registry.now compounding.now deposits.now
        closing_registry.old closing_compounding.old closing_deposits.old places.old)
        (deposits_work rules state_slot finalized_epoch numbers registry.now compounding.now deposits.now) numbers
        registry.now compounding.now deposits.now closing_registry.old closing_registry.new
        closing_compounding.old closing_compounding.new closing_deposits.old closing_deposits.new result }
{
    if let Err(refusal) = deposits_tests(
        rules,
        state_slot,
        finalized_epoch,
        registry,
        compounding,
        deposits,
        closing_registry,
        closing_compounding,
        closing_deposits,
        places,
    ) {
        return opening_answer(refusal, numbers, registry, deposits);
    }
    deposits_core(
        rules,
        state_slot,
        finalized_epoch,
        numbers,
        registry,
        compounding,
        deposits,
        closing_registry,
        closing_compounding,
        closing_deposits,
        places,
    )
}
