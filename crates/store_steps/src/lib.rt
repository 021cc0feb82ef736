// A close by steps with a store in place of settings, fork and pair (02, R-9 with R-10): the call that is made eight times, and the ninth.
#![tactic(auto)]

ghost use Rattle.std.specs.Prelude.{◌≡◌, ◌&&◌, ◌+◌, ◌≤◌, leb, eqb};
ghost use Rattle.definitions_close.specs.Store.{rules_answer_for};
ghost use Rattle.definitions_close.specs.StoreSteps.{store_step, store_carry_out};
ghost use Rattle.definitions_close.specs.Calls.{step_outcome, ninth_outcome, lent, store_called, store_step_called, store_ninth_called};
ghost use Rattle.store_steps.specs.Called.{first_step, later_step, ninth_tests_with, ninth_rules_with};

pub mod store_close;

use close_by_steps::close_step;
use close_by_steps::close_steps::ended_by;
use definitions::{ExitQueue, Finality, Refusal};
use definitions_close::{RulesAnswer, Running, RunningAnswer};
use orders::ninth_call::carry_out;
use orders::orders_shaped;
use refusals::{in_order, is_small, registry_shaped};
use store::store_entries::{good_entries, store_shaped};
use store::store_rules::{rules_at_slot, rules_for};
use store::turned_away;

// The first call, by the opening's epoch. Where the store has no rules for it the close ends as the whole close is refused.
fn first_step(
    number: u64,
    running: Running,
    store: &[u64],
    count: u64,
    finality: Finality,
    queue: ExitQueue,
    registry: &[u64],
    slashings: &[u64],
    roots: &[u8],
    closing_registry: &mut [u64],
    closing_slashings: &mut [u64],
    amounts: &mut [u64],
) -> RunningAnswer
    requires { running.done ≡ 0 }
    ensures { step_outcome result closing_registry.new closing_slashings.new amounts.new
        ≡ first_step (store_step_called number running
        (store_called (lent store.now count) finality queue registry.now slashings.now roots.now
        closing_registry.old closing_slashings.old amounts.old)) }
{
    let found = rules_for(
        store,
        count,
        finality.slot,
        registry,
        slashings,
        roots,
        &closing_registry[..],
        &closing_slashings[..],
        &amounts[..],
    );
    let refusal = found.refusal;
    if refusal != 0 {
        return ended_by(refusal, finality, queue, 0);
    }
    close_step(
        number,
        found.rules,
        running,
        finality,
        queue,
        registry,
        slashings,
        roots,
        closing_registry,
        closing_slashings,
        amounts,
    )
}

// A later one, by the epoch of the record so far. Where the store has no rules for it the call alone is turned away.
fn later_step(
    number: u64,
    so_far: Running,
    store: &[u64],
    count: u64,
    finality: Finality,
    queue: ExitQueue,
    registry: &[u64],
    slashings: &[u64],
    roots: &[u8],
    closing_registry: &mut [u64],
    closing_slashings: &mut [u64],
    amounts: &mut [u64],
) -> RunningAnswer
    requires { 1 ≤ so_far.done }
    ensures { step_outcome result closing_registry.new closing_slashings.new amounts.new
        ≡ later_step (store_step_called number so_far
        (store_called (lent store.now count) finality queue registry.now slashings.now roots.now
        closing_registry.old closing_slashings.old amounts.old)) }
{
    let answer = so_far.answer;
    let present = answer.finality;
    let found = rules_for(
        store,
        count,
        present.slot,
        &closing_registry[..],
        &closing_slashings[..],
        roots,
        registry,
        slashings,
        &amounts[..],
    );
    let refusal = found.refusal;
    if refusal != 0 {
        return RunningAnswer {
            refusal,
            ended: 0,
            running: so_far,
        };
    }
    close_step(
        number,
        found.rules,
        so_far,
        finality,
        queue,
        registry,
        slashings,
        roots,
        closing_registry,
        closing_slashings,
        amounts,
    )
}

// The step that comes next, and no ninth.
fn in_turn(number: u64, done: u64) -> bool
    ensures { result ≡ (eqb number (done + 1) && leb number 8) }
{
    if 7 < done {
        return false;
    }
    number == done + 1
}

pub fn store_step(
    number: u64,
    running: Running,
    store: &[u64],
    count: u64,
    finality: Finality,
    queue: ExitQueue,
    registry: &[u64],
    slashings: &[u64],
    roots: &[u8],
    closing_registry: &mut [u64],
    closing_slashings: &mut [u64],
    amounts: &mut [u64],
) -> RunningAnswer
    ensures { step_outcome result closing_registry.new closing_slashings.new amounts.new
        ≡ store_step (store_step_called number running
        (store_called (lent store.now count) finality queue registry.now slashings.now roots.now
        closing_registry.old closing_slashings.old amounts.old)) }
{
    let done = running.done;
    if done == 9 {
        return RunningAnswer {
            refusal: 0,
            ended: 1,
            running,
        };
    }
    if !in_turn(number, done) {
        return orders::turned_away(Refusal::BadShape, running);
    }
    if done == 0 {
        return first_step(
            number,
            running,
            store,
            count,
            finality,
            queue,
            registry,
            slashings,
            roots,
            closing_registry,
            closing_slashings,
            amounts,
        );
    }
    later_step(
        number,
        running,
        store,
        count,
        finality,
        queue,
        registry,
        slashings,
        roots,
        closing_registry,
        closing_slashings,
        amounts,
    )
}

// Tests 1 and 2 of all that is lent to the ninth call.
fn ninth_tests(
    store: &[u64],
    count: u64,
    period: u64,
    taken: u64,
    registry: &[u64],
    orders: &[u64],
    answers: &[u64],
) -> Result<(), Refusal>
    ensures { result ≡ ninth_tests_with (lent store.now count) period taken registry.now orders.now answers.now }
{
    let n = count as usize;
    if store.len() / 23 < n {
        return Err(Refusal::BadShape);
    }
    in_order(
        &[
            store_shaped(store, count),
            registry_shaped(registry),
            orders_shaped(taken, orders),
            answers.len() == orders.len() / 2,
        ],
        &[good_entries(store, n), is_small(period)],
        &[],
    )
}

// The rules that it goes by: or 1, 2 or 13.
fn ninth_rules(
    store: &[u64],
    count: u64,
    period: u64,
    slot: u64,
    taken: u64,
    registry: &[u64],
    orders: &[u64],
    answers: &[u64],
) -> RulesAnswer
    ensures { result
        ≡ rules_answer_for
        (ninth_rules_with (lent store.now count) period slot taken registry.now orders.now answers.now) }
{
    if let Err(refusal) = ninth_tests(store, count, period, taken, registry, orders, answers) {
        return turned_away(refusal.number());
    }
    rules_at_slot(store, count as usize, slot)
}

pub fn store_carry_out(
    store: &[u64],
    count: u64,
    shard_committee_period: u64,
    running: Running,
    closing_registry: &mut [u64],
    orders: &[u64],
    answers: &mut [u64],
) -> RunningAnswer
    ensures { ninth_outcome result closing_registry.new answers.new
        ≡ store_carry_out
        (store_ninth_called (lent store.now count) shard_committee_period running closing_registry.old orders.now
        answers.old) }
{
    let done = running.done;
    if done == 9 {
        return RunningAnswer {
            refusal: 0,
            ended: 1,
            running,
        };
    }
    if done != 8 {
        return orders::turned_away(Refusal::BadShape, running);
    }
    let so_far = running.answer;
    let finality = so_far.finality;
    let found = ninth_rules(
        store,
        count,
        shard_committee_period,
        finality.slot,
        running.orders,
        &closing_registry[..],
        orders,
        &answers[..],
    );
    let refusal = found.refusal;
    if refusal != 0 {
        return RunningAnswer {
            refusal,
            ended: 0,
            running,
        };
    }
    carry_out(
        found.rules,
        shard_committee_period,
        running,
        closing_registry,
        orders,
        answers,
    )
}
