// A close that is run one step a call, and the exit orders that are taken meanwhile.
ghost use Rattle.std.specs.Prelude.{◌≡◌};
ghost use Rattle.definitions_close.specs.Orders.{take_order};
ghost use Rattle.definitions_close.specs.StoreSteps.{store_step, store_carry_out};
ghost use Rattle.definitions_close.specs.Calls.{step_outcome, order_called, order_outcome, ninth_outcome, lent, store_called, store_step_called, store_ninth_called};

use definitions::{ExitQueue, Finality};
use definitions_close::{Running, RunningAnswer};

#[unsafe(no_mangle)]
pub extern "C" fn altair_close_step(
    number: u64,
    running: Running,
    store: &[u64],
    count: u64,
    finality: Finality,
    queue: ExitQueue,
    registry: &[u64],
    slashings: &[u64],
    roots: &[u8],
    closing_registry: &mut [u64],
    closing_slashings: &mut [u64],
    amounts: &mut [u64],
) -> RunningAnswer
    ensures { step_outcome result closing_registry.new closing_slashings.new amounts.new
        ≡ store_step (store_step_called number running
        (store_called (lent store.now count) finality queue registry.now slashings.now roots.now
        closing_registry.old closing_slashings.old amounts.old)) }
{
    store_steps::store_step(
        number,
        running,
        store,
        count,
        finality,
        queue,
        registry,
        slashings,
        roots,
        closing_registry,
        closing_slashings,
        amounts,
    )
}

#[unsafe(no_mangle)]
pub extern "C" fn altair_take_order(
    running: Running,
    validator: u64,
    start: u64,
    orders: &mut [u64],
) -> RunningAnswer
    ensures { order_outcome result orders.new ≡ take_order (order_called running validator start orders.old) }
{
    orders::take_order(running, validator, start, orders)
}

#[unsafe(no_mangle)]
pub extern "C" fn altair_carry_out(
    store: &[u64],
    count: u64,
    shard_committee_period: u64,
    running: Running,
    closing_registry: &mut [u64],
    orders: &[u64],
    answers: &mut [u64],
) -> RunningAnswer
    ensures { ninth_outcome result closing_registry.new answers.new
        ≡ store_carry_out
        (store_ninth_called (lent store.now count) shard_committee_period running closing_registry.old orders.now
        answers.old) }
{
    store_steps::store_carry_out(
        store,
        count,
        shard_committee_period,
        running,
        closing_registry,
        orders,
        answers,
    )
}
