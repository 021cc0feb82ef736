// A close that is run one step a call (R-9): the call that a user makes eight times.
#![tactic(auto)]

ghost use Rattle.std.specs.Prelude.{◌≡◌, ◌≤◌};
ghost use Rattle.definitions_close.specs.CloseBySteps.{turned_away, close_step};
ghost use Rattle.full_close.specs.Called.{full_called};
ghost use Rattle.close_by_steps.specs.Called.{step_called};
ghost use Rattle.definitions_close.specs.Calls.{step_outcome};
ghost use Rattle.close_by_steps.specs.Stepped.{FirstCalled, LaterCalled};

pub mod close_steps;
pub mod later_steps;
pub mod slashings_amounts;
pub mod step_amounts;

use crate::close_steps::{ended_by, first_tested, later_tested, whole_tests};
use definitions::{ExitQueue, Finality, Refusal, Rules};
use definitions_close::{Running, RunningAnswer};
use refusals::rules::settings_under;

fn turned_away(refusal: Refusal, running: Running) -> RunningAnswer
    ensures { result ≡ turned_away refusal running }
{
    RunningAnswer {
        refusal: refusal.number(),
        ended: 0,
        running,
    }
}

// A refusal in the tests ends the close as the whole close is refused.
fn first_call(
    rules: Rules,
    finality: Finality,
    queue: ExitQueue,
    registry: &[u64],
    slashings: &[u64],
    roots: &[u8],
    closing_registry: &mut [u64],
    closing_slashings: &mut [u64],
    amounts: &mut [u64],
) -> RunningAnswer
    ensures { FirstCalled (full_called rules finality queue registry.now slashings.now roots.now closing_registry.old
        closing_slashings.old amounts.old)
        (step_outcome result closing_registry.new closing_slashings.new amounts.new) }
{
    if let Err(refusal) = whole_tests(
        rules,
        finality,
        queue,
        registry,
        slashings,
        roots,
        &closing_registry[..],
        &closing_slashings[..],
        &amounts[..],
    ) {
        return ended_by(refusal.number(), finality, queue, 0);
    }
    let s = settings_under(rules);
    first_tested(
        s,
        finality,
        queue,
        registry,
        slashings,
        roots,
        closing_registry,
        closing_slashings,
        amounts,
    )
}

// A refusal in the tests turns away the call alone.
fn later_call(
    rules: Rules,
    running: Running,
    finality: Finality,
    queue: ExitQueue,
    registry: &[u64],
    slashings: &[u64],
    roots: &[u8],
    closing_registry: &mut [u64],
    closing_slashings: &mut [u64],
    amounts: &mut [u64],
) -> RunningAnswer
    requires { (1 ≤ running.done) × (running.done ≤ 7) }
    ensures { LaterCalled running
        (full_called rules finality queue registry.now slashings.now roots.now closing_registry.old
        closing_slashings.old amounts.old)
        (step_outcome result closing_registry.new closing_slashings.new amounts.new) }
{
    let so_far = running.answer;
    let present = so_far.finality;
    let pair = so_far.queue;
    if let Err(refusal) = whole_tests(
        rules,
        present,
        pair,
        &closing_registry[..],
        &closing_slashings[..],
        roots,
        registry,
        slashings,
        &amounts[..],
    ) {
        return turned_away(refusal, running);
    }
    let s = settings_under(rules);
    later_tested(
        running.done,
        s,
        so_far,
        running.orders,
        finality,
        queue,
        registry,
        slashings,
        roots,
        closing_registry,
        closing_slashings,
        amounts,
    )
}

pub fn close_step(
    number: u64,
    rules: Rules,
    running: Running,
    finality: Finality,
    queue: ExitQueue,
    registry: &[u64],
    slashings: &[u64],
    roots: &[u8],
    closing_registry: &mut [u64],
    closing_slashings: &mut [u64],
    amounts: &mut [u64],
) -> RunningAnswer
    ensures { step_outcome result closing_registry.new closing_slashings.new amounts.new
        ≡ close_step (step_called number running
        (full_called rules finality queue registry.now slashings.now roots.now closing_registry.old
        closing_slashings.old amounts.old)) }
{
    let done = running.done;
    if done == 9 {
        return RunningAnswer {
            refusal: 0,
            ended: 1,
            running,
        };
    }
    if 7 < done {
        return turned_away(Refusal::BadShape, running);
    }
    if number != done + 1 {
        return turned_away(Refusal::BadShape, running);
    }
    if done == 0 {
        return first_call(
            rules,
            finality,
            queue,
            registry,
            slashings,
            roots,
            closing_registry,
            closing_slashings,
            amounts,
        );
    }
    later_call(
        rules,
        running,
        finality,
        queue,
        registry,
        slashings,
        roots,
        closing_registry,
        closing_slashings,
        amounts,
    )
}
