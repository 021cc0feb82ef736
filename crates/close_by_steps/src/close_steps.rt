// The calls of a close by steps (R-9): their tests, and what the first and a later one do once these have passed.
ghost use Rattle.std.specs.Prelude.{◌≡◌, ◌≤◌};
ghost use Rattle.definitions_close.specs.FullClose.{full_tests};
ghost use Rattle.full_close.specs.Called.{full_called};
ghost use Rattle.definitions.specs.Record.{decode};
ghost use Rattle.definitions.specs.Rust.Altair.EpochProcessing.{process_justification_and_finalization};
ghost use Rattle.close_by_steps.specs.Called.{ended_answer, first_by, later_of};
ghost use Rattle.definitions_close.specs.Calls.{step_outcome};
ghost use Rattle.close_by_steps.specs.Ready.{Ready};

use crate::later_steps::later_step;
use close::record_tests;
use definitions::{ExitQueue, Finality, FullAnswer, Refusal, Rules, Settings};
use definitions_close::{Running, RunningAnswer};
use exit_queue::queue_of;
use finality::finalizing::finalizing_test;
use justification::process_justification_and_finalization;
use refusals::buffers::copy;
use totals::raising::none_raised;
use validator_exit::queue_tests::queue_refusal;
use validator_exit::see_registry;

// The tests of the whole close, of the opening or of the record so far.
pub fn whole_tests(
    rules: Rules,
    finality: Finality,
    queue: ExitQueue,
    registry: &[u64],
    slashings: &[u64],
    roots: &[u8],
    closing_registry: &[u64],
    closing_slashings: &[u64],
    amounts: &[u64],
) -> Result<(), Refusal>
    ensures { result
        ≡ full_tests
        (full_called rules finality queue registry.now slashings.now roots.now closing_registry.now
        closing_slashings.now amounts.now) }
{
    if amounts.len() != 9 * (registry.len() / 10) {
        return Err(Refusal::BadShape);
    }
    record_tests(
        rules,
        finality,
        registry,
        slashings,
        roots,
        closing_registry,
        closing_slashings,
    )?;
    let seen = see_registry(registry, 0)?;
    queue_refusal(queue, seen.queue)
}

// Ended as the whole close is refused.
pub fn ended_by(refusal: u64, finality: Finality, queue: ExitQueue, orders: u64) -> RunningAnswer
    ensures { result ≡ ended_answer refusal finality queue orders }
{
    RunningAnswer {
        refusal,
        ended: 0,
        running: Running {
            done: 9,
            answer: FullAnswer {
                refusal,
                finality,
                queue,
                raised: none_raised(),
                test: 0,
            },
            orders,
        },
    }
}

// Justification once the tests have passed, with the opening in the closing buffers.
pub fn first_tested(
    s: Settings,
    finality: Finality,
    queue: ExitQueue,
    registry: &[u64],
    slashings: &[u64],
    roots: &[u8],
    closing_registry: &mut [u64],
    closing_slashings: &mut [u64],
    amounts: &mut [u64],
) -> RunningAnswer
    requires { Ready s finality queue registry.now slashings.now roots.now closing_registry.old closing_slashings.old amounts.old }
    ensures { step_outcome result closing_registry.new closing_slashings.new amounts.new
        ≡ first_by s finality queue registry.now slashings.now amounts.old
        (process_justification_and_finalization s roots.now finality (decode registry.now)) }
{
    copy(registry, closing_registry);
    copy(slashings, closing_slashings);
    amounts.fill(0);
    let justified = process_justification_and_finalization(s, roots, finality, registry);
    let refusal = justified.refusal;
    if refusal != 0 {
        return ended_by(refusal, finality, queue, 0);
    }
    let after = justified.finality;
    let raised = justified.raised;
    let test = finalizing_test(s, finality, after);
    RunningAnswer {
        refusal: 0,
        ended: 0,
        running: Running {
            done: 1,
            answer: FullAnswer {
                refusal: 0,
                finality: after,
                queue,
                raised,
                test,
            },
            orders: 0,
        },
    }
}

// A later step once the tests of the record so far have passed. Where it is refused, the opening is put back.
pub fn later_tested(
    done: u64,
    s: Settings,
    so_far: FullAnswer,
    orders: u64,
    finality: Finality,
    queue: ExitQueue,
    registry: &[u64],
    slashings: &[u64],
    roots: &[u8],
    closing_registry: &mut [u64],
    closing_slashings: &mut [u64],
    amounts: &mut [u64],
) -> RunningAnswer
    requires le_done { (1 ≤ done) × (done ≤ 7) }
    requires ready { Ready s so_far.finality so_far.queue closing_registry.old closing_slashings.old roots.now registry.now slashings.now
        amounts.old }
    ensures { step_outcome result closing_registry.new closing_slashings.new amounts.new
        ≡ later_of done s so_far orders finality queue registry.now slashings.now roots.now
        closing_registry.old closing_slashings.old amounts.old }
{
    let present = so_far.finality;
    if let Err(refusal) = later_step(
        done,
        s,
        present,
        roots,
        closing_slashings,
        closing_registry,
        amounts,
    ) {
        copy(registry, closing_registry);
        copy(slashings, closing_slashings);
        amounts.fill(0);
        return ended_by(refusal.number(), finality, queue, orders);
    }
    let after = queue_of(closing_registry);
    let raised = so_far.raised;
    RunningAnswer {
        refusal: 0,
        ended: 0,
        running: Running {
            done: done + 1,
            answer: FullAnswer {
                refusal: 0,
                finality: present,
                queue: after,
                raised,
                test: so_far.test,
            },
            orders,
        },
    }
}
