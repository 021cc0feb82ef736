// The justification step as a user calls it: with the number of the test that last set the checkpoint (R-4).
ghost use Rattle.std.specs.Prelude.{◌≡◌};
ghost use Rattle.definitions.specs.Raised.{raised_totals};
ghost use Rattle.definitions.specs.Record.{decode};
ghost use Rattle.definitions.specs.Refusals.{after_tests, justification_tests};
ghost use Rattle.definitions.specs.Rust.Altair.EpochProcessing.{process_justification_and_finalization};
ghost use Rattle.definitions_close.specs.Justification.{justification_answer_for};

use definitions::{Finality, JustificationAnswer, Settings};
use finality::finalizing::finalizing_test;

pub fn process_justification_and_finalization(
    s: Settings,
    roots: &[u8],
    finality: Finality,
    registry: &[u64],
) -> JustificationAnswer
    ensures { result
        ≡ justification_answer_for s (after_tests (justification_tests s roots.now finality registry.now)
        (process_justification_and_finalization s roots.now finality (decode registry.now))) finality
        (raised_totals s finality.slot (decode registry.now)) }
{
    let answer = crate::process_justification_and_finalization(s, roots, finality, registry);
    let after = answer.finality;
    let raised = answer.raised;
    if answer.refusal != 0 {
        return JustificationAnswer {
            refusal: answer.refusal,
            finality: after,
            raised,
            test: 0,
        };
    }
    let test = finalizing_test(s, finality, after);
    JustificationAnswer {
        refusal: 0,
        finality: after,
        raised,
        test,
    }
}
