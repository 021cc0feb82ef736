// The leaves of phase0/epoch_processing.rs: finality delay and leak, and the weighing.
ghost use Rattle.std.specs.Prelude.{◌≡◌};
ghost use Rattle.definitions.specs.Answers.{finality_answer_for};
ghost use Rattle.definitions.specs.Refusals.{after_tests};
ghost use Rattle.definitions.specs.LeafRefusals.{finalized_tests, weigh_tests};
ghost use Rattle.definitions.specs.Rust.Phase0.EpochProcessing.{get_finality_delay, is_in_inactivity_leak, weigh_justification_and_finalization};
ghost use Rattle.definitions.specs.Plain.{plain_number, plain_truth};

use definitions::{Finality, FinalityAnswer, PlainNumber, PlainTruth, Settings};
use plain::{plain_number, plain_truth};

#[unsafe(no_mangle)]
pub extern "C" fn altair_get_finality_delay(
    s: Settings,
    state_slot: u64,
    finalized_epoch: u64,
) -> PlainNumber
    ensures { result
        ≡ plain_number (after_tests (finalized_tests s state_slot finalized_epoch) (get_finality_delay s state_slot finalized_epoch)) }
{
    plain_number(finality::get_finality_delay(s, state_slot, finalized_epoch))
}

#[unsafe(no_mangle)]
pub extern "C" fn altair_is_in_inactivity_leak(
    s: Settings,
    state_slot: u64,
    finalized_epoch: u64,
) -> PlainTruth
    ensures { result
        ≡ plain_truth (after_tests (finalized_tests s state_slot finalized_epoch) (is_in_inactivity_leak s state_slot finalized_epoch)) }
{
    plain_truth(finality::is_in_inactivity_leak(s, state_slot, finalized_epoch))
}

// total: of all that are active; previous and current: of those that hit the target in that epoch.
#[unsafe(no_mangle)]
pub extern "C" fn altair_weigh_justification_and_finalization(
    s: Settings,
    roots: &[u8],
    finality: Finality,
    total: u64,
    previous: u64,
    current: u64,
) -> FinalityAnswer
    ensures { result
        ≡ finality_answer_for (after_tests (weigh_tests s roots.now finality)
        (weigh_justification_and_finalization s roots.now finality total previous current)) finality }
{
    match weighing::weigh_justification_and_finalization(
        s, roots, finality, total, previous, current,
    ) {
        Ok(weighed) => FinalityAnswer {
            refusal: 0,
            finality: weighed,
        },
        Err(refusal) => FinalityAnswer {
            refusal: refusal.number(),
            finality,
        },
    }
}
