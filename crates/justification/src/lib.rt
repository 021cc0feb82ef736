// process_justification_and_finalization of altair/epoch_processing.rs: three totals, each in one pass, and the weighing by them, which the
// close shares; and which of them were raised. No closing registry.
#![tactic(auto)]

ghost use Rattle.std.specs.Prelude.{◌≡◌};
ghost use Rattle.definitions.specs.Checked.{value};
ghost use Rattle.definitions.specs.LeafRefusals.{weigh_tests};
ghost use Rattle.definitions.specs.Raised.{raised_totals, close_answer_for};
ghost use Rattle.definitions.specs.Record.{decode};
ghost use Rattle.definitions.specs.Refusals.{after_tests, justification_tests};
ghost use Rattle.definitions.specs.Rust.Altair.EpochProcessing.{process_justification_and_finalization};
ghost use Rattle.justification.specs.Given.{JustifiesGiven, Justifies, JustifiesTotals};

pub mod justification_step;

use definitions::{CloseAnswer, Finality, Raised, Refusal, Settings, Total};
use epochs::roots::roots_shaped;
use epochs::{current_epoch, previous_epoch};
use refusals::{
    good_finality, good_registry, good_settings, in_order, registry_shaped, settings_shaped,
};
use totals::raising::{none_raised, raised_of};
use totals::{active_total, balance_of, participating_total};
use weighing::weigh;

pub fn justification_refusal(
    s: Settings,
    roots: &[u8],
    finality: Finality,
    registry: &[u64],
) -> Result<(), Refusal>
    ensures { result ≡ justification_tests s roots.now finality registry.now }
{
    in_order(
        &[
            settings_shaped(s),
            roots_shaped(s, roots),
            registry_shaped(registry),
        ],
        &[good_settings(s)],
        &[good_finality(finality), good_registry(registry)],
    )
}

// The weighing by the three totals of the registry, once the tests have passed. Each is an answer: it may have left 64 bits, and is wanted
// from epoch 2 on.
fn weigh_totals(
    s: Settings,
    roots: &[u8],
    old: Finality,
    total: Result<u64, Refusal>,
    previous_target: Result<u64, Refusal>,
    current_target: Result<u64, Refusal>,
) -> Result<Finality, Refusal>
    requires { weigh_tests s roots.now old ≡ value tt }
    ensures { JustifiesGiven s roots.now old total previous_target current_target result }
{
    let current = current_epoch(s, old.slot);
    if current <= 1 {
        return Ok(old);
    }
    let active = total?;
    let before = previous_target?;
    let now = current_target?;
    weigh(s, roots, old, active, before, now)
}

// What the step gives: the finality, and which of the totals were raised.
#[derive(Clone, Copy)]
pub struct Justified {
    pub finality: Finality,
    pub raised: Raised,
}

// The step by these totals.
pub fn justify(
    s: Settings,
    roots: &[u8],
    old: Finality,
    total: Result<Total, Refusal>,
    previous_target: Result<Total, Refusal>,
    current_target: Result<Total, Refusal>,
) -> Result<Justified, Refusal>
    requires { weigh_tests s roots.now old ≡ value tt }
    ensures { Justifies s roots.now old total previous_target current_target result }
{
    let finality = weigh_totals(
        s,
        roots,
        old,
        balance_of(total),
        balance_of(previous_target),
        balance_of(current_target),
    )?;
    let current = current_epoch(s, old.slot);
    let raised = raised_of(current, total, previous_target, current_target);
    Ok(Justified { finality, raised })
}

// The same, as the step and the close answer it.
pub fn justification_core(
    s: Settings,
    roots: &[u8],
    old: Finality,
    total: Result<Total, Refusal>,
    previous_target: Result<Total, Refusal>,
    current_target: Result<Total, Refusal>,
) -> CloseAnswer
    requires { weigh_tests s roots.now old ≡ value tt }
    ensures { JustifiesTotals s roots.now old total previous_target current_target result }
{
    match justify(s, roots, old, total, previous_target, current_target) {
        Ok(justified) => CloseAnswer {
            refusal: 0,
            finality: justified.finality,
            raised: justified.raised,
        },
        Err(refusal) => CloseAnswer {
            refusal: refusal.number(),
            finality: old,
            raised: none_raised(),
        },
    }
}

// Flag 1 is the target's.
pub fn process_justification_and_finalization(
    s: Settings,
    roots: &[u8],
    finality: Finality,
    registry: &[u64],
) -> CloseAnswer
    ensures { result
        ≡ close_answer_for (after_tests (justification_tests s roots.now finality registry.now)
        (process_justification_and_finalization s roots.now finality (decode registry.now))) finality
        (raised_totals s finality.slot (decode registry.now)) }
{
    if let Err(refusal) = justification_refusal(s, roots, finality, registry) {
        return CloseAnswer {
            refusal: refusal.number(),
            finality,
            raised: none_raised(),
        };
    }
    let slot = finality.slot;
    let current = current_epoch(s, slot);
    let previous = previous_epoch(s, slot);
    let total = active_total(s, current, registry);
    let previous_target = participating_total(s, current, 1, previous, registry);
    let current_target = participating_total(s, current, 1, current, registry);
    justification_core(s, roots, finality, total, previous_target, current_target)
}
