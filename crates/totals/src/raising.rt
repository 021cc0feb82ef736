// Which of the three totals that justification weighs were raised to one increment: 1 or 0 each, nothing up to epoch 1 and on refusal.
ghost use Rattle.std.specs.Prelude.{◌≡◌, ◌*◌, ◌/◌, ◌<◌, length};
ghost use Rattle.definitions.specs.Record.{decode};
ghost use Rattle.definitions.specs.Raised.{none_raised, raised_totals, close_answer_for};
ghost use Rattle.totals.specs.Flags.{flag_for, raised_of};

use crate::{active_total, participating_total};
use definitions::{CloseAnswer, Finality, Raised, Refusal, Settings, Total};
use epochs::{current_epoch, previous_epoch};

pub fn none_raised() -> Raised
    ensures { result ≡ none_raised }
{
    Raised {
        active: 0,
        previous: 0,
        current: 0,
    }
}

// A sum that has left 64 bits is not below the increment.
fn flag_of(answer: Result<Total, Refusal>) -> u64
    ensures { result ≡ flag_for answer }
{
    match answer {
        Ok(total) => total.raised,
        Err(_) => 0,
    }
}

// From the three totals of a registry, for callers that have them.
pub fn raised_of(
    current_epoch: u64,
    active: Result<Total, Refusal>,
    previous: Result<Total, Refusal>,
    current: Result<Total, Refusal>,
) -> Raised
    ensures { result ≡ raised_of current_epoch active previous current }
{
    if current_epoch <= 1 {
        return none_raised();
    }
    Raised {
        active: flag_of(active),
        previous: flag_of(previous),
        current: flag_of(current),
    }
}

// Of a registry that has passed its tests. Flag 1 is the target's.
pub fn raised_totals(s: Settings, state_slot: u64, registry: &[u64]) -> Raised
    requires slots_per_epoch_nonzero { 0 < s.slots_per_epoch }
    requires registry_len { length registry.now ≡ 10 * (length registry.now / 10) }
    ensures { result ≡ raised_totals s state_slot (decode registry.now) }
{
    let now = current_epoch(s, state_slot);
    let before = previous_epoch(s, state_slot);
    let active = active_total(s, now, registry);
    let previous = participating_total(s, now, 1, before, registry);
    let current = participating_total(s, now, 1, now, registry);
    raised_of(now, active, previous, current)
}

// The answer of justification and of the close: on refusal the finality handed in, and nothing was raised.
pub fn answer_with(
    answered: Result<Finality, Refusal>,
    old: Finality,
    raised: Raised,
) -> CloseAnswer
    ensures { result ≡ close_answer_for answered old raised }
{
    match answered {
        Ok(finality) => CloseAnswer {
            refusal: 0,
            finality,
            raised,
        },
        Err(refusal) => CloseAnswer {
            refusal: refusal.number(),
            finality: old,
            raised: none_raised(),
        },
    }
}
