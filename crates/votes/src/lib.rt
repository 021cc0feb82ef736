// Votes not yet counted (document 02, R-13): which epochs justification can still finalize, and whether each target's two-thirds test
// passes, whatever the unknown target flags turn out to be.
#![tactic(auto)]

ghost use Rattle.std.specs.Prelude.{◌≡◌};
ghost use Rattle.definitions.specs.Checked.{value};
ghost use Rattle.definitions.specs.Lists.{all};
ghost use Rattle.definitions.specs.Refusals.{after_tests};
ghost use Rattle.definitions_votes.specs.Votes.{votes, votes_tests, ballot_of};
ghost use Rattle.definitions_votes.specs.Answers.{votes_answer_for};
ghost use Rattle.votes.specs.Epochs.{numbers_for};

pub mod vote_outcome;
pub mod vote_sums;

use crate::vote_outcome::{Epochs, OutcomeNumbers, weigh_votes};
use crate::vote_sums::count_votes;
use definitions::{Finality, Refusal, Settings};
use definitions_votes::VotesAnswer;
use epochs::roots::{epoch_root, roots_shaped};
use epochs::{current_epoch, previous_epoch};
use refusals::{
    all_below, good_finality, good_registry, good_settings, in_order, registry_shaped,
    settings_shaped,
};

pub fn votes_refusal(
    s: Settings,
    roots: &[u8],
    finality: Finality,
    registry: &[u64],
    marks: &[u64],
) -> Result<(), Refusal>
    ensures { result ≡ votes_tests s roots.now finality registry.now marks.now }
{
    in_order(
        &[
            settings_shaped(s),
            roots_shaped(s, roots),
            registry_shaped(registry),
            marks.len() == registry.len() / 10,
        ],
        &[good_settings(s)],
        &[
            good_finality(finality),
            good_registry(registry),
            all_below(marks, 4),
        ],
    )
}

// What is worked out once the tests have passed. Both roots must be there, also where no vote asks for them.
fn votes_core(
    s: Settings,
    roots: &[u8],
    old: Finality,
    registry: &[u64],
    marks: &[u64],
) -> Result<OutcomeNumbers, Refusal>
    requires { votes_tests s roots.now old registry.now marks.now ≡ value tt }
    ensures { result ≡ numbers_for (votes (ballot_of s roots.now old registry.now marks.now)) }
{
    let slot = old.slot;
    let current = current_epoch(s, slot);
    if current <= 1 {
        let finalized = old.finalized_checkpoint;
        return Ok(OutcomeNumbers {
            epochs: Epochs {
                count: 1,
                first: finalized.epoch,
                second: 0,
                third: 0,
            },
            previous_target: 0,
            current_target: 0,
        });
    }
    let previous = previous_epoch(s, slot);
    epoch_root(s, roots, slot, previous)?;
    epoch_root(s, roots, slot, current)?;
    let sums = count_votes(current, previous, registry, marks)?;
    weigh_votes(s, old, current, sums)
}

fn votes_after_tests(
    s: Settings,
    roots: &[u8],
    finality: Finality,
    registry: &[u64],
    marks: &[u64],
) -> Result<OutcomeNumbers, Refusal>
    ensures { result
        ≡ after_tests (votes_tests s roots.now finality registry.now marks.now)
        (numbers_for (votes (ballot_of s roots.now finality registry.now marks.now))) }
{
    votes_refusal(s, roots, finality, registry, marks)?;
    votes_core(s, roots, finality, registry, marks)
}

pub fn unknown_votes(
    s: Settings,
    roots: &[u8],
    finality: Finality,
    registry: &[u64],
    marks: &[u64],
) -> VotesAnswer
    ensures { result
        ≡ votes_answer_for (after_tests (votes_tests s roots.now finality registry.now marks.now)
        (votes (ballot_of s roots.now finality registry.now marks.now))) }
{
    match votes_after_tests(s, roots, finality, registry, marks) {
        Ok(outcome) => {
            let epochs = outcome.epochs;
            VotesAnswer {
                refusal: 0,
                count: epochs.count,
                finalized_epochs: [epochs.first, epochs.second, epochs.third],
                previous_target: outcome.previous_target,
                current_target: outcome.current_target,
            }
        }
        Err(refusal) => VotesAnswer {
            refusal: refusal.number(),
            count: 0,
            finalized_epochs: [0u64; 3],
            previous_target: 0,
            current_target: 0,
        },
    }
}
