// Votes not yet counted: what justification can still come to.
ghost use Rattle.std.specs.Prelude.{◌≡◌};
ghost use Rattle.definitions.specs.Refusals.{after_tests};
ghost use Rattle.definitions_votes.specs.Votes.{votes as votes_of, votes_tests, ballot_of};
ghost use Rattle.definitions_votes.specs.Answers.{votes_answer_for};

use definitions::{Finality, Settings};
use definitions_votes::VotesAnswer;

#[unsafe(no_mangle)]
pub extern "C" fn altair_unknown_votes(
    s: Settings,
    roots: &[u8],
    finality: Finality,
    registry: &[u64],
    marks: &[u64],
) -> VotesAnswer
    ensures { result
        ≡ votes_answer_for (after_tests (votes_tests s roots.now finality registry.now marks.now)
        (votes_of (ballot_of s roots.now finality registry.now marks.now))) }
{
    votes::unknown_votes(s, roots, finality, registry, marks)
}
