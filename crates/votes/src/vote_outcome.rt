// What votes not yet counted can come to (R-13): the finalized epochs of the four pairs of tests, rising and each once, and the two targets' verdicts.
ghost use Rattle.std.specs.Prelude.{◌≡◌, ◌+◌, ◌^◌, ◌≤◌, ◌<◌, max};
ghost use Rattle.definitions.specs.Rust.Phase0.EpochProcessing.{is_justified};
ghost use Rattle.definitions_votes.specs.Votes.{finalized_after, verdict, outcome_of};
ghost use Rattle.definitions_votes.specs.Answers.{verdict_number};
ghost use Rattle.votes.specs.Epochs.{insert_into, numbers_of};
ghost use Rattle.votes.specs.Weighed.{weighed_numbers_by, weighed_numbers};

use crate::vote_sums::VoteSums;
use definitions::{Checkpoint, Finality, Refusal, Settings};
use finality::weighed;
use totals::raised;
use weighing::is_justified;

// How many epochs, and the first three of them; 0 where there is none.
#[derive(Clone, Copy)]
pub struct Epochs {
    pub count: u64,
    pub first: u64,
    pub second: u64,
    pub third: u64,
}

// The epochs, and for each target whether its test passes: 0 in no filling, 1 in some, 2 in all.
#[derive(Clone, Copy)]
pub struct OutcomeNumbers {
    pub epochs: Epochs,
    pub previous_target: u64,
    pub current_target: u64,
}

fn finalized_after(old: Finality, epoch: u64, previous: bool, current: bool) -> u64
    requires justification_bits_bound { old.justification_bits ≤ 15 }
    requires previous_justified_checkpoint_bound { (old.previous_justified_checkpoint.epoch < 2 ^ 48) × (old.current_justified_checkpoint.epoch < 2 ^ 48) }
    ensures { result ≡ finalized_after epoch old previous current }
{
    let nothing = [0u8; 32];
    let checkpoint = Checkpoint {
        epoch: epoch,
        root: nothing,
    };
    let after = weighed(previous, current, checkpoint, checkpoint, old);
    let finalized = after.finalized_checkpoint;
    finalized.epoch
}

fn verdict_number(fewest: bool, most: bool) -> u64
    ensures { result ≡ verdict_number (verdict fewest most) }
{
    if fewest {
        return 2;
    }
    if most {
        return 1;
    }
    0
}

fn inserted(e: u64, list: Epochs) -> Epochs
    requires { list.count ≤ 3 }
    ensures is { result ≡ insert_into e list }
    ensures most { result.count ≤ list.count + 1 }
{
    if list.count == 0 {
        return Epochs {
            count: 1,
            first: e,
            second: 0,
            third: 0,
        };
    }
    if e < list.first {
        return Epochs {
            count: list.count + 1,
            first: e,
            second: list.first,
            third: list.second,
        };
    }
    if e == list.first {
        return list;
    }
    if list.count == 1 {
        return Epochs {
            count: 2,
            first: list.first,
            second: e,
            third: 0,
        };
    }
    if e < list.second {
        return Epochs {
            count: list.count + 1,
            first: list.first,
            second: e,
            third: list.second,
        };
    }
    if e == list.second {
        return list;
    }
    if list.count == 2 {
        return Epochs {
            count: 3,
            first: list.first,
            second: list.second,
            third: e,
        };
    }
    if e < list.third {
        return Epochs {
            count: list.count + 1,
            first: list.first,
            second: list.second,
            third: e,
        };
    }
    if e == list.third {
        return list;
    }
    Epochs {
        count: list.count + 1,
        first: list.first,
        second: list.second,
        third: list.third,
    }
}

fn told(
    old: Finality,
    epoch: u64,
    previous_fewest: bool,
    previous_most: bool,
    current_fewest: bool,
    current_most: bool,
) -> OutcomeNumbers
    requires justification_bits_bound { old.justification_bits ≤ 15 }
    requires previous_justified_checkpoint_bound { (old.previous_justified_checkpoint.epoch < 2 ^ 48) × (old.current_justified_checkpoint.epoch < 2 ^ 48) }
    ensures { result ≡ numbers_of (outcome_of (finalized_after epoch old) previous_fewest previous_most current_fewest current_most) }
{
    let none = Epochs {
        count: 0,
        first: 0,
        second: 0,
        third: 0,
    };
    let one = inserted(
        finalized_after(old, epoch, previous_most, current_most),
        none,
    );
    let two = inserted(
        finalized_after(old, epoch, previous_most, current_fewest),
        one,
    );
    let three = inserted(
        finalized_after(old, epoch, previous_fewest, current_most),
        two,
    );
    let list = inserted(
        finalized_after(old, epoch, previous_fewest, current_fewest),
        three,
    );
    let previous_target = verdict_number(previous_fewest, previous_most);
    let current_target = verdict_number(current_fewest, current_most);
    OutcomeNumbers {
        epochs: list,
        previous_target,
        current_target,
    }
}

// The two-thirds test of a target's plain sum.
fn passes(increment: u64, total: u64, target: u64) -> Result<bool, Refusal>
    ensures { result ≡ is_justified (max increment target) total }
{
    is_justified(raised(target, increment), total)
}

fn weigh_sums(
    increment: u64,
    total: u64,
    old: Finality,
    epoch: u64,
    sums: VoteSums,
) -> Result<OutcomeNumbers, Refusal>
    requires justification_bits_bound { old.justification_bits ≤ 15 }
    requires previous_justified_checkpoint_bound { (old.previous_justified_checkpoint.epoch < 2 ^ 48) × (old.current_justified_checkpoint.epoch < 2 ^ 48) }
    ensures { result ≡ weighed_numbers_by increment total old epoch sums }
{
    let previous_most = passes(increment, total, sums.previous_most)?;
    let current_most = passes(increment, total, sums.current_most)?;
    let previous_fewest = passes(increment, total, sums.previous_fewest)?;
    let current_fewest = passes(increment, total, sums.current_fewest)?;
    Ok(told(
        old,
        epoch,
        previous_fewest,
        previous_most,
        current_fewest,
        current_most,
    ))
}

pub fn weigh_votes(
    s: Settings,
    old: Finality,
    epoch: u64,
    sums: VoteSums,
) -> Result<OutcomeNumbers, Refusal>
    requires justification_bits_bound { old.justification_bits ≤ 15 }
    requires previous_justified_checkpoint_bound { (old.previous_justified_checkpoint.epoch < 2 ^ 48) × (old.current_justified_checkpoint.epoch < 2 ^ 48) }
    ensures { result ≡ weighed_numbers s old epoch sums }
{
    let increment = s.effective_balance_increment;
    let total = raised(sums.active, increment);
    weigh_sums(increment, total, old, epoch, sums)
}
