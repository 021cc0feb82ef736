// The library's answers as plain numbers, for callers that have no enum: 0 and what was asked for, or a refusal's number and zeros.
#![tactic(auto)]

ghost use Rattle.std.specs.Prelude.{◌≡◌};
ghost use Rattle.definitions.specs.Plain.{plain_number, plain_truth, plain_deltas, plain_total};
ghost use Rattle.definitions.specs.NetChange.{plain_change};
ghost use Rattle.root_parts.specs.Root.{root_given};

use definitions::{
    Deltas, PlainChange, PlainDeltas, PlainNumber, PlainRoot, PlainTotal, PlainTruth, Refusal,
    Total,
};
use root_parts::root_copy;

pub fn plain_number(number: Result<u64, Refusal>) -> PlainNumber
    ensures { result ≡ plain_number number }
{
    match number {
        Ok(value) => PlainNumber { refusal: 0, value },
        Err(refusal) => {
            let refusal = refusal.number();
            PlainNumber { refusal, value: 0 }
        }
    }
}

pub fn plain_truth(truth: Result<bool, Refusal>) -> PlainTruth
    ensures { result ≡ plain_truth truth }
{
    match truth {
        Ok(holds) => PlainTruth {
            refusal: 0,
            value: holds as u64,
        },
        Err(refusal) => {
            let refusal = refusal.number();
            PlainTruth { refusal, value: 0 }
        }
    }
}

pub fn plain_deltas(deltas: Result<Deltas, Refusal>) -> PlainDeltas
    ensures { result ≡ plain_deltas deltas }
{
    match deltas {
        Ok(deltas) => PlainDeltas {
            refusal: 0,
            reward: deltas.reward,
            penalty: deltas.penalty,
        },
        Err(refusal) => PlainDeltas {
            refusal: refusal.number(),
            reward: 0,
            penalty: 0,
        },
    }
}

pub fn plain_total(total: Result<Total, Refusal>) -> PlainTotal
    ensures { result ≡ plain_total total }
{
    match total {
        Ok(total) => PlainTotal {
            refusal: 0,
            balance: total.balance,
            raised: total.raised,
        },
        Err(refusal) => PlainTotal {
            refusal: refusal.number(),
            balance: 0,
            raised: 0,
        },
    }
}

// A lookup's number and the part of the roots that it found, which is empty where it is refused.
pub fn plain_root(refusal: u64, part: &[u8]) -> PlainRoot
    ensures { result ≡ root_given refusal part.now }
{
    if part.len() != 32 {
        return PlainRoot {
            refusal,
            root: [0u8; 32],
        };
    }
    let root = root_copy(part);
    PlainRoot { refusal, root }
}

pub fn plain_change(change: Result<i64, Refusal>) -> PlainChange
    ensures { result ≡ plain_change change }
{
    match change {
        Ok(value) => PlainChange { refusal: 0, value },
        Err(refusal) => {
            let refusal = refusal.number();
            PlainChange { refusal, value: 0 }
        }
    }
}
