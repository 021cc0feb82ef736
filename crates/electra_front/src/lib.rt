// A close under Electra on the validators that it opened with, up to the last step that can be refused: all is written in place at the front of the
// closing buffers, and nothing behind it.
#![tactic(auto)]

ghost use Rattle.std.specs.Prelude.{◌≡◌, true, length};
ghost use Rattle.definitions_electra.specs.Refusals.{good_electra};
ghost use Rattle.electra_steps.specs.Last.{under};
ghost use Rattle.electra_sixth.specs.Named.{NoneYet};
ghost use Rattle.electra_front.specs.Later.{LaterLent, LaterRan};
ghost use Rattle.electra_front.specs.Front.{opening_of, FrontLent, FrontRan};

use definitions::{Finality, Raised, Refusal, Rules, Settings};
use definitions_electra::{DepositNumbers, ElectraRules, ExitChurn};
use electra_added::new_refusal;
use electra_first::first_five;
use electra_last::moves_and_balances;
use electra_sixth::deposits_in_front;
use refusals::rules::settings_under;

// What steps 6 to 8 answer by value: the next epoch, how many deposits are done, what is carried, and how many consolidations are done.
#[derive(Clone, Copy)]
pub struct Later {
    pub next_epoch: u64,
    pub index: usize,
    pub left: u64,
    pub done: usize,
}

// Pending deposits and consolidations with what they book, and effective balances, those of the validators to be added too. On refusal all is left
// half done.
pub fn later_three(
    rules: ElectraRules,
    state_slot: u64,
    finalized_epoch: u64,
    numbers: DepositNumbers,
    compounding: &[u64],
    deposits: &[u64],
    pairs: &[u64],
    registry: &mut [u64],
    amounts: &mut [u64],
    places: &mut [u64],
) -> Result<Later, Refusal>
    requires rules_value { good_electra rules ≡ true }
    requires later_lent { LaterLent compounding.now deposits.now pairs.now registry.old amounts.old places.old }
    requires none_yet { NoneYet (length compounding.now) amounts.old }
    ensures { LaterRan rules state_slot finalized_epoch numbers compounding.now deposits.now pairs.now
        registry.old registry.new amounts.old amounts.new result }
{
    let six = deposits_in_front(
        rules,
        state_slot,
        finalized_epoch,
        numbers,
        deposits,
        registry,
        amounts,
    )?;
    let done = moves_and_balances(rules, compounding, pairs, six.next_epoch, registry, amounts)?;
    new_refusal(rules, compounding.len(), deposits, six.index, places)?;
    Ok(Later {
        next_epoch: six.next_epoch,
        index: six.index,
        left: six.left,
        done: done,
    })
}

// The settings with the pair in place.
pub fn under(rules: ElectraRules) -> Settings
    ensures { result ≡ under rules }
{
    let settings = rules.settings;
    let pair = rules.bellatrix;
    settings_under(Rules {
        settings: settings,
        fork: 1,
        bellatrix: pair,
    })
}

// What the eight answer by value: what the first five and the later three do.
#[derive(Clone, Copy)]
pub struct Front {
    pub finality: Finality,
    pub raised: Raised,
    pub test: u64,
    pub churn: ExitChurn,
    pub next_epoch: u64,
    pub index: usize,
    pub left: u64,
    pub done: usize,
}

// `closing` and `amounts` are lent for the validators of the opening.
pub fn eight_steps(
    rules: ElectraRules,
    finality: Finality,
    churn: ExitChurn,
    numbers: DepositNumbers,
    registry: &[u64],
    compounding: &[u64],
    slashings: &[u64],
    roots: &[u8],
    deposits: &[u64],
    pairs: &[u64],
    closing: &mut [u64],
    amounts: &mut [u64],
    places: &mut [u64],
) -> Result<Front, Refusal>
    requires { FrontLent rules finality registry.now compounding.now roots.now deposits.now pairs.now closing.old amounts.old places.old }
    ensures { FrontRan rules
        (opening_of finality churn numbers registry.now compounding.now slashings.now roots.now
        deposits.now pairs.now)
        (length compounding.now) deposits.now pairs.now closing.new amounts.new result }
{
    let s = under(rules);
    let first = first_five(
        rules, s, finality, churn, registry, slashings, roots, closing, amounts,
    )?;
    let after = first.finality;
    let finalized = after.finalized_checkpoint;
    let later = later_three(
        rules,
        after.slot,
        finalized.epoch,
        numbers,
        compounding,
        deposits,
        pairs,
        closing,
        amounts,
        places,
    )?;
    Ok(Front {
        finality: after,
        raised: first.raised,
        test: first.test,
        churn: first.churn,
        next_epoch: later.next_epoch,
        index: later.index,
        left: later.left,
        done: later.done,
    })
}
