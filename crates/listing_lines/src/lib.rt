// The lines of a listing: what they tell, and their text put into lent bytes.
#![tactic(auto)]

ghost use Rattle.std.specs.Prelude.{◌≡◌, ◌*◌, ◌/◌, ◌<◌, length};
ghost use Rattle.definitions.specs.Record.{decode};
ghost use Rattle.definitions.specs.NetChange.{change_tests};
ghost use Rattle.definitions_file.specs.ListingAnswers.{head_tests, head_numbers, head_of, line_tests, line_for, line_of};
ghost use Rattle.listing_lines.specs.Told.{line_shaped, line_told};

pub mod numbers;
pub mod text;

use arithmetic::signed::net_change;
use definitions::{Finality, Refusal, Settings};
use definitions_file::{Head, Line};
use epochs::current_epoch;
use numbers::{no_head, no_line};
use refusals::{
    good_entry, good_finality, good_registry, good_settings, in_order, is_small, registry_shaped,
    settings_shaped,
};
use totals::charged_count;
use totals::raising::raised_totals;

// Of a record that has passed its tests.
pub fn head_core(s: Settings, state_slot: u64, closing: Finality, opening: &[u64]) -> Head
    requires slots_per_epoch_nonzero { 0 < s.slots_per_epoch }
    requires opening_len { length opening.now ≡ 10 * (length opening.now / 10) }
    ensures { result ≡ head_numbers s state_slot closing opening.now }
{
    let epoch = current_epoch(s, state_slot);
    let charged = charged_count(s, state_slot, opening);
    let raised = raised_totals(s, state_slot, opening);
    let justified = closing.current_justified_checkpoint;
    let finalized = closing.finalized_checkpoint;
    Head {
        refusal: 0,
        epoch,
        justified_epoch: justified.epoch,
        finalized_epoch: finalized.epoch,
        justification_bits: closing.justification_bits,
        charged,
        raised,
    }
}

fn head_tests(
    s: Settings,
    state_slot: u64,
    closing: Finality,
    opening: &[u64],
) -> Result<(), Refusal>
    ensures { result ≡ head_tests s state_slot closing opening.now }
{
    in_order(
        &[settings_shaped(s), registry_shaped(opening)],
        &[good_settings(s)],
        &[
            good_finality(closing),
            is_small(state_slot),
            good_registry(opening),
        ],
    )
}

// Of the opening's slot and registry, and of what the close made of its finality.
pub fn head(s: Settings, state_slot: u64, closing: Finality, opening: &[u64]) -> Head
    ensures { result ≡ head_of s state_slot closing opening.now }
{
    if let Err(refusal) = head_tests(s, state_slot, closing, opening) {
        return no_head(refusal.number());
    }
    head_core(s, state_slot, closing, opening)
}

// Of a validator that is known, from registries of a length.
fn line_core(opening: &[u64], closing: &[u64], index: u64) -> Line
    requires opening_len { (length opening.now ≡ 10 * (length opening.now / 10)) × (length closing.now ≡ length opening.now) }
    requires index_in_bounds { index < length opening.now / 10 }
    ensures { result ≡ line_for (line_told opening.now closing.now index) }
{
    let a = 10 * (index as usize);
    let balance_at = a + 6;
    let score_at = a + 9;
    let before = opening[balance_at];
    let after = closing[balance_at];
    let change = match net_change(before, after) {
        Ok(change) => change,
        Err(refusal) => return no_line(refusal.number()),
    };
    Line {
        refusal: 0,
        index,
        opening_balance: before,
        closing_balance: after,
        effective_balance: closing[a],
        inactivity_score: closing[score_at],
        net_change: change,
    }
}

fn line_shaped(opening: &[u64], closing: &[u64], index: u64) -> Result<(), Refusal>
    ensures { result ≡ line_shaped opening.now closing.now index }
{
    in_order(
        &[
            registry_shaped(opening),
            closing.len() == opening.len(),
            index < (opening.len() / 10) as u64,
        ],
        &[],
        &[],
    )
}

// Of the two registries nothing but the validator's own numbers is looked at.
fn line_tests(opening: &[u64], closing: &[u64], index: u64) -> Result<(), Refusal>
    ensures { result ≡ line_tests opening.now closing.now index }
{
    line_shaped(opening, closing, index)?;
    let a = 10 * (index as usize);
    let b = a + 10;
    if !good_entry(&opening[a..b]) {
        return Err(Refusal::BadRecord);
    }
    if !good_entry(&closing[a..b]) {
        return Err(Refusal::BadRecord);
    }
    Ok(())
}

// Of the validator's ten numbers in either registry.
pub fn line(opening: &[u64], closing: &[u64], index: u64) -> Line
    ensures { result ≡ line_of opening.now closing.now index }
{
    if let Err(refusal) = line_tests(opening, closing, index) {
        return no_line(refusal.number());
    }
    line_core(opening, closing, index)
}

// Whether every validator's net change fits: refused at the first that does not.
pub fn changes(opening: &[u64], closing: &[u64]) -> Result<(), Refusal>
    requires { (length opening.now ≡ 10 * (length opening.now / 10)) × (length closing.now ≡ length opening.now) }
    ensures { result ≡ change_tests (decode opening.now) (decode closing.now) }
{
    let n = opening.len() / 10;
    for i in 0..n {
        let at = 10 * i + 6;
        net_change(opening[at], closing[at])?;
    }
    Ok(())
}
