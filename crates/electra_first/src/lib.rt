// The first five steps of a close under Electra, from the opening to the closing registry, with the amounts that they book: R-4's nine in rows of
// twelve. One survey and one pass that writes, as Altair's close. On refusal closing registry and amounts are left half done: the caller puts the
// opening back.
#![tactic(auto)]

ghost use Rattle.std.specs.Prelude.{◌≡◌, true, ◌*◌, ◌/◌, ◌^◌, ◌<◌, length};
ghost use Rattle.definitions.specs.Record.{decode};
ghost use Rattle.definitions.specs.Checked.{value};
ghost use Rattle.definitions.specs.Rules.{in_place};
ghost use Rattle.definitions.specs.LeafRefusals.{weigh_tests};
ghost use Rattle.definitions.specs.Refusals.{good_settings, good_finality, justification_tests};
ghost use Rattle.definitions.specs.Rust.Phase0.Helpers.{get_current_epoch, get_previous_epoch};
ghost use Rattle.definitions_electra.specs.Refusals.{good_electra};
ghost use Rattle.selection.specs.Keep.{Blank};
ghost use Rattle.survey.specs.Sums.{TotalsOf};
ghost use Rattle.survey.specs.Found.{Finds};
ghost use Rattle.electra_first.specs.Numbers.{numbers_by};
ghost use Rattle.electra_first.specs.First.{four_by, FourRan, five_by, FirstRan};

use definitions::{FAR_FUTURE_EPOCH, Finality, Raised, Refusal, Settings};
use definitions_electra::{ElectraRules, ExitChurn};
use electra_amounts::spread;
use electra_registry::churn_limit;
use electra_registry::updates::RegistryNumbers;
use epochs::{current_epoch, previous_epoch};
use finality::finalizing::finalizing_test;
use justification::justify;
use registry_close::total_of;
use slashings::adjusted_balance;
use survey::{Findings, Totals, all_fit, raised_totals, survey_registry};
use write_pass::write_later;
use write_steps::{leak_of, make_plan};

// The numbers of the registry step, by the total active balance of the opening, which no step before it moves.
fn numbers_by(rules: ElectraRules, epoch: u64, finalized_epoch: u64, total: u64) -> RegistryNumbers
    requires { (good_electra rules ≡ true) × (epoch < 2 ^ 48) }
    ensures { result ≡ numbers_by rules epoch finalized_epoch total }
{
    let s = rules.settings;
    let e = rules.electra;
    let least = epoch + 1 + s.max_seed_lookahead;
    RegistryNumbers {
        epoch: epoch,
        finalized_epoch: finalized_epoch,
        least: least,
        limit: churn_limit(rules, total),
        delay: s.min_validator_withdrawability_delay,
        min_activation_balance: e.min_activation_balance,
        ejection_balance: s.ejection_balance,
    }
}

// The four over the registry in one pass, from the opening's totals: the exit queue's two numbers then.
fn four_steps(
    rules: ElectraRules,
    s: Settings,
    state_slot: u64,
    finalized_epoch: u64,
    churn: ExitChurn,
    totals: Totals,
    slashings: &[u64],
    opening: &[u64],
    closing: &mut [u64],
    amounts: &mut [u64],
) -> Result<ExitChurn, Refusal>
    requires rules_value { (good_electra rules ≡ true) × (state_slot < 2 ^ 48) × (good_settings s ≡ true) × (s ≡ in_place rules.bellatrix rules.settings) }
    requires opening_len { (length opening.now ≡ 10 * (length opening.now / 10))
        × (length closing.old ≡ length opening.now)
        × (length amounts.old ≡ 12 * (length opening.now / 10)) }
    requires totals_of { TotalsOf s (get_current_epoch s state_slot) (get_previous_epoch s state_slot) (decode opening.now) totals }
    ensures { FourRan s state_slot finalized_epoch
        (four_by rules s state_slot finalized_epoch slashings.now churn (decode opening.now))
        closing.new amounts.new result }
{
    let current = current_epoch(s, state_slot);
    let previous = previous_epoch(s, state_slot);
    let leaking = leak_of(s, current, state_slot, finalized_epoch)?;
    let multiplier = rules.bellatrix.proportional_slashing_multiplier_bellatrix;
    let adjusted = adjusted_balance(multiplier, totals.active, slashings)?;
    let increments = totals.active / s.effective_balance_increment;
    let p = make_plan(
        s,
        current,
        previous,
        leaking,
        totals,
        adjusted / increments,
        0,
        0,
    );
    let n = numbers_by(rules, current, finalized_epoch, totals.active);
    let nines = 9 * (opening.len() / 10);
    let after = write_later(s, p, n, churn, opening, closing, &mut amounts[0..nines])?;
    spread(amounts);
    Ok(after)
}

// What the first five answer by value: the finality, the raised totals, the finality test's number and the exit queue's two numbers.
#[derive(Clone, Copy)]
pub struct First {
    pub finality: Finality,
    pub raised: Raised,
    pub test: u64,
    pub churn: ExitChurn,
}

// From a survey of the opening: justification by its sums, and the four by its totals.
fn five_surveyed(
    rules: ElectraRules,
    s: Settings,
    finality: Finality,
    churn: ExitChurn,
    found: Findings,
    registry: &[u64],
    slashings: &[u64],
    roots: &[u8],
    closing: &mut [u64],
    amounts: &mut [u64],
    kept: &[u64],
) -> Result<First, Refusal>
    requires rules_value { (good_electra rules ≡ true)
        × (good_settings s ≡ true)
        × (s ≡ in_place rules.bellatrix rules.settings)
        × (good_finality finality ≡ true) }
    requires finality_value { weigh_tests s roots.now finality ≡ value tt }
    requires registry_len { (length registry.now ≡ 10 * (length registry.now / 10))
        × (length closing.old ≡ length registry.now)
        × (length amounts.old ≡ 12 * (length registry.now / 10)) }
    requires finds { Finds s (get_current_epoch s finality.slot) (get_previous_epoch s finality.slot) registry.now kept.now found }
    ensures { FirstRan s finality (decode registry.now)
        (five_by rules s finality churn (decode registry.now) slashings.now roots.now)
        closing.new amounts.new result }
{
    let increment = s.effective_balance_increment;
    let sums = found.sums;
    let over = found.over;
    let active = total_of(sums.active, over.active, increment);
    let target = total_of(sums.target, over.target, increment);
    let current_target = total_of(sums.current_target, over.current_target, increment);
    let justified = justify(s, roots, finality, active, target, current_target)?;
    if !all_fit(over) {
        return Err(Refusal::Overflow);
    }
    let after = justified.finality;
    let test = finalizing_test(s, finality, after);
    let finalized = after.finalized_checkpoint;
    let moved = four_steps(
        rules,
        s,
        after.slot,
        finalized.epoch,
        churn,
        raised_totals(sums, increment),
        slashings,
        registry,
        closing,
        amounts,
    )?;
    Ok(First {
        finality: after,
        raised: justified.raised,
        test: test,
        churn: moved,
    })
}

// `kept` has room for what a survey keeps of Altair's activation queue; here nobody reads it.
fn five_kept(
    rules: ElectraRules,
    s: Settings,
    finality: Finality,
    churn: ExitChurn,
    registry: &[u64],
    slashings: &[u64],
    roots: &[u8],
    closing: &mut [u64],
    amounts: &mut [u64],
    kept: &mut [u64],
) -> Result<First, Refusal>
    requires rules_value { (good_electra rules ≡ true)
        × (good_settings s ≡ true)
        × (s ≡ in_place rules.bellatrix rules.settings)
        × (good_finality finality ≡ true) }
    requires finality_value { weigh_tests s roots.now finality ≡ value tt }
    requires registry_len { (length registry.now ≡ 10 * (length registry.now / 10))
        × (length closing.old ≡ length registry.now)
        × (length amounts.old ≡ 12 * (length registry.now / 10)) }
    requires kept_len { (length kept.old ≡ 64) × Blank kept.old }
    ensures { FirstRan s finality (decode registry.now)
        (five_by rules s finality churn (decode registry.now) slashings.now roots.now)
        closing.new amounts.new result }
{
    let current = current_epoch(s, finality.slot);
    let previous = previous_epoch(s, finality.slot);
    let found = survey_registry(s, current, previous, registry, kept);
    five_surveyed(
        rules, s, finality, churn, found, registry, slashings, roots, closing, amounts, kept,
    )
}

// `s` is the settings with the Bellatrix pair in place; `closing` is lent for the registry.
pub fn first_five(
    rules: ElectraRules,
    s: Settings,
    finality: Finality,
    churn: ExitChurn,
    registry: &[u64],
    slashings: &[u64],
    roots: &[u8],
    closing: &mut [u64],
    amounts: &mut [u64],
) -> Result<First, Refusal>
    requires rules_value { (good_electra rules ≡ true)
        × (good_settings s ≡ true)
        × (s ≡ in_place rules.bellatrix rules.settings)
        × (good_finality finality ≡ true) }
    requires registry_value { justification_tests s roots.now finality registry.now ≡ value tt }
    requires registry_len { (length registry.now ≡ 10 * (length registry.now / 10))
        × (length closing.old ≡ length registry.now)
        × (length amounts.old ≡ 12 * (length registry.now / 10)) }
    ensures { FirstRan s finality (decode registry.now)
        (five_by rules s finality churn (decode registry.now) slashings.now roots.now)
        closing.new amounts.new result }
{
    let mut kept = [FAR_FUTURE_EPOCH; 64];
    five_kept(
        rules,
        s,
        finality,
        churn,
        registry,
        slashings,
        roots,
        closing,
        amounts,
        &mut kept[0..64],
    )
}
