// Deneb's registry step and close (03, F-1): Bellatrix's, with the activation queue cut at a limit of its own.
#![tactic(auto)]

ghost use Rattle.std.specs.Prelude.{◌≡◌};
ghost use Rattle.definitions_close.specs.Calls.{full_outcome};
ghost use Rattle.definitions_close.specs.QueueCalls.{QueueCloses};
ghost use Rattle.definitions_deneb.specs.Calls.{under_bellatrix, limit_of, registry_tests, registry_work, deneb_called, deneb_close};

use definitions::{
    ActivationLimit, ExitQueue, FAR_FUTURE_EPOCH, Finality, FullAnswer, QueueAnswer, Rules,
};
use definitions_deneb::DenebRules;
use full_close::full_close;
use refusals::rules::{limit_refusal, rules_refusal};
use registry_step::{step_surveyed, step_tests};

fn under_bellatrix(rules: DenebRules) -> Rules
    ensures { result ≡ under_bellatrix rules }
{
    let s = rules.settings;
    let pair = rules.bellatrix;
    Rules {
        settings: s,
        fork: 1,
        bellatrix: pair,
    }
}

fn limit_of(rules: DenebRules) -> ActivationLimit
    ensures { result ≡ limit_of rules }
{
    ActivationLimit::AtMost(rules.max_per_epoch_activation_churn_limit)
}

pub fn process_registry_updates(
    rules: DenebRules,
    state_slot: u64,
    finalized_epoch: u64,
    queue: ExitQueue,
    opening: &[u64],
    closing: &mut [u64],
) -> QueueAnswer
    ensures { QueueCloses
        (registry_tests rules state_slot finalized_epoch queue opening.now closing.old)
        (registry_work rules state_slot finalized_epoch opening.now)
        queue opening.now closing.old closing.new result }
{
    let s = rules.settings;
    let n = opening.len() / 10;
    let under = under_bellatrix(rules);
    let limit = limit_of(rules);
    let by_settings = step_tests(n, s, state_slot, finalized_epoch, opening, &closing[..]);
    let by_rules = rules_refusal(under, by_settings);
    if let Err(refusal) = limit_refusal(limit, by_rules) {
        return QueueAnswer {
            refusal: refusal.number(),
            queue: queue,
        };
    }
    let mut kept = [FAR_FUTURE_EPOCH; 64];
    step_surveyed(
        limit,
        n,
        s,
        state_slot,
        finalized_epoch,
        queue,
        opening,
        &mut kept[0..64],
        closing,
    )
}

pub fn deneb_close(
    rules: DenebRules,
    finality: Finality,
    queue: ExitQueue,
    registry: &[u64],
    slashings: &[u64],
    roots: &[u8],
    closing_registry: &mut [u64],
    closing_slashings: &mut [u64],
    amounts: &mut [u64],
) -> FullAnswer
    ensures { full_outcome result closing_registry.new closing_slashings.new amounts.new
        ≡ deneb_close (deneb_called rules finality queue registry.now slashings.now roots.now
        closing_registry.old closing_slashings.old amounts.old) }
{
    let under = under_bellatrix(rules);
    let limit = limit_of(rules);
    full_close(
        limit,
        under,
        finality,
        queue,
        registry,
        slashings,
        roots,
        closing_registry,
        closing_slashings,
        amounts,
    )
}
