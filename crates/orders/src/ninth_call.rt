// The ninth call of a close by steps: its tests, and the orders carried out in order of arrival.
ghost use Rattle.std.specs.Prelude.{◌≡◌};
ghost use Rattle.definitions_close.specs.Orders.{ninth_tests, carry_out};
ghost use Rattle.definitions_close.specs.Calls.{ninth_called, ninth_outcome};
ghost use Rattle.orders.specs.Ninth.{lent_tests, Ready, carried_under};

use crate::{orders_shaped, try_all, turned_away};
use definitions::{Finality, FullAnswer, Refusal, Rules, Settings};
use definitions_close::{Running, RunningAnswer};
use epochs::current_epoch;
use refusals::rules::{rules_refusal, settings_under};
use refusals::{
    good_finality, good_settings, in_order, is_small, registry_shaped, settings_shaped,
};
use totals::churn_limit;
use validator_exit::queue_tests::queue_refusal;
use validator_exit::see_registry;

// Tests 1 and 2, and 3 of the finality so far.
fn lent_tests(
    rules: Rules,
    period: u64,
    finality: Finality,
    count: u64,
    registry: &[u64],
    orders: &[u64],
    answers: &[u64],
) -> Result<(), Refusal>
    ensures { result ≡ lent_tests rules period finality count registry.now orders.now answers.now }
{
    let s = rules.settings;
    let by_settings = in_order(
        &[
            settings_shaped(s),
            registry_shaped(registry),
            orders_shaped(count, orders),
            answers.len() == orders.len() / 2,
        ],
        &[good_settings(s), is_small(period)],
        &[good_finality(finality)],
    );
    rules_refusal(rules, by_settings)
}

// And with 3 of the registry's entries and 8, from one pass.
fn ninth_tests(
    rules: Rules,
    period: u64,
    running: Running,
    registry: &[u64],
    orders: &[u64],
    answers: &[u64],
) -> Result<(), Refusal>
    ensures { result ≡ ninth_tests (ninth_called rules period running registry.now orders.now answers.now) }
{
    let so_far = running.answer;
    let finality = so_far.finality;
    let count = running.orders;
    lent_tests(rules, period, finality, count, registry, orders, answers)?;
    let seen = see_registry(registry, 0)?;
    queue_refusal(so_far.queue, seen.queue)
}

// Once the tests have passed, by the settings under the rules. The churn limit stays while exits are made; the pair is moved at each.
fn carry_tested(
    s: Settings,
    period: u64,
    running: Running,
    registry: &mut [u64],
    orders: &[u64],
    answers: &mut [u64],
) -> RunningAnswer
    requires { Ready s running registry.old orders.now answers.old }
    ensures { ninth_outcome result registry.new answers.new
        ≡ carried_under s period running registry.old orders.now answers.old }
{
    let so_far = running.answer;
    let finality = so_far.finality;
    let queue = so_far.queue;
    let raised = so_far.raised;
    let slot = finality.slot;
    let epoch = current_epoch(s, slot);
    let limit = churn_limit(s, slot, &registry[..]);
    let least = epoch + 1 + s.max_seed_lookahead;
    let delay = s.min_validator_withdrawability_delay;
    let n = registry.len() / 10;
    let count = running.orders;
    let after = try_all(
        epoch,
        period,
        least,
        limit,
        delay,
        queue,
        registry,
        n,
        orders,
        count as usize,
        answers,
    );
    RunningAnswer {
        refusal: 0,
        ended: 0,
        running: Running {
            done: 9,
            answer: FullAnswer {
                refusal: so_far.refusal,
                finality,
                queue: after,
                raised,
                test: so_far.test,
            },
            orders: 0,
        },
    }
}

pub fn carry_out(
    rules: Rules,
    shard_committee_period: u64,
    running: Running,
    closing_registry: &mut [u64],
    orders: &[u64],
    answers: &mut [u64],
) -> RunningAnswer
    ensures { ninth_outcome result closing_registry.new answers.new
        ≡ carry_out (ninth_called rules shard_committee_period running closing_registry.old orders.now answers.old) }
{
    let done = running.done;
    if done == 9 {
        return RunningAnswer {
            refusal: 0,
            ended: 1,
            running,
        };
    }
    if done != 8 {
        return turned_away(Refusal::BadShape, running);
    }
    if let Err(refusal) = ninth_tests(
        rules,
        shard_committee_period,
        running,
        &closing_registry[..],
        orders,
        &answers[..],
    ) {
        return turned_away(refusal, running);
    }
    let s = settings_under(rules);
    carry_tested(
        s,
        shard_committee_period,
        running,
        closing_registry,
        orders,
        answers,
    )
}
