// process_registry_updates: eligibility and ejection in register order, then activation from validator 0 up, to a stop. The exit queue's pair
// is lent with the registry (R-8): ejections start from it, and the closing registry's comes back. Passes over the registry: the survey, with
// test 3 and the pair for test 8, the copy, what the cut of the activation queue needs, one for the turns, one for activation, and one for the
// pair.
#![tactic(auto)]

ghost use Rattle.std.specs.Prelude.{◌≡◌, true, ◌*◌, ◌/◌, ◌^◌, ◌≤◌, ◌<◌, length};
ghost use Rattle.definitions.specs.Lists.{range};
ghost use Rattle.definitions.specs.Record.{decode};
ghost use Rattle.definitions.specs.Checked.{value, fold_checked};
ghost use Rattle.definitions.specs.Refusals.{good_settings};
ghost use Rattle.definitions.specs.RegisterOrder.{registry_updates_to, limited_updates_to};
ghost use Rattle.definitions.specs.ExitQueue.{queue_of};
ghost use Rattle.definitions.specs.Rust.Phase0.Helpers.{get_current_epoch, get_previous_epoch};
ghost use Rattle.definitions.specs.Rust.Phase0.EpochProcessing.{process_registry_updates};
ghost use Rattle.definitions_close.specs.QueueCalls.{registry_to_queue_tests, registry_queue_tests, QueueCloses};
ghost use Rattle.laws.specs.Ran.{Ran};
ghost use Rattle.selection.specs.Keep.{Blank};
ghost use Rattle.exit_queue.specs.Queue.{Tracks};
ghost use Rattle.registry.specs.Updates.{least_exit, update_at};
ghost use Rattle.survey.specs.Found.{Finds};
ghost use Rattle.registry_step.specs.First.{first_tests};
ghost use Rattle.registry_step.specs.Cut.{UpdatesUnder};

use definitions::{ActivationLimit, ExitQueue, FAR_FUTURE_EPOCH, QueueAnswer, Refusal, Settings};
use epochs::{current_epoch, previous_epoch};
use exit_queue::{queue_of, start_pair};
use refusals::buffers::{copy, put_back};
use refusals::{good_settings, in_order, is_small, registry_shaped, settings_shaped};
use registry::activation::admit_below;
use registry::update_entry;
use selection::Cut;
use selection::queue_cut::cut_queue;
use survey::{Findings, survey_registry};
use totals::{activation_limit, churn_by};
use validator_exit::queue_tests::found_refusal;

fn update_all(
    s: Settings,
    epoch: u64,
    limit: u64,
    first: ExitQueue,
    registry: &mut [u64],
    n: usize,
) -> Result<(), Refusal>
    requires { (length registry.old ≡ 10 * n) × (epoch < 2 ^ 48) × Tracks (least_exit s epoch) (decode registry.old) first }
    ensures { Ran
        (fold_checked (update_at s epoch (least_exit s epoch) limit) (decode registry.old) (range 0 (length (decode registry.old))))
        registry.new result }
{
    let mut queue = first;
    for i in 0..n {
        let a = 10 * i;
        let b = a + 10;
        queue = update_entry(s, epoch, limit, queue, &mut registry[a..b])?;
    }
    Ok(())
}

// By the numbers that were found: the churn limit, the exit queue's pair and the cut of the activation queue. The stop is activation's alone.
pub fn update_by(
    stop: usize,
    s: Settings,
    epoch: u64,
    limit: u64,
    queue: ExitQueue,
    cut: Cut,
    finalized_epoch: u64,
    registry: &mut [u64],
) -> Result<(), Refusal>
    requires registry_len { (length registry.old ≡ 10 * (length registry.old / 10)) × (epoch < 2 ^ 48) × (s.max_seed_lookahead < 2 ^ 48) }
    requires stop_in_bounds { stop ≤ length registry.old / 10 }
    requires tracks { Tracks (least_exit s epoch) (decode registry.old) queue }
    ensures { UpdatesUnder stop s epoch limit finalized_epoch (decode registry.old) cut.bound cut.quota registry.new result }
{
    let n = registry.len() / 10;
    let least = epoch + 1 + s.max_seed_lookahead;
    update_all(s, epoch, limit, queue, registry, n)?;
    admit_below(
        registry,
        n,
        stop,
        finalized_epoch,
        cut.bound,
        cut.quota,
        least,
    );
    Ok(())
}

// On the closing registry, a copy of the opening one, from what the survey found. Ejections keep the churn limit.
fn update_registry(
    limit: ActivationLimit,
    stop: usize,
    s: Settings,
    state_slot: u64,
    finalized_epoch: u64,
    queue: ExitQueue,
    found: Findings,
    opening: &[u64],
    kept: &[u64],
    closing: &mut [u64],
) -> Result<(), Refusal>
    requires s_value { good_settings s ≡ true }
    requires state_slot_bound { (state_slot < 2 ^ 48) × (finalized_epoch < 2 ^ 48) }
    requires opening_len { (length opening.now ≡ 10 * (length opening.now / 10)) × (closing.old ≡ opening.now) }
    requires stop_in_bounds { stop ≤ length opening.now / 10 }
    requires queue_value { queue ≡ queue_of (decode opening.now) }
    requires finds { Finds s (get_current_epoch s state_slot) (get_previous_epoch s state_slot) opening.now kept.now found }
    ensures { Ran (limited_updates_to limit stop s state_slot finalized_epoch (decode opening.now)) closing.new result }
{
    let epoch = current_epoch(s, state_slot);
    let churn = churn_by(s, found.active);
    let most = activation_limit(limit, churn);
    let cut = cut_queue(s, epoch, opening, kept, finalized_epoch, most);
    let least = epoch + 1 + s.max_seed_lookahead;
    let start = start_pair(queue, least);
    update_by(stop, s, epoch, churn, start, cut, finalized_epoch, closing)
}

// Once the tests have passed: the opening is put back on refusal, with the pair handed in.
fn run_step(
    limit: ActivationLimit,
    stop: usize,
    s: Settings,
    state_slot: u64,
    finalized_epoch: u64,
    queue: ExitQueue,
    found: Findings,
    opening: &[u64],
    kept: &[u64],
    closing: &mut [u64],
) -> QueueAnswer
    requires s_value { good_settings s ≡ true }
    requires state_slot_bound { (state_slot < 2 ^ 48) × (finalized_epoch < 2 ^ 48) }
    requires opening_len { (length opening.now ≡ 10 * (length opening.now / 10)) × (length closing.old ≡ length opening.now) }
    requires stop_in_bounds { stop ≤ length opening.now / 10 }
    requires queue_value { queue ≡ queue_of (decode opening.now) }
    requires finds { Finds s (get_current_epoch s state_slot) (get_previous_epoch s state_slot) opening.now kept.now found }
    ensures { QueueCloses (value tt) (limited_updates_to limit stop s state_slot finalized_epoch (decode opening.now)) queue opening.now
        closing.old closing.new result }
{
    copy(opening, closing);
    let done = update_registry(
        limit,
        stop,
        s,
        state_slot,
        finalized_epoch,
        queue,
        found,
        opening,
        kept,
        closing,
    );
    put_back(done, opening, closing);
    if let Err(refusal) = done {
        return QueueAnswer {
            refusal: refusal.number(),
            queue: queue,
        };
    }
    let after = queue_of(&closing[..]);
    QueueAnswer {
        refusal: 0,
        queue: after,
    }
}

// Tests 1 and 2, and 3 but for the registry's entries, which the survey tests.
pub fn step_tests(
    stop: usize,
    s: Settings,
    state_slot: u64,
    finalized_epoch: u64,
    opening: &[u64],
    closing: &[u64],
) -> Result<(), Refusal>
    ensures { result ≡ first_tests stop s state_slot finalized_epoch opening.now closing.now }
{
    in_order(
        &[
            settings_shaped(s),
            registry_shaped(opening),
            closing.len() == opening.len(),
            stop <= opening.len() / 10,
        ],
        &[good_settings(s)],
        &[is_small(state_slot), is_small(finalized_epoch)],
    )
}

// The rest of the tests, from the survey, and the step.
pub fn step_surveyed(
    limit: ActivationLimit,
    stop: usize,
    s: Settings,
    state_slot: u64,
    finalized_epoch: u64,
    queue: ExitQueue,
    opening: &[u64],
    kept: &mut [u64],
    closing: &mut [u64],
) -> QueueAnswer
    requires closing_value { first_tests stop s state_slot finalized_epoch opening.now closing.old ≡ value tt }
    requires kept_len { (length kept.old ≡ 64) × Blank kept.old }
    ensures { QueueCloses
        (registry_to_queue_tests stop s state_slot finalized_epoch queue opening.now closing.old)
        (limited_updates_to limit stop s state_slot finalized_epoch (decode opening.now))
        queue opening.now closing.old closing.new result }
{
    let epoch = current_epoch(s, state_slot);
    let previous = previous_epoch(s, state_slot);
    let found = survey_registry(s, epoch, previous, opening, kept);
    let pair = found.queue;
    if let Err(refusal) = found_refusal(found.tested, queue, pair) {
        return QueueAnswer {
            refusal: refusal.number(),
            queue: queue,
        };
    }
    run_step(
        limit,
        stop,
        s,
        state_slot,
        finalized_epoch,
        queue,
        found,
        opening,
        &kept[..],
        closing,
    )
}

// From validator `stop` up activation epochs stay.
pub fn process_registry_updates_to(
    stop: usize,
    s: Settings,
    state_slot: u64,
    finalized_epoch: u64,
    queue: ExitQueue,
    opening: &[u64],
    closing: &mut [u64],
) -> QueueAnswer
    ensures { QueueCloses
        (registry_to_queue_tests stop s state_slot finalized_epoch queue opening.now closing.old)
        (registry_updates_to stop s state_slot finalized_epoch (decode opening.now))
        queue opening.now closing.old closing.new result }
{
    if let Err(refusal) = step_tests(stop, s, state_slot, finalized_epoch, opening, &closing[..]) {
        return QueueAnswer {
            refusal: refusal.number(),
            queue: queue,
        };
    }
    let mut kept = [FAR_FUTURE_EPOCH; 64];
    step_surveyed(
        ActivationLimit::Churn,
        stop,
        s,
        state_slot,
        finalized_epoch,
        queue,
        opening,
        &mut kept[0..64],
        closing,
    )
}

// The stop behind the last validator.
pub fn process_registry_updates(
    s: Settings,
    state_slot: u64,
    finalized_epoch: u64,
    queue: ExitQueue,
    opening: &[u64],
    closing: &mut [u64],
) -> QueueAnswer
    ensures { QueueCloses
        (registry_queue_tests s state_slot finalized_epoch queue opening.now closing.old)
        (process_registry_updates s state_slot finalized_epoch (decode opening.now))
        queue opening.now closing.old closing.new result }
{
    let n = opening.len() / 10;
    process_registry_updates_to(n, s, state_slot, finalized_epoch, queue, opening, closing)
}
