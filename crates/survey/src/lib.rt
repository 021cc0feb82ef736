// One pass over the registry for all that a close asks of it as a whole.
#![tactic(auto)]

ghost use Rattle.std.specs.Prelude.{◌≡◌, ◌*◌, ◌/◌, ◌<◌, [], ◌∷◌, length, if◌then◌else◌, nat_le, Err};
ghost use Rattle.definitions.specs.declared.Refusal.TheVariants.{BadRecord};
ghost use Rattle.definitions.specs.Lists.{every};
ghost use Rattle.definitions.specs.Record.{decode_one};
ghost use Rattle.selection.specs.Keep.{Blank};
ghost use Rattle.survey.specs.Sums.{sums_of, raised_to};
ghost use Rattle.survey.specs.Found.{over_after, sums_after, overs_after, found_after, all_fit, Finds};

use definitions::{
    ACTIVATION_EPOCH, CURRENT_EPOCH_PARTICIPATION, EFFECTIVE_BALANCE, EXIT_EPOCH, ExitQueue,
    PREVIOUS_EPOCH_PARTICIPATION, Refusal, SLASHED, Settings,
};
use entries::{flags_at, is_active, participates};
use exit_queue::{last_after, number_after};
use refusals::all_pass;
use selection::{keep, waiting_since};
use std::num::wrapping_add_u64;
use totals::{count_if, raised};

// Sums over those active at the current epoch, over those that participate by the previous epoch's source, target and head flag, and over
// those that do by the current epoch's target flag.
#[derive(Clone, Copy)]
pub struct Sums {
    pub active: u64,
    pub source: u64,
    pub target: u64,
    pub head: u64,
    pub current_target: u64,
}

// Of each of these sums 1 where it has left 64 bits, and else 0.
#[derive(Clone, Copy)]
pub struct Overs {
    pub active: u64,
    pub source: u64,
    pub target: u64,
    pub head: u64,
    pub current_target: u64,
}

// The totals that the steps after justification go by: each sum, or one increment where that is more.
#[derive(Clone, Copy)]
pub struct Totals {
    pub active: u64,
    pub source: u64,
    pub target: u64,
    pub head: u64,
}

fn weight_where(on: bool, weight: u64) -> u64
    ensures { result ≡ (if on then weight else 0) }
{
    if on {
        return weight;
    }
    0
}

// One validator's own part of each sum.
fn entry_sums(current_epoch: u64, previous_epoch: u64, entry: &[u64]) -> Sums
    requires { length entry.now ≡ 10 }
    ensures { result ≡ sums_of current_epoch previous_epoch (decode_one entry.now) }
{
    let balance = entry[EFFECTIVE_BALANCE];
    let slashed = entry[SLASHED];
    let since = entry[ACTIVATION_EPOCH];
    let exit = entry[EXIT_EPOCH];
    let before = entry[PREVIOUS_EPOCH_PARTICIPATION];
    let now = entry[CURRENT_EPOCH_PARTICIPATION];
    let flags = flags_at(current_epoch, previous_epoch, now, before);
    let active = is_active(since, exit, current_epoch);
    let was_active = is_active(since, exit, previous_epoch);
    let source = participates(was_active, slashed, flags, 0);
    let target = participates(was_active, slashed, flags, 1);
    let head = participates(was_active, slashed, flags, 2);
    let current_target = participates(active, slashed, now, 1);
    Sums {
        active: weight_where(active, balance),
        source: weight_where(source, balance),
        target: weight_where(target, balance),
        head: weight_where(head, balance),
        current_target: weight_where(current_target, balance),
    }
}

pub fn raised_totals(sums: Sums, increment: u64) -> Totals
    ensures { result ≡ raised_to increment sums }
{
    Totals {
        active: raised(sums.active, increment),
        source: raised(sums.source, increment),
        target: raised(sums.target, increment),
        head: raised(sums.head, increment),
    }
}

// What one pass over the opening registry finds. A plain sum is a number where its `over` is 0. The pair of the exit queue is the record's:
// the largest exit epoch below FAR, or 0, and how many have exactly it.
#[derive(Clone, Copy)]
pub struct Findings {
    pub tested: Result<(), Refusal>,
    pub sums: Sums,
    pub over: Overs,
    pub active: u64,
    pub queue: ExitQueue,
}

fn over_after(over: u64, sum: u64, weight: u64) -> u64
    ensures { result ≡ over_after over sum weight }
{
    if 18446744073709551615 - sum < weight {
        return 1;
    }
    over
}

fn sums_after(t: Sums, own: Sums) -> Sums
    ensures { result ≡ sums_after t own }
{
    Sums {
        active: wrapping_add_u64(t.active, own.active),
        source: wrapping_add_u64(t.source, own.source),
        target: wrapping_add_u64(t.target, own.target),
        head: wrapping_add_u64(t.head, own.head),
        current_target: wrapping_add_u64(t.current_target, own.current_target),
    }
}

fn overs_after(over: Overs, t: Sums, own: Sums) -> Overs
    ensures { result ≡ overs_after over t own }
{
    Overs {
        active: over_after(over.active, t.active, own.active),
        source: over_after(over.source, t.source, own.source),
        target: over_after(over.target, t.target, own.target),
        head: over_after(over.head, t.head, own.head),
        current_target: over_after(over.current_target, t.current_target, own.current_target),
    }
}

// Test 3 of one validator after those before it, whose tests answered `tested`.
fn test_after(
    tested: Result<(), Refusal>,
    slashed: u64,
    previous: u64,
    current: u64,
) -> Result<(), Refusal>
    ensures { result
        ≡ (if every (nat_le slashed 1 ∷ nat_le previous 255 ∷ nat_le current 255 ∷ []) then tested else Err BadRecord) }
{
    if 1 < slashed {
        return Err(Refusal::BadRecord);
    }
    if 255 < previous {
        return Err(Refusal::BadRecord);
    }
    if 255 < current {
        return Err(Refusal::BadRecord);
    }
    tested
}

fn survey_entry(current_epoch: u64, previous_epoch: u64, entry: &[u64], found: Findings) -> Findings
    requires { (length entry.now ≡ 10) × (found.active < 18446744073709551615) × (found.queue.number < 18446744073709551615) }
    ensures { result ≡ found_after current_epoch previous_epoch found (decode_one entry.now) }
{
    let sums = found.sums;
    let over = found.over;
    let queue = found.queue;
    let own = entry_sums(current_epoch, previous_epoch, entry);
    let exit = entry[EXIT_EPOCH];
    let active = is_active(entry[ACTIVATION_EPOCH], exit, current_epoch);
    Findings {
        tested: test_after(
            found.tested,
            entry[SLASHED],
            entry[PREVIOUS_EPOCH_PARTICIPATION],
            entry[CURRENT_EPOCH_PARTICIPATION],
        ),
        sums: sums_after(sums, own),
        over: overs_after(over, sums, own),
        active: count_if(found.active, active),
        queue: ExitQueue {
            last_epoch: last_after(queue.last_epoch, exit),
            number: number_after(queue.last_epoch, queue.number, exit),
        },
    }
}

fn no_sums() -> Sums
    ensures { result ≡ record { active = 0; source = 0; target = 0; head = 0; current_target = 0 } }
{
    Sums {
        active: 0,
        source: 0,
        target: 0,
        head: 0,
        current_target: 0,
    }
}

fn no_overs() -> Overs
    ensures { result ≡ record { active = 0; source = 0; target = 0; head = 0; current_target = 0 } }
{
    Overs {
        active: 0,
        source: 0,
        target: 0,
        head: 0,
        current_target: 0,
    }
}

// The one survey of a close. It never refuses: test 3 of every entry is among what it finds. `kept`, lent with FAR in its 64 places, is left
// with the smallest epochs since which one waits for activation, those that become eligible in this close among them; the finalized epoch,
// which is not known yet, cuts a prefix of them later.
pub fn survey_registry(
    s: Settings,
    current_epoch: u64,
    previous_epoch: u64,
    registry: &[u64],
    kept: &mut [u64],
) -> Findings
    requires registry_len { length registry.now ≡ 10 * (length registry.now / 10) }
    requires current_epoch_bound { current_epoch < 18446744073709551615 }
    requires kept_len { (length kept.old ≡ 64) × Blank kept.old }
    ensures { Finds s current_epoch previous_epoch registry.now kept.new result }
{
    let n = registry.len() / 10;
    let most = s.max_effective_balance;
    let mut found = Findings {
        tested: Ok(()),
        sums: no_sums(),
        over: no_overs(),
        active: 0,
        queue: ExitQueue {
            last_epoch: 0,
            number: 0,
        },
    };
    let mut p: usize = 0;
    for i in 0..n {
        let a = 10 * i;
        let b = a + 10;
        found = survey_entry(current_epoch, previous_epoch, &registry[a..b], found);
        let since = waiting_since(most, current_epoch, &registry[a..b]);
        if kept[p] <= since {
            continue;
        }
        p = keep(kept, p, since);
    }
    found
}

pub fn all_fit(over: Overs) -> bool
    ensures { result ≡ all_fit over }
{
    all_pass(&[
        over.active == 0,
        over.source == 0,
        over.target == 0,
        over.head == 0,
        over.current_target == 0,
    ])
}
