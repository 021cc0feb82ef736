// weigh_justification_and_finalization of phase0/epoch_processing.rs: two tests from three totals, the lookups, and the outcome.
#![tactic(auto)]

ghost use Rattle.std.specs.Prelude.{◌≡◌, ◌*◌, ◌<◌, length};
ghost use Rattle.definitions.specs.Checked.{value};
ghost use Rattle.definitions.specs.Refusals.{after_tests};
ghost use Rattle.definitions.specs.LeafRefusals.{weigh_tests};
ghost use Rattle.definitions.specs.Rust.Phase0.EpochProcessing.{is_justified, weigh_justification_and_finalization};
ghost use Rattle.weighing.specs.Tests.{test_epoch};

use arithmetic::mul64;
use definitions::{Checkpoint, Finality, Refusal, Settings};
use epochs::roots::{epoch_root, roots_shaped};
use epochs::{current_epoch, previous_epoch};
use finality::weighed;
use refusals::{good_finality, good_settings, in_order, settings_shaped};

// Whether a target balance is two thirds of the total or more.
pub fn is_justified(target: u64, total: u64) -> Result<bool, Refusal>
    ensures { result ≡ is_justified target total }
{
    let left = mul64(target, 3)?;
    let right = mul64(total, 2)?;
    Ok(right <= left)
}

// One epoch's test: its root, where the test passed.
fn test_epoch(
    s: Settings,
    roots: &[u8],
    state_slot: u64,
    epoch: u64,
    target: u64,
    total: u64,
) -> Result<Option<[u8; 32]>, Refusal>
    requires roots_len { length roots.now ≡ 32 * s.slots_per_historical_root }
    requires slots_per_historical_root_nonzero { 0 < s.slots_per_historical_root }
    ensures { result ≡ test_epoch s roots.now state_slot epoch target total }
{
    let passed = is_justified(target, total)?;
    if !passed {
        return Ok(None);
    }
    let root = epoch_root(s, roots, state_slot, epoch)?;
    Ok(Some(root))
}

pub fn weigh_refusal(s: Settings, roots: &[u8], finality: Finality) -> Result<(), Refusal>
    ensures { result ≡ weigh_tests s roots.now finality }
{
    in_order(
        &[settings_shaped(s), roots_shaped(s, roots)],
        &[good_settings(s)],
        &[good_finality(finality)],
    )
}

// What is worked out once the tests have passed: the previous epoch's test and root before the current one's.
pub fn weigh(
    s: Settings,
    roots: &[u8],
    old: Finality,
    total: u64,
    previous: u64,
    current: u64,
) -> Result<Finality, Refusal>
    requires { weigh_tests s roots.now old ≡ value tt }
    ensures { result ≡ weigh_justification_and_finalization s roots.now old total previous current }
{
    let slot = old.slot;
    let previous_epoch = previous_epoch(s, slot);
    let current_epoch = current_epoch(s, slot);
    let p = test_epoch(s, roots, slot, previous_epoch, previous, total)?;
    let c = test_epoch(s, roots, slot, current_epoch, current, total)?;
    // read by nobody where the test failed
    let none = [0u8; 32];
    let previous_root = p.unwrap_or(none);
    let current_root = c.unwrap_or(none);
    Ok(weighed(
        p.is_some(),
        c.is_some(),
        Checkpoint {
            epoch: previous_epoch,
            root: previous_root,
        },
        Checkpoint {
            epoch: current_epoch,
            root: current_root,
        },
        old,
    ))
}

pub fn weigh_justification_and_finalization(
    s: Settings,
    roots: &[u8],
    finality: Finality,
    total: u64,
    previous: u64,
    current: u64,
) -> Result<Finality, Refusal>
    ensures { result
        ≡ after_tests (weigh_tests s roots.now finality)
        (weigh_justification_and_finalization s roots.now finality total previous current) }
{
    weigh_refusal(s, roots, finality)?;
    weigh(s, roots, finality, total, previous, current)
}
