// Block roots: phase0/helpers.rs. A lookup finds 32 bytes of the roots that it is lent, from 32 times (slot modulo S) on.
ghost use Rattle.std.specs.Prelude.{◌≡◌, ◌&&◌, ◌*◌, ◌<◌, length};
ghost use Rattle.definitions.specs.Checked.{done};
ghost use Rattle.definitions.specs.Refusals.{settings_shaped, roots_shaped, after_tests};
ghost use Rattle.definitions.specs.LeafRefusals.{root_tests};
ghost use Rattle.definitions.specs.Rust.Phase0.Helpers.{get_block_root_at_slot, get_block_root};

use arithmetic::{add64, mul64};
use definitions::{Refusal, Settings};
use refusals::{good_settings, in_order, is_small, settings_shaped};

pub fn roots_shaped(s: Settings, roots: &[u8]) -> bool
    ensures { result ≡ roots_shaped s roots.now }
{
    if roots.len() % 32 != 0 {
        return false;
    }
    (roots.len() / 32) as u64 == s.slots_per_historical_root
}

pub fn root_refusal(s: Settings, roots: &[u8], state_slot: u64) -> Result<(), Refusal>
    ensures { result ≡ root_tests s roots.now state_slot }
{
    in_order(
        &[settings_shaped(s), roots_shaped(s, roots)],
        &[good_settings(s)],
        &[is_small(state_slot)],
    )
}

// What is worked out once the tests have passed: whether there is a root, of whatever roots.

pub fn slot_lookup(s: Settings, roots: &[u8], state_slot: u64, slot: u64) -> Result<(), Refusal>
    ensures { result ≡ done (get_block_root_at_slot s roots.now state_slot slot) }
{
    if state_slot <= slot {
        return Err(Refusal::NoRoot);
    }
    let last = add64(slot, s.slots_per_historical_root)?;
    if last < state_slot {
        return Err(Refusal::NoRoot);
    }
    Ok(())
}

pub fn epoch_lookup(s: Settings, roots: &[u8], state_slot: u64, epoch: u64) -> Result<(), Refusal>
    ensures { result ≡ done (get_block_root s roots.now state_slot epoch) }
{
    let first = mul64(epoch, s.slots_per_epoch)?;
    slot_lookup(s, roots, state_slot, first)
}

// And the root itself.

pub fn slot_root(s: Settings, roots: &[u8], state_slot: u64, slot: u64) -> Result<[u8; 32], Refusal>
    requires roots_len { length roots.now ≡ 32 * s.slots_per_historical_root }
    requires slots_per_historical_root_nonzero { 0 < s.slots_per_historical_root }
    ensures { result ≡ get_block_root_at_slot s roots.now state_slot slot }
{
    slot_lookup(s, roots, state_slot, slot)?;
    let start = 32 * ((slot % s.slots_per_historical_root) as usize);
    let mut root = [0u8; 32];
    root.copy_from_slice(&roots[start..start + 32]);
    Ok(root)
}

pub fn epoch_root(
    s: Settings,
    roots: &[u8],
    state_slot: u64,
    epoch: u64,
) -> Result<[u8; 32], Refusal>
    requires roots_len { length roots.now ≡ 32 * s.slots_per_historical_root }
    requires slots_per_historical_root_nonzero { 0 < s.slots_per_historical_root }
    ensures { result ≡ get_block_root s roots.now state_slot epoch }
{
    let slot = mul64(epoch, s.slots_per_epoch)?;
    slot_root(s, roots, state_slot, slot)
}

// The leaves.

pub fn get_block_root_at_slot(
    s: Settings,
    roots: &[u8],
    state_slot: u64,
    slot: u64,
) -> Result<[u8; 32], Refusal>
    ensures { result ≡ after_tests (root_tests s roots.now state_slot) (get_block_root_at_slot s roots.now state_slot slot) }
{
    root_refusal(s, roots, state_slot)?;
    slot_root(s, roots, state_slot, slot)
}

pub fn get_block_root(
    s: Settings,
    roots: &[u8],
    state_slot: u64,
    epoch: u64,
) -> Result<[u8; 32], Refusal>
    ensures { result ≡ after_tests (root_tests s roots.now state_slot) (get_block_root s roots.now state_slot epoch) }
{
    root_refusal(s, roots, state_slot)?;
    epoch_root(s, roots, state_slot, epoch)
}
