// Block roots as document 01 hands them back: a found root is the 32 bytes themselves, a part of the roots that were lent, a refused lookup an empty
// part; and the function of the same name with _refusal answers apart from it whether it is refused, and by what.
#![tactic(auto)]

ghost use Rattle.std.specs.Prelude.{◌≡◌, ◌*◌, ◌^◌, ◌<◌, length};
ghost use Rattle.definitions.specs.Checked.{done};
ghost use Rattle.definitions.specs.Refusals.{after_tests};
ghost use Rattle.definitions.specs.LeafRefusals.{root_tests};
ghost use Rattle.definitions.specs.Document.Phase0.Helpers as document;
ghost use Rattle.definitions.specs.Rust.Phase0.Helpers.{get_block_root_at_slot, get_block_root};
ghost use Rattle.root_parts.specs.Bytes.{bytes_of};

use definitions::{Refusal, Settings};
use epochs::roots::{epoch_lookup, root_refusal, slot_lookup};

// The root itself, where the lookup is not refused.

pub fn slot_root(s: Settings, roots: &[u8], slot: u64) -> &[u8]
    requires roots_len { length roots.now ≡ 32 * s.slots_per_historical_root }
    requires slots_per_historical_root_nonzero { 0 < s.slots_per_historical_root }
    ensures { result.now ≡ document.get_block_root_at_slot s roots.now slot }
{
    let start = 32 * ((slot % s.slots_per_historical_root) as usize);
    &roots[start..start + 32]
}

pub fn epoch_root(s: Settings, roots: &[u8], epoch: u64) -> &[u8]
    requires roots_len { length roots.now ≡ 32 * s.slots_per_historical_root }
    requires slots_per_historical_root_nonzero { 0 < s.slots_per_historical_root }
    requires slots_per_epoch_bound { epoch * s.slots_per_epoch < 2 ^ 64 }
    ensures { result.now ≡ document.get_block_root s roots.now epoch }
{
    slot_root(s, roots, epoch * s.slots_per_epoch)
}

// A found root, as an array.
pub fn root_copy(part: &[u8]) -> [u8; 32]
    requires { length part.now ≡ 32 }
    ensures { result ≡ part.now }
{
    let mut root = [0u8; 32];
    root.copy_from_slice(part);
    root
}

// The leaves.

pub fn get_block_root_at_slot_refusal(
    s: Settings,
    roots: &[u8],
    state_slot: u64,
    slot: u64,
) -> Result<(), Refusal>
    ensures { result ≡ done (after_tests (root_tests s roots.now state_slot) (get_block_root_at_slot s roots.now state_slot slot)) }
{
    root_refusal(s, roots, state_slot)?;
    slot_lookup(s, roots, state_slot, slot)
}

pub fn get_block_root_at_slot(s: Settings, roots: &[u8], state_slot: u64, slot: u64) -> &[u8]
    ensures { result.now ≡ bytes_of (after_tests (root_tests s roots.now state_slot) (get_block_root_at_slot s roots.now state_slot slot)) }
{
    if get_block_root_at_slot_refusal(s, roots, state_slot, slot).is_err() {
        return &roots[0..0];
    }
    slot_root(s, roots, slot)
}

pub fn get_block_root_refusal(
    s: Settings,
    roots: &[u8],
    state_slot: u64,
    epoch: u64,
) -> Result<(), Refusal>
    ensures { result ≡ done (after_tests (root_tests s roots.now state_slot) (get_block_root s roots.now state_slot epoch)) }
{
    root_refusal(s, roots, state_slot)?;
    epoch_lookup(s, roots, state_slot, epoch)
}

pub fn get_block_root(s: Settings, roots: &[u8], state_slot: u64, epoch: u64) -> &[u8]
    ensures { result.now ≡ bytes_of (after_tests (root_tests s roots.now state_slot) (get_block_root s roots.now state_slot epoch)) }
{
    if get_block_root_refusal(s, roots, state_slot, epoch).is_err() {
        return &roots[0..0];
    }
    epoch_root(s, roots, epoch)
}
