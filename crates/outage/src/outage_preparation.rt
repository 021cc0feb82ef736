// What happens to a record before each close of a tried outage: slot, roots and current flags. Never a loop over slots.
ghost use Rattle.std.specs.Prelude.{◌≡◌, ◌+◌, ◌*◌, ◌/◌, ◌^◌, ◌<◌, ◌≤◌, length};
ghost use Rattle.definitions.specs.Record.{decode_one, encode_one, decode, encode};
ghost use Rattle.definitions.specs.Updates.{with_participation};
ghost use Rattle.definitions_file.specs.OutageInput.{plan_of};
ghost use Rattle.definitions_file.specs.OutagePreparation.{last_slot_of_next, put_roots, flags_at, with_flags, with_slot};
ghost use Rattle.outage.specs.Ready.{Ready, Prepares};

use arithmetic::min;
use definitions::{CURRENT_EPOCH_PARTICIPATION, Finality, Settings};
use epochs::current_epoch;
use fields::put_bytes;

fn last_slot_of_next(s: Settings, slot: u64) -> u64
    requires { (0 < s.slots_per_epoch) × (s.slots_per_epoch < 2 ^ 48) × (slot < 2 ^ 48) }
    ensures { (result ≡ last_slot_of_next s slot) × (slot < result) × (result < 2 ^ 50) }
{
    let epoch = current_epoch(s, slot);
    (epoch + 2) * s.slots_per_epoch - 1
}

// The root at `count` slots from `slot` on: after as many as there are places, every place has it.
fn put_roots(places: u64, root: &[u8], roots: &mut [u8], slot: u64, count: u64)
    requires places_nonzero { (0 < places) × (places ≤ 65536) × (slot < 2 ^ 48) }
    requires roots_len { (length roots.old ≡ 32 * places) × (length root.now ≡ 32) }
    ensures { roots.new ≡ put_roots places root.now roots.old slot count }
{
    let n = min(count, places);
    for i in 0..n {
        let at = 32 * (((slot + i) % places) as usize);
        put_bytes(roots, at, root);
    }
}

fn flags_at(epoch: u64, first: u64, last: u64) -> u64
    ensures { result ≡ flags_at epoch first last }
{
    if epoch < first {
        return 7;
    }
    if last < epoch {
        return 7;
    }
    0
}

fn entry_flags(entry: &mut [u64], flags: u64)
    requires { length entry.old ≡ 10 }
    ensures { entry.new
        ≡ encode_one (with_participation (decode_one entry.old).previous_epoch_participation flags (decode_one entry.old)) }
{
    entry[CURRENT_EPOCH_PARTICIPATION] = flags;
}

// Current flags for the epoch to be closed.
fn set_flags(epoch: u64, absences: &[u64], registry: &mut [u64])
    requires registry_len { length registry.old ≡ 10 * (length registry.old / 10) }
    requires absences_len { length absences.now ≡ 2 * (length registry.old / 10) }
    ensures { registry.new ≡ encode (with_flags epoch absences.now (decode registry.old)) }
{
    let n = registry.len() / 10;
    for i in 0..n {
        let first_at = 2 * i;
        let last_at = 2 * i + 1;
        let flags = flags_at(epoch, absences[first_at], absences[last_at]);
        let a = 10 * i;
        let b = a + 10;
        entry_flags(&mut registry[a..b], flags);
    }
}

fn with_slot(slot: u64, f: Finality) -> Finality
    ensures { result ≡ with_slot slot f }
{
    let previous = f.previous_justified_checkpoint;
    let current = f.current_justified_checkpoint;
    let finalized = f.finalized_checkpoint;
    Finality {
        slot,
        justification_bits: f.justification_bits,
        previous_justified_checkpoint: previous,
        current_justified_checkpoint: current,
        finalized_checkpoint: finalized,
    }
}

pub fn prepare(
    s: Settings,
    finality: Finality,
    root: &[u8],
    absences: &[u64],
    registry: &mut [u64],
    roots: &mut [u8],
) -> Finality
    requires { Ready s finality.slot (length registry.old / 10) registry.old roots.old root.now absences.now }
    ensures { Prepares s (plan_of root.now absences.now) finality registry.old roots.old result registry.new
        roots.new }
{
    let old = finality.slot;
    let new = last_slot_of_next(s, old);
    put_roots(s.slots_per_historical_root, root, roots, old, new - old);
    set_flags(current_epoch(s, new), absences, registry);
    with_slot(new, finality)
}
