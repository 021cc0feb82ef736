// process_participation_flag_updates: the current flags become the previous ones.
ghost use Rattle.std.specs.Prelude.{◌≡◌, ◌*◌, ◌/◌, length};
ghost use Rattle.definitions.specs.Record.{decode_one, encode_one, decode, encode};
ghost use Rattle.definitions.specs.Checked.{value, code_of};
ghost use Rattle.definitions.specs.Refusals.{rotation_tests};
ghost use Rattle.definitions.specs.Document.Altair.EpochProcessing.{rotate_participation};
ghost use Rattle.definitions.specs.Rust.Altair.EpochProcessing.{process_participation_flag_updates};
ghost use Rattle.definitions.specs.Closes.{Closes};

use definitions::{CURRENT_EPOCH_PARTICIPATION, PREVIOUS_EPOCH_PARTICIPATION, Refusal};
use over_entries::map_entries;
use refusals::buffers::copy;
use refusals::{good_registry, in_order, registry_shaped};

pub fn entry_rotate(entry: &mut [u64])
    requires { length entry.old ≡ 10 }
    ensures { entry.new ≡ encode_one (rotate_participation (decode_one entry.old)) }
{
    entry[PREVIOUS_EPOCH_PARTICIPATION] = entry[CURRENT_EPOCH_PARTICIPATION];
    entry[CURRENT_EPOCH_PARTICIPATION] = 0;
}

// The step in place.
pub fn participation_flags_core(registry: &mut [u64])
    requires { length registry.old ≡ 10 * (length registry.old / 10) }
    ensures { registry.new ≡ encode (process_participation_flag_updates (decode registry.old)) }
{
    map_entries(|entry| entry_rotate(entry), registry);
}

fn rotation_tests(opening: &[u64], closing: &[u64]) -> Result<(), Refusal>
    ensures { result ≡ rotation_tests opening.now closing.now }
{
    in_order(
        &[registry_shaped(opening), closing.len() == opening.len()],
        &[],
        &[good_registry(opening)],
    )
}

pub fn process_participation_flag_updates(
    opening: &[u64],
    closing: &mut [u64],
) -> Result<(), Refusal>
    ensures { Closes encode (rotation_tests opening.now closing.old)
        (value (process_participation_flag_updates (decode opening.now))) opening.now closing.old
        closing.new (code_of result) }
{
    rotation_tests(opening, closing)?;
    copy(opening, closing);
    participation_flags_core(closing);
    Ok(())
}
