// Both round trips, of the functions themselves: each writes and reads, and its contract says what comes back. None is exported.
ghost use Rattle.std.specs.Prelude.{◌≡◌};
ghost use Rattle.definitions_file.specs.File.{contents_with};
ghost use Rattle.round_trip.specs.Functions.{Passes, SameRecord, Accepted, SameBytes};

use definitions::{ExitQueue, Finality, Settings, code};
use definitions_file::ReadAnswer;
use record_file::{file_roots, read_file, write_file};

// A record that passes 1, 2, 3 and 8, written and then read, is the same record.
fn write_then_read(
    settings: Settings,
    finality: Finality,
    queue: ExitQueue,
    registry: &[u64],
    roots: &[u8],
    slashings: &[u64],
    file: &mut [u8],
    registry_read: &mut [u64],
    slashings_read: &mut [u64],
) -> ReadAnswer
    ensures { Passes (contents_with settings finality registry.now roots.now slashings.now) queue file.old
        registry_read.old slashings_read.old
        → SameRecord (contents_with settings finality registry.now roots.now slashings.now) queue file.old result
        registry_read.new slashings_read.new }
{
    let _ = write_file(settings, finality, queue, registry, roots, slashings, file);
    read_file(&file[..], registry_read, slashings_read)
}

// Its roots too.
fn write_then_roots<'a>(
    settings: Settings,
    finality: Finality,
    queue: ExitQueue,
    registry: &[u64],
    roots: &[u8],
    slashings: &[u64],
    file: &'a mut [u8],
) -> &'a [u8]
    ensures { Passes (contents_with settings finality registry.now roots.now slashings.now) queue file.old
        registry.now slashings.now
        → result.now
        ≡ roots.now }
{
    let written = write_file(settings, finality, queue, registry, roots, slashings, file);
    let bytes = &file[..];
    if written.is_err() {
        return &bytes[0..0];
    }
    file_roots(bytes)
}

// An accepted file of version 2, read and then written, is the same bytes.
fn read_then_write(
    bytes: &[u8],
    registry: &mut [u64],
    slashings: &mut [u64],
    file: &mut [u8],
) -> u64
    ensures { Accepted bytes.now registry.old slashings.old file.old
        → SameBytes bytes.now result file.new }
{
    let read = read_file(bytes, registry, slashings);
    if read.refusal != 0 {
        return read.refusal;
    }
    let roots = file_roots(bytes);
    let settings = read.settings;
    let finality = read.finality;
    let queue = read.queue;
    code(write_file(
        settings,
        finality,
        queue,
        &registry[..],
        roots,
        &slashings[..],
        file,
    ))
}
