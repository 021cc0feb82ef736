// A record file, read and written.
ghost use Rattle.std.specs.Prelude.{◌≡◌};
ghost use Rattle.definitions.specs.Checked.{code_of};
ghost use Rattle.definitions_file.specs.File.{read, write_tests, written, header_read, contents_with};

use definitions::{ExitQueue, Finality, Settings, code};
use definitions_file::{Header, ReadAnswer};

#[unsafe(no_mangle)]
pub extern "C" fn altair_read_header(bytes: &[u8]) -> Header
    ensures { result ≡ header_read bytes.now }
{
    record_file::read_header(bytes)
}

#[unsafe(no_mangle)]
pub extern "C" fn altair_read_file(
    bytes: &[u8],
    registry: &mut [u64],
    slashings: &mut [u64],
) -> ReadAnswer
    ensures refusal_value { result.refusal ≡ (read bytes.now registry.old slashings.old).refusal }
    ensures position_value { result.position ≡ (read bytes.now registry.old slashings.old).position }
    ensures settings_value { result.settings ≡ (read bytes.now registry.old slashings.old).contents.settings }
    ensures finality_value { result.finality ≡ (read bytes.now registry.old slashings.old).contents.finality }
    ensures queue_value { result.queue ≡ (read bytes.now registry.old slashings.old).queue }
    ensures registry_after { registry.new ≡ (read bytes.now registry.old slashings.old).contents.registry }
    ensures slashings_after { slashings.new ≡ (read bytes.now registry.old slashings.old).contents.slashings }
{
    record_file::read_file(bytes, registry, slashings)
}

#[unsafe(no_mangle)]
pub extern "C" fn altair_write_file(
    settings: Settings,
    finality: Finality,
    queue: ExitQueue,
    registry: &[u64],
    roots: &[u8],
    slashings: &[u64],
    file: &mut [u8],
) -> u64
    ensures value { result
        ≡ code_of
        (write_tests (contents_with settings finality registry.now roots.now slashings.now) queue file.old) }
    ensures file_after { file.new
        ≡ written (contents_with settings finality registry.now roots.now slashings.now) queue file.old }
{
    code(record_file::write_file(settings, finality, queue, registry, roots, slashings, file))
}
