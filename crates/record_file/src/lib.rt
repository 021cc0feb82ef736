// A record file read and written over lent bytes and buffers: all of it is tested before anything is written.
#![tactic(auto)]

ghost use Rattle.std.specs.Prelude.{◌≡◌, true, [], length};
ghost use Rattle.std.proofs.lemmas.List.Edits.{sets};
ghost use Rattle.definitions.specs.Refusals.{settings_from};
ghost use Rattle.definitions_file.specs.File.{validators_at, file_length, version_of, no_finality, good_header, contents_of, read, file_of, write_tests, written, no_header, header_read, contents_with};
ghost use Rattle.record_file.specs.Sized.{Sized, head_of};

use definitions::{Checkpoint, ExitQueue, Finality, Refusal, Settings};
use definitions_file::{FINALITY_AT, Header, QUEUE_AT, ReadAnswer, SETTINGS_AT, VALIDATORS_AT};
use fields::settings_from;

// The header

fn no_header() -> Header
    ensures { result ≡ no_header }
{
    Header {
        refusal: Refusal::BadFile.number(),
        validators: 0,
        roots: 0,
        slashings: 0,
    }
}

pub fn read_header(bytes: &[u8]) -> Header
    ensures { result ≡ header_read bytes.now }
{
    if !file_refusals::file_header::good_header(bytes) {
        return no_header();
    }
    let counts = file_refusals::file_header::read_counts(bytes);
    Header {
        refusal: 0,
        validators: counts.validators,
        roots: counts.roots,
        slashings: counts.slashings,
    }
}

// Reading

fn no_settings() -> Settings
    ensures { result ≡ settings_from [] }
{
    settings_from(&[0u64; 19])
}

fn no_finality() -> Finality
    ensures { result ≡ no_finality }
{
    let none = Checkpoint {
        epoch: 0,
        root: [0u8; 32],
    };
    Finality {
        slot: 0,
        justification_bits: 0,
        previous_justified_checkpoint: none,
        current_justified_checkpoint: none,
        finalized_checkpoint: none,
    }
}

fn registry_at(bytes: &[u8]) -> usize
    requires { good_header bytes.now ≡ true }
    ensures { result ≡ validators_at (version_of bytes.now) }
{
    let counts = file_refusals::file_header::read_counts(bytes);
    file_refusals::file_header::validators_at(counts.version) as usize
}

// The registry and the slashings go into the lent buffers, once every test has passed.
pub fn read_file(bytes: &[u8], registry: &mut [u64], slashings: &mut [u64]) -> ReadAnswer
    ensures refusal_value { result.refusal ≡ (read bytes.now registry.old slashings.old).refusal }
    ensures position_value { result.position ≡ (read bytes.now registry.old slashings.old).position }
    ensures settings_value { result.settings ≡ (read bytes.now registry.old slashings.old).contents.settings }
    ensures finality_value { result.finality ≡ (read bytes.now registry.old slashings.old).contents.finality }
    ensures queue_value { result.queue ≡ (read bytes.now registry.old slashings.old).queue }
    ensures registry_after { registry.new ≡ (read bytes.now registry.old slashings.old).contents.registry }
    ensures slashings_after { slashings.new ≡ (read bytes.now registry.old slashings.old).contents.slashings }
{
    let tested = file_refusals::read_tests(bytes, &registry[..], &slashings[..]);
    let queue = tested.queue;
    if let Err(refusal) = tested.tested {
        return ReadAnswer {
            refusal: refusal.number(),
            position: tested.position,
            settings: no_settings(),
            finality: no_finality(),
            queue,
        };
    }
    let settings = fields::read_settings(bytes);
    let finality = fields::read_finality(bytes);
    let from = registry_at(bytes);
    let slashings_at = bytes.len() - 8 * slashings.len();
    fields::read_numbers(bytes, from, registry);
    fields::read_numbers(bytes, slashings_at, slashings);
    ReadAnswer {
        refusal: 0,
        position: tested.position,
        settings,
        finality,
        queue,
    }
}

// The part of the file that holds the roots.
pub fn file_roots<'a>(bytes: &'a [u8]) -> &'a [u8]
    requires { good_header bytes.now ≡ true }
    ensures { result.now ≡ (contents_of bytes.now).roots }
{
    let counts = file_refusals::file_header::read_counts(bytes);
    let from = registry_at(bytes) + 80 * (counts.validators as usize);
    let to = bytes.len() - 8 * (counts.slashings as usize);
    &bytes[from..to]
}

// Writing

// What stands before the validators: the header, the settings, the finality and the pair, each behind the one before.
fn put_head(
    settings: Settings,
    finality: Finality,
    queue: ExitQueue,
    validators: u64,
    file: &mut [u8],
)
    requires { file_length 2 validators settings.slots_per_historical_root settings.epochs_per_slashings_vector ≡ length file.old }
    ensures { file.new ≡ sets file.old 0 (head_of settings finality queue validators) }
{
    let head = file_refusals::file_header::header_of(
        2,
        validators,
        settings.slots_per_historical_root,
        settings.epochs_per_slashings_vector,
    );
    fields::put_numbers(file, 0, &head);
    fields::put_settings(file, SETTINGS_AT, settings);
    fields::put_finality(file, FINALITY_AT, finality);
    fields::put_queue(file, QUEUE_AT, queue);
}

// Part by part, each behind the one before. Nothing is tested.
pub fn put_record(
    settings: Settings,
    finality: Finality,
    queue: ExitQueue,
    registry: &[u64],
    roots: &[u8],
    slashings: &[u64],
    file: &mut [u8],
)
    requires { Sized (contents_with settings finality registry.now roots.now slashings.now) file.old }
    ensures { file.new ≡ file_of (contents_with settings finality registry.now roots.now slashings.now) queue }
{
    let validators = registry.len() / 10;
    let roots_at = VALIDATORS_AT + 80 * validators;
    let slashings_at = roots_at + roots.len();
    put_head(settings, finality, queue, validators as u64, file);
    fields::put_numbers(file, VALIDATORS_AT, registry);
    fields::put_bytes(file, roots_at, roots);
    fields::put_numbers(file, slashings_at, slashings);
}

// As version 2.
pub fn write_file(
    settings: Settings,
    finality: Finality,
    queue: ExitQueue,
    registry: &[u64],
    roots: &[u8],
    slashings: &[u64],
    file: &mut [u8],
) -> Result<(), Refusal>
    ensures value { result
        ≡ write_tests (contents_with settings finality registry.now roots.now slashings.now) queue file.old }
    ensures file_after { file.new
        ≡ written (contents_with settings finality registry.now roots.now slashings.now) queue file.old }
{
    file_refusals::write_tests(
        settings,
        finality,
        queue,
        registry,
        roots,
        slashings,
        &file[..],
    )?;
    put_record(settings, finality, queue, registry, roots, slashings, file);
    Ok(())
}
