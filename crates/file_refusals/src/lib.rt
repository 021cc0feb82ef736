// The tests of a record file: what reading answers and where it stops, and what writing answers.
#![tactic(auto)]

ghost use Rattle.std.specs.Prelude.{true, ◌≡◌, ◌+◌, ◌*◌, ◌≤◌, length, drop};
ghost use Rattle.definitions.specs.Record.{decode};
ghost use Rattle.definitions.specs.ExitQueue.{queue_of};
ghost use Rattle.definitions_file.specs.File.{numbers_from_bytes, validators_at, version_of, count_of, good_header, stopped_at, write_tests, contents_with};
ghost use Rattle.file_refusals.specs.Tests.{limit_at, other_tests, nothing_at, Answered, QueueAnswered};

pub mod file_header;

use crate::file_header::{
    FINALITY, PAIR, SETTINGS, as_long, good_header, read_counts, validators_at,
};
use definitions::{ExitQueue, Finality, Refusal, Settings};
use definitions_file::SETTINGS_AT;
use epochs::roots::roots_shaped;
use exit_queue::{exited, queue_of, same_queue};
use refusals::{
    good_finality, good_registry, good_settings, in_order, registry_shaped, settings_shaped,
};

// Reading

// The most that a validator's number at a place may be.
fn limit(place: usize) -> u64
    ensures { result ≡ limit_at place }
{
    match place {
        1 => 1,
        7 => 255,
        8 => 255,
        _ => 18446744073709551615,
    }
}

// Number by number through the reader, until one is bad or the last validator is read: where the reader stands.
fn first_bad(bytes: &[u8], from: usize, validators: usize) -> usize
    requires { from + 80 * validators ≤ length bytes.now }
    ensures { result ≡ stopped_at from (decode (numbers_from_bytes (10 * validators) (drop from bytes.now))) }
{
    let mut position: usize = from;
    'validators: for i in 0..validators {
        for k in 0..10 {
            let next = fields::reader::read_number(bytes, position);
            if limit(k) < next.number {
                break 'validators;
            }
            position = next.position;
        }
    }
    position
}

// 1, then 2 and 3, of a file whose header is good. `whole` tells whether every number of the registry is.
fn other_tests(
    bytes: &[u8],
    registry: &[u64],
    slashings: &[u64],
    whole: bool,
) -> Result<(), Refusal>
    requires { good_header bytes.now ≡ true }
    ensures { result ≡ other_tests bytes.now registry.now slashings.now whole }
{
    let counts = read_counts(bytes);
    let s = fields::read_settings(bytes);
    let f = fields::read_finality(bytes);
    in_order(
        &[
            counts.validators <= 16777216,
            settings_shaped(s),
            counts.roots == s.slots_per_historical_root,
            counts.slashings == s.epochs_per_slashings_vector,
            registry.len() as u64 == 10 * counts.validators,
            slashings.len() as u64 == counts.slashings,
        ],
        &[good_settings(s)],
        &[good_finality(f), whole],
    )
}

// The pair of the validators' exit epochs, from the bytes: the registry goes into its buffer only once every test has passed.
fn queue_at(bytes: &[u8], from: usize, validators: usize) -> ExitQueue
    requires { from + 80 * validators ≤ length bytes.now }
    ensures { result ≡ queue_of (decode (numbers_from_bytes (10 * validators) (drop from bytes.now))) }
{
    let mut queue = ExitQueue {
        last_epoch: 0,
        number: 0,
    };
    for i in 0..validators {
        let at = from + 8 * (10 * i + 4);
        let next = fields::reader::read_number(bytes, at);
        queue = exited(queue, next.number);
    }
    queue
}

// What the tests answered, the position at which reading stopped, and the pair, which is zeros on refusal.
#[derive(Clone, Copy)]
pub struct Tested {
    pub tested: Result<(), Refusal>,
    pub position: u64,
    pub queue: ExitQueue,
}

fn refused(refusal: Refusal, position: u64) -> Tested
    ensures { result ≡ nothing_at refusal position }
{
    Tested {
        tested: Err(refusal),
        position,
        queue: ExitQueue {
            last_epoch: 0,
            number: 0,
        },
    }
}

// Test 8, once the others have passed. In version 1 the pair is worked out, and there is nothing to test.
fn queue_tests(bytes: &[u8], version: u64, from: usize, validators: usize) -> Tested
    requires version_value { (version ≡ version_of bytes.now) × (from ≡ validators_at version) × (validators ≡ count_of bytes.now) }
    requires le_version { (1 ≤ version) × (version ≤ 2) × (from + 80 * validators ≤ length bytes.now) }
    ensures { QueueAnswered bytes.now result.tested result.position result.queue }
{
    let own = queue_at(bytes, from, validators);
    if version == 1 {
        return Tested {
            tested: Ok(()),
            position: bytes.len() as u64,
            queue: own,
        };
    }
    let stored = fields::read_queue(bytes);
    if !same_queue(stored, own) {
        return refused(Refusal::WrongQueue, PAIR);
    }
    Tested {
        tested: Ok(()),
        position: bytes.len() as u64,
        queue: stored,
    }
}

// 6, then 1, 2, 3, then 8.
pub fn read_tests(bytes: &[u8], registry: &[u64], slashings: &[u64]) -> Tested
    ensures { Answered bytes.now registry.now slashings.now result.tested result.position result.queue }
{
    if bytes.len() < SETTINGS_AT {
        return refused(Refusal::BadFile, 0);
    }
    if !good_header(bytes) {
        return refused(Refusal::BadFile, SETTINGS);
    }
    let counts = read_counts(bytes);
    let version = counts.version;
    let validators = counts.validators as usize;
    let from = validators_at(version) as usize;
    let stopped = first_bad(bytes, from, validators);
    let whole = stopped == from + 80 * validators;
    match other_tests(bytes, registry, slashings, whole) {
        Ok(()) => queue_tests(bytes, version, from, validators),
        Err(Refusal::BadRecord) => {
            if !good_finality(fields::read_finality(bytes)) {
                return refused(Refusal::BadRecord, PAIR);
            }
            refused(Refusal::BadRecord, stopped as u64)
        }
        Err(refusal) => refused(refusal, FINALITY),
    }
}

// Writing

// 1, then 2, 3, then 8.
pub fn write_tests(
    settings: Settings,
    finality: Finality,
    queue: ExitQueue,
    registry: &[u64],
    roots: &[u8],
    slashings: &[u64],
    file: &[u8],
) -> Result<(), Refusal>
    ensures { result
        ≡ write_tests (contents_with settings finality registry.now roots.now slashings.now) queue file.now }
{
    let n = (registry.len() / 10) as u64;
    let root_count = settings.slots_per_historical_root;
    let slashing_count = settings.epochs_per_slashings_vector;
    in_order(
        &[
            settings_shaped(settings),
            registry_shaped(registry),
            roots_shaped(settings, roots),
            slashings.len() as u64 == slashing_count,
            as_long(file.len() as u64, 2, n, root_count, slashing_count),
        ],
        &[good_settings(settings)],
        &[good_finality(finality), good_registry(registry)],
    )?;
    let own = queue_of(registry);
    if !same_queue(queue, own) {
        return Err(Refusal::WrongQueue);
    }
    Ok(())
}
