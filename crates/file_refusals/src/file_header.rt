// The header of a record file, and test 6: as long as called for, and the ten numbers as they must be.
ghost use Rattle.std.specs.Prelude.{◌≡◌, ◌^◌, ◌≤◌, ◌<◌, eqb, length};
ghost use Rattle.definitions_file.specs.File.{validators_at, file_length, header, version_of, count_of, root_count_of, slashing_count_of, good_header};

use definitions_file::{FINALITY_AT, QUEUE_AT, SETTINGS_AT};

// Where settings, finality and pair stand, as a header and a refusal's position say it.
pub const SETTINGS: u64 = SETTINGS_AT as u64;

pub const FINALITY: u64 = FINALITY_AT as u64;

pub const PAIR: u64 = QUEUE_AT as u64;

// Behind the pair, which version 2 has.
pub fn validators_at(version: u64) -> u64
    requires { (1 ≤ version) × (version ≤ 2) }
    ensures { result ≡ validators_at version }
{
    PAIR + 16 * (version - 1)
}

// Whether a file is as long as its counts call for. Each count is compared with what is left of the length, so nothing wraps.
pub fn as_long(length: u64, version: u64, validators: u64, roots: u64, slashings: u64) -> bool
    requires { (1 ≤ version) × (version ≤ 2) }
    ensures { result ≡ eqb length (file_length version validators roots slashings) }
{
    let from = validators_at(version);
    if length < from {
        return false;
    }
    let from_validators = length - from;
    if from_validators / 80 < validators {
        return false;
    }
    let from_roots = from_validators - 80 * validators;
    if from_roots / 32 < roots {
        return false;
    }
    let from_slashings = from_roots - 32 * roots;
    if from_slashings / 8 < slashings {
        return false;
    }
    if 8 * slashings < from_slashings {
        return false;
    }
    true
}

pub fn header_of(version: u64, validators: u64, roots: u64, slashings: u64) -> [u64; 10]
    requires { (1 ≤ version) × (version ≤ 2) × (file_length version validators roots slashings < 2 ^ 64) }
    ensures { result ≡ header version validators roots slashings }
{
    let from = validators_at(version);
    let roots_at = from + 80 * validators;
    let slashings_at = roots_at + 32 * roots;
    let end = slashings_at + 8 * slashings;
    [
        version,
        end,
        validators,
        roots,
        slashings,
        SETTINGS,
        FINALITY,
        from,
        roots_at,
        slashings_at,
    ]
}

// Test 6.
pub fn good_header(bytes: &[u8]) -> bool
    ensures { result ≡ good_header bytes.now }
{
    if bytes.len() < SETTINGS_AT {
        return false;
    }
    let mut found = [0u64; 10];
    fields::read_numbers(bytes, 0, &mut found);
    let version = found[0];
    let validators = found[2];
    let roots = found[3];
    let slashings = found[4];
    if version < 1 {
        return false;
    }
    if 2 < version {
        return false;
    }
    if !as_long(bytes.len() as u64, version, validators, roots, slashings) {
        return false;
    }
    found == header_of(version, validators, roots, slashings)
}

// N, S, L and the version.
#[derive(Clone, Copy)]
pub struct Counts {
    pub validators: u64,
    pub roots: u64,
    pub slashings: u64,
    pub version: u64,
}

pub fn read_counts(bytes: &[u8]) -> Counts
    requires { 80 ≤ length bytes.now }
    ensures { (result.validators ≡ count_of bytes.now)
        × (result.roots ≡ root_count_of bytes.now)
        × (result.slashings ≡ slashing_count_of bytes.now)
        × (result.version ≡ version_of bytes.now) }
{
    let validators = fields::reader::read_number(bytes, 16);
    let roots = fields::reader::read_number(bytes, validators.position);
    let slashings = fields::reader::read_number(bytes, roots.position);
    let version = fields::reader::read_number(bytes, 0);
    Counts {
        validators: validators.number,
        roots: roots.number,
        slashings: slashings.number,
        version: version.number,
    }
}
