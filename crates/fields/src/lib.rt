// The fields of a record file: numbers, checkpoints, settings, finality and the exit queue's pair, read through the reader and written.
#![tactic(auto)]

ghost use Rattle.std.specs.Prelude.{◌≡◌, ◌+◌, ◌*◌, ◌≤◌, length, drop};
ghost use Rattle.std.proofs.lemmas.List.Edits.{sets};
ghost use Rattle.definitions.specs.Refusals.{settings_numbers, settings_from};
ghost use Rattle.definitions_file.specs.File.{little_endian, numbers_to_bytes, numbers_from_bytes, settings_at, checkpoint_at, finality_from, queue_from, checkpoint_to_bytes, finality_to_bytes, queue_to_bytes};

pub mod decimals;
pub mod reader;

use definitions::{Checkpoint, ExitQueue, Finality, Settings};
use definitions_file::{FINALITY_AT, QUEUE_AT, SETTINGS_AT};
use refusals::settings_numbers;

// As many numbers as the buffer holds.
pub fn read_numbers(bytes: &[u8], at: usize, numbers: &mut [u64])
    requires { at + 8 * length numbers.old ≤ length bytes.now }
    ensures { numbers.new ≡ numbers_from_bytes (length numbers.old) (drop at bytes.now) }
{
    let mut position = at;
    for i in 0..numbers.len() {
        let next = crate::reader::read_number(bytes, position);
        numbers[i] = next.number;
        position = next.position;
    }
}

pub fn put_number(file: &mut [u8], at: usize, n: u64)
    requires { at + 8 ≤ length file.old }
    ensures { file.new ≡ sets file.old at (little_endian 8 n) }
{
    file[at..at + 8].copy_from_slice(&n.to_le_bytes());
}

pub fn put_numbers(file: &mut [u8], at: usize, numbers: &[u64])
    requires { at + 8 * length numbers.now ≤ length file.old }
    ensures { file.new ≡ sets file.old at (numbers_to_bytes numbers.now) }
{
    let mut to = at;
    for &n in numbers {
        put_number(file, to, n);
        to += 8;
    }
}

pub fn put_bytes(file: &mut [u8], at: usize, bytes: &[u8])
    requires { at + length bytes.now ≤ length file.old }
    ensures { file.new ≡ sets file.old at bytes.now }
{
    for i in 0..bytes.len() {
        let to = at + i;
        file[to] = bytes[i];
    }
}

// From numbers in document 01's order.
pub fn settings_from(numbers: &[u64]) -> Settings
    requires { 19 ≤ length numbers.now }
    ensures { result ≡ settings_from numbers.now }
{
    Settings {
        slots_per_epoch: numbers[0],
        slots_per_historical_root: numbers[1],
        epochs_per_slashings_vector: numbers[2],
        effective_balance_increment: numbers[3],
        max_effective_balance: numbers[4],
        hysteresis_quotient: numbers[5],
        hysteresis_downward_multiplier: numbers[6],
        hysteresis_upward_multiplier: numbers[7],
        base_reward_factor: numbers[8],
        min_epochs_to_inactivity_penalty: numbers[9],
        inactivity_score_bias: numbers[10],
        inactivity_score_recovery_rate: numbers[11],
        inactivity_penalty_quotient_altair: numbers[12],
        proportional_slashing_multiplier_altair: numbers[13],
        max_seed_lookahead: numbers[14],
        min_validator_withdrawability_delay: numbers[15],
        ejection_balance: numbers[16],
        min_per_epoch_churn_limit: numbers[17],
        churn_limit_quotient: numbers[18],
    }
}

pub fn read_settings(bytes: &[u8]) -> Settings
    requires { 232 ≤ length bytes.now }
    ensures { result ≡ settings_from (numbers_from_bytes 19 (drop settings_at bytes.now)) }
{
    let mut n = [0u64; 19];
    read_numbers(bytes, SETTINGS_AT, &mut n);
    settings_from(&n)
}

// An epoch, then 32 bytes of root.
fn checkpoint_at(bytes: &[u8], at: usize) -> Checkpoint
    requires { at + 40 ≤ length bytes.now }
    ensures { result ≡ checkpoint_at at bytes.now }
{
    let epoch = crate::reader::read_number(bytes, at);
    let from = epoch.position;
    let mut root = [0u8; 32];
    root.copy_from_slice(&bytes[from..from + 32]);
    Checkpoint {
        epoch: epoch.number,
        root,
    }
}

// Slot, bits, then three checkpoints of 40 bytes.
const CURRENT_AT: usize = FINALITY_AT + 56;

const FINALIZED_AT: usize = CURRENT_AT + 40;

pub fn read_finality(bytes: &[u8]) -> Finality
    requires { 368 ≤ length bytes.now }
    ensures { result ≡ finality_from bytes.now }
{
    let slot = crate::reader::read_number(bytes, FINALITY_AT);
    let bits = crate::reader::read_number(bytes, slot.position);
    let previous = checkpoint_at(bytes, bits.position);
    let current = checkpoint_at(bytes, CURRENT_AT);
    let finalized = checkpoint_at(bytes, FINALIZED_AT);
    Finality {
        slot: slot.number,
        justification_bits: bits.number,
        previous_justified_checkpoint: previous,
        current_justified_checkpoint: current,
        finalized_checkpoint: finalized,
    }
}

// The second of the pair that version 2 stores.
const NUMBER_AT: usize = QUEUE_AT + 8;

// The pair that version 2 stores.
pub fn read_queue(bytes: &[u8]) -> ExitQueue
    requires { 384 ≤ length bytes.now }
    ensures { result ≡ queue_from bytes.now }
{
    let last_epoch = crate::reader::read_number(bytes, QUEUE_AT);
    let number = crate::reader::read_number(bytes, NUMBER_AT);
    ExitQueue {
        last_epoch: last_epoch.number,
        number: number.number,
    }
}

pub fn put_settings(file: &mut [u8], at: usize, s: Settings)
    requires { at + 152 ≤ length file.old }
    ensures { file.new ≡ sets file.old at (numbers_to_bytes (settings_numbers s)) }
{
    put_numbers(file, at, &settings_numbers(s));
}

fn put_checkpoint(file: &mut [u8], at: usize, c: Checkpoint)
    requires { at + 40 ≤ length file.old }
    ensures { file.new ≡ sets file.old at (checkpoint_to_bytes c) }
{
    let root = c.root;
    put_number(file, at, c.epoch);
    let to = at + 8;
    put_bytes(file, to, &root);
}

pub fn put_finality(file: &mut [u8], at: usize, f: Finality)
    requires { at + 136 ≤ length file.old }
    ensures { file.new ≡ sets file.old at (finality_to_bytes f) }
{
    let previous = f.previous_justified_checkpoint;
    let current = f.current_justified_checkpoint;
    let finalized = f.finalized_checkpoint;
    put_number(file, at, f.slot);
    put_number(file, at + 8, f.justification_bits);
    put_checkpoint(file, at + 16, previous);
    put_checkpoint(file, at + 56, current);
    put_checkpoint(file, at + 96, finalized);
}

pub fn put_queue(file: &mut [u8], at: usize, q: ExitQueue)
    requires { at + 16 ≤ length file.old }
    ensures { file.new ≡ sets file.old at (queue_to_bytes q) }
{
    put_number(file, at, q.last_epoch);
    put_number(file, at + 8, q.number);
}
