// One file of a shelf: its tests, its close with two working lists, and the closed record as a file in its part.
#![tactic(auto)]

ghost use Rattle.std.specs.Prelude.{◌≡◌, ◌&&◌, ◌*◌, ◌≤◌, eqb, length, take};
ghost use Rattle.definitions.specs.Checked.{value};
ghost use Rattle.definitions.specs.Rust.Phase0.EpochProcessing.{reset_slashings};
ghost use Rattle.definitions.specs.Record.{decode};
ghost use Rattle.definitions.specs.ExitQueue.{queue_of};
ghost use Rattle.definitions_file.specs.File.{version_of, contents_of, good_header, file_of, contents_with};
ghost use Rattle.definitions_file.specs.ClosedFile.{file_tests, answer_for, part_for};
ghost use Rattle.record_file.specs.Sized.{Sized};
ghost use Rattle.registry_close.specs.Worked.{state_now, Tested, Worked};
ghost use Rattle.shelf_file.specs.Parts.{Counted, numbers_behind, Opened, FileClosed};

use definitions::{Bellatrix, CloseAnswer, Finality, Refusal, Rules, Settings};
use definitions_file::VALIDATORS_AT;
use exit_queue::queue_of;
use fields::{put_bytes, read_finality, read_numbers, read_settings};
use file_refusals::file_header::{good_header, read_counts};
use file_refusals::read_tests;
use record_file::{file_roots, put_record};
use refusals::rules::{rules_refusal, settings_under};
use registry_close::close_registry;
use slashings::slashings_reset_core;

// Test 6, which version 1 does not pass on a shelf.
fn on_shelf(file: &[u8]) -> bool
    ensures { result ≡ (good_header file.now && eqb (version_of file.now) 2) }
{
    if !good_header(file) {
        return false;
    }
    let version = fields::reader::read_number(file, 0);
    version.number == 2
}

// The other tests. The registry has the first `a` of the numbers, the slashings those up to `b`.
fn file_tests(file: &[u8], rules: Rules, a: usize, b: usize, numbers: &[u64]) -> Result<(), Refusal>
    requires counted { Counted file.now a b numbers.now }
    requires settings_value { rules.settings ≡ (contents_of file.now).settings }
    ensures { result ≡ file_tests rules.fork rules.bellatrix file.now }
{
    let tested = read_tests(file, &numbers[..a], &numbers[a..b]);
    rules_refusal(rules, tested.tested)
}

fn read_opening(file: &[u8], a: usize, b: usize, numbers: &mut [u64])
    requires { Counted file.now a b numbers.old }
    ensures { Opened file.now a b numbers.new }
{
    let slashings_at = file.len() - 8 * (b - a);
    read_numbers(file, VALIDATORS_AT, &mut numbers[..a]);
    read_numbers(file, slashings_at, &mut numbers[a..b]);
}

fn close_opening(
    s: Settings,
    finality: Finality,
    roots: &[u8],
    numbers: &[u64],
    a: usize,
    b: usize,
    closing: &mut [u64],
) -> CloseAnswer
    requires a_le_b { (a ≤ b) × (b ≤ length numbers.now) × (length closing.old ≡ a) }
    requires tested { Tested s finality (take a numbers.now) (numbers_behind a b numbers.now) roots.now }
    ensures { Worked s (state_now finality (take a numbers.now) (numbers_behind a b numbers.now) roots.now) closing.new
        (reset_slashings s finality.slot (numbers_behind a b numbers.now)) result }
{
    close_registry(s, finality, &numbers[..a], &numbers[a..b], roots, closing)
}

fn put_closed(
    settings: Settings,
    finality: Finality,
    roots: &[u8],
    numbers: &[u64],
    a: usize,
    b: usize,
    closing: &[u64],
    part: &mut [u8],
)
    requires a_le_b { (a ≤ b) × (b ≤ length numbers.now) }
    requires sized { Sized (contents_with settings finality closing.now roots.now (numbers_behind a b numbers.now)) part.old }
    ensures { part.new
        ≡ file_of (contents_with settings finality closing.now roots.now (numbers_behind a b numbers.now))
        (queue_of (decode closing.now)) }
{
    let queue = queue_of(closing);
    put_record(
        settings,
        finality,
        queue,
        closing,
        roots,
        &numbers[a..b],
        part,
    );
}

// A file that has passed its tests. Where a step is refused, its own bytes go into its part.
fn close_passed(
    file: &[u8],
    rules: Rules,
    a: usize,
    b: usize,
    numbers: &mut [u64],
    closing: &mut [u64],
    part: &mut [u8],
) -> u64
    requires counted { Counted file.now a b numbers.old }
    requires settings_value { (rules.settings ≡ (contents_of file.now).settings) × (file_tests rules.fork rules.bellatrix file.now ≡ value tt) }
    requires closing_len { (length closing.old ≡ a) × (length part.old ≡ length file.now) }
    ensures { FileClosed rules.fork rules.bellatrix file.now part.old part.new result }
{
    let settings = rules.settings;
    let s = settings_under(rules);
    let finality = read_finality(file);
    read_opening(file, a, b, numbers);
    let roots = file_roots(file);
    let answer = close_opening(s, finality, roots, &numbers[..], a, b, closing);
    if answer.refusal != 0 {
        put_bytes(part, 0, file);
        return answer.refusal;
    }
    let after = answer.finality;
    slashings_reset_core(s, finality.slot, &mut numbers[a..b]);
    put_closed(
        settings,
        after,
        roots,
        &numbers[..],
        a,
        b,
        &closing[..],
        part,
    );
    0
}

// The working lists end with any contents.
pub fn close_file(
    file: &[u8],
    fork: u64,
    bellatrix: Bellatrix,
    opening_numbers: &mut [u64],
    closing_numbers: &mut [u64],
    part: &mut [u8],
) -> u64
    requires part_len { length part.old ≡ length file.now }
    requires file_len_bound { (length file.now ≤ 8 * length opening_numbers.old) × (length file.now ≤ 8 * length closing_numbers.old) }
    ensures value { result ≡ answer_for fork bellatrix file.now }
    ensures part_after { part.new ≡ part_for fork bellatrix file.now part.old }
{
    if !on_shelf(file) {
        return Refusal::BadFile.number();
    }
    let counts = read_counts(file);
    let a = 10 * (counts.validators as usize);
    let b = a + (counts.slashings as usize);
    let settings = read_settings(file);
    let rules = Rules {
        settings,
        fork,
        bellatrix,
    };
    if let Err(refusal) = file_tests(file, rules, a, b, &opening_numbers[..]) {
        return refusal.number();
    }
    close_passed(
        file,
        rules,
        a,
        b,
        opening_numbers,
        &mut closing_numbers[..a],
        part,
    )
}
