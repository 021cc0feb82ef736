// All that trying an outage prints, put into lent bytes.
#![tactic(auto)]

ghost use Rattle.std.specs.Prelude.{◌≡◌, true, ◌+◌, ◌*◌, ◌/◌, ◌^◌, ◌≤◌, length};
ghost use Rattle.definitions.specs.Refusals.{registry_shaped};
ghost use Rattle.definitions_file.specs.File.{count_of, contents_with};
ghost use Rattle.fields.specs.Put.{Put};
ghost use Rattle.definitions_file.specs.OutageInput.{plan_of, good_tail};
ghost use Rattle.definitions_file.specs.OutageRun.{run};
ghost use Rattle.definitions_file.specs.Outage.{lines_text, run_text, text_of};
ghost use Rattle.listing_lines.specs.Sizes.{longest_head, longest_line, longest_refused};
ghost use Rattle.outage.specs.Ready.{Ready};
ghost use Rattle.outage.specs.Went.{Room};
ghost use Rattle.outage.specs.Lent.{Printed, Exact, Opened, Enough};

pub mod file_outage;
pub mod outage_preparation;
pub mod outage_run;

use crate::outage_run::run_epochs;
use definitions::{Finality, Refusal, Settings};
use fields::reader::read_number;
use fields::{put_bytes, read_numbers};
use listing_lines::changes;
use listing_lines::text::{put_lines, put_refused};
use record_file::{file_roots, read_file, read_header};

// The validator lines, or refusal 7 in place of all of them.
fn put_rows(text: &mut [u8], at: usize, opening: &[u64], closing: &[u64]) -> usize
    requires opening_value { (registry_shaped opening.now ≡ true) × (length closing.now ≡ length opening.now) }
    requires opening_in_bounds { at + longest_refused + longest_line * (length opening.now / 10) ≤ length text.old }
    ensures put { Put text.old at (lines_text opening.now closing.now) text.new result }
    ensures upper_bound { result ≤ length text.old }
{
    if let Err(refusal) = changes(opening, closing) {
        return put_refused(text, at, refusal.number());
    }
    put_lines(text, at, opening, closing)
}

// The run and its text. `opening` is the file's registry, and so is `registry` at first.
fn put_run(
    s: Settings,
    finality: Finality,
    epochs: u64,
    root: &[u8],
    absences: &[u64],
    opening: &[u64],
    registry: &mut [u64],
    slashings: &mut [u64],
    roots: &mut [u8],
    closing_registry: &mut [u64],
    closing_slashings: &mut [u64],
    text: &mut [u8],
) -> usize
    requires ready { Ready s finality.slot (length registry.old / 10) registry.old roots.old root.now absences.now }
    requires room { Room epochs registry.old slashings.old closing_registry.old closing_slashings.old text.old 0 }
    requires opening_value { (registry_shaped opening.now ≡ true) × (opening.now ≡ registry.old) }
    requires opening_in_bounds { longest_head * epochs + longest_refused + longest_line * (length opening.now / 10) ≤ length text.old }
    ensures { Printed (run_text (contents_with s finality opening.now roots.old slashings.old)
        (run (plan_of root.now absences.now) epochs
        (contents_with s finality opening.now roots.old slashings.old))) text.old text.new
        result }
{
    let ran = run_epochs(
        s,
        finality,
        epochs,
        root,
        absences,
        registry,
        slashings,
        roots,
        closing_registry,
        closing_slashings,
        text,
    );
    if ran.refusal != 0 {
        return put_refused(text, ran.last, ran.refusal);
    }
    put_rows(text, ran.last, opening, &registry[..])
}

fn good_tail(validators: u64, tail: &[u8]) -> bool
    requires { validators ≤ 2 ^ 24 }
    ensures { result ≡ good_tail validators tail.now }
{
    if tail.len() as u64 != 40 + 16 * validators {
        return false;
    }
    let epochs = read_number(tail, 0);
    epochs.number <= 4096
}

// A file that has been read, and its tail: the run. Everything lent but the text is filled from them.
fn put_read(
    s: Settings,
    finality: Finality,
    file: &[u8],
    tail: &[u8],
    opening: &mut [u64],
    absences: &mut [u64],
    registry: &mut [u64],
    slashings: &mut [u64],
    roots: &mut [u8],
    closing_registry: &mut [u64],
    closing_slashings: &mut [u64],
    text: &mut [u8],
) -> usize
    requires exact { Exact file.now opening.old absences.old registry.old slashings.old roots.old closing_registry.old closing_slashings.old
        text.old }
    requires opened { Opened file.now s finality registry.old slashings.old }
    requires tail_value { good_tail (count_of file.now) tail.now ≡ true }
    ensures { Printed (text_of file.now tail.now) text.old text.new result }
{
    opening.copy_from_slice(&registry[..]);
    let read_roots = file_roots(file);
    put_bytes(roots, 0, read_roots);
    read_numbers(tail, 40, absences);
    let epochs = read_number(tail, 0);
    put_run(
        s,
        finality,
        epochs.number,
        &tail[8..40],
        &absences[..],
        &opening[..],
        registry,
        slashings,
        roots,
        closing_registry,
        closing_slashings,
        text,
    )
}

// The file's own tests, then the tail's, then the run.
fn put_file(
    file: &[u8],
    tail: &[u8],
    opening: &mut [u64],
    absences: &mut [u64],
    registry: &mut [u64],
    slashings: &mut [u64],
    roots: &mut [u8],
    closing_registry: &mut [u64],
    closing_slashings: &mut [u64],
    text: &mut [u8],
) -> usize
    requires { Exact file.now opening.old absences.old registry.old slashings.old roots.old closing_registry.old closing_slashings.old
        text.old }
    ensures { Printed (text_of file.now tail.now) text.old text.new result }
{
    let read = read_file(file, registry, slashings);
    if read.refusal != 0 {
        return put_refused(text, 0, read.refusal);
    }
    if !good_tail((registry.len() / 10) as u64, tail) {
        return put_refused(text, 0, Refusal::BadShape.number());
    }
    let s = read.settings;
    let finality = read.finality;
    put_read(
        s,
        finality,
        file,
        tail,
        opening,
        absences,
        registry,
        slashings,
        roots,
        closing_registry,
        closing_slashings,
        text,
    )
}

// Of each buffer the front that the file's header calls for.
pub fn put_text(
    file: &[u8],
    tail: &[u8],
    opening: &mut [u64],
    absences: &mut [u64],
    registry: &mut [u64],
    slashings: &mut [u64],
    roots: &mut [u8],
    closing_registry: &mut [u64],
    closing_slashings: &mut [u64],
    text: &mut [u8],
) -> usize
    requires { Enough file.now opening.old absences.old registry.old slashings.old roots.old closing_registry.old closing_slashings.old
        text.old }
    ensures { Printed (text_of file.now tail.now) text.old text.new result }
{
    let h = read_header(file);
    if h.refusal != 0 {
        return put_refused(text, 0, Refusal::BadFile.number());
    }
    let entries = 10 * (h.validators as usize);
    let pairs = 2 * (h.validators as usize);
    let sums = h.slashings as usize;
    let places = 32 * (h.roots as usize);
    put_file(
        file,
        tail,
        &mut opening[..entries],
        &mut absences[..pairs],
        &mut registry[..entries],
        &mut slashings[..sums],
        &mut roots[..places],
        &mut closing_registry[..entries],
        &mut closing_slashings[..sums],
        text,
    )
}
