// Trying an outage on input of any length, with buffers of its own.
ghost use Rattle.std.specs.Prelude.{◌≡◌, ◌≤◌, length, take, drop};
ghost use Rattle.definitions_file.specs.OutageInput.{file_in, tail_in};
ghost use Rattle.definitions_file.specs.Outage.{outage};
ghost use Rattle.outage.specs.Lent.{Printed};
ghost use Rattle.outage.specs.Text.{printed_text, printed_length};

use crate::put_text;
use definitions::Refusal;
use definitions_file::{LONGEST_OUTAGE, MOST_INPUT};
use fields::reader::read_number;
use listing_lines::text::put_refused;

// Long enough for the ten numbers of 814 validators, and for 8146 slashings: 65536 bytes hold no more.
fn numbers() -> [u64; 8146]
    ensures { 8146 ≡ length result }
{
    [0; 8146]
}

// Long enough for 2036 roots.
fn bytes() -> [u8; 65168]
    ensures { 65168 ≡ length result }
{
    [0; 65168]
}

// Where the file ends: at its header's length, or where the input does.
fn file_end(input: &[u8]) -> usize
    requires { 16 ≤ length input.now }
    ensures upper_bound { result ≤ length input.now }
    ensures input_value { (take result input.now ≡ file_in input.now) × (drop result input.now ≡ tail_in input.now) }
{
    let next = read_number(input, 8);
    if (input.len() as u64) < next.number {
        return input.len();
    }
    next.number as usize
}

fn put_input(input: &[u8], text: &mut [u8]) -> usize
    requires { 964000 ≤ length text.old }
    ensures { Printed (outage input.now) text.old text.new result }
{
    if MOST_INPUT < input.len() {
        return put_refused(text, 0, Refusal::BadFile.number());
    }
    if input.len() < 80 {
        return put_refused(text, 0, Refusal::BadFile.number());
    }
    let end = file_end(input);
    let mut opening = numbers();
    let mut absences = numbers();
    let mut registry = numbers();
    let mut slashings = numbers();
    let mut roots = bytes();
    let mut closing_registry = numbers();
    let mut closing_slashings = numbers();
    put_text(
        &input[..end],
        &input[end..],
        &mut opening,
        &mut absences,
        &mut registry,
        &mut slashings,
        &mut roots,
        &mut closing_registry,
        &mut closing_slashings,
        text,
    )
}

// The text's length. A text of 964000 bytes is long enough for every input; where a shorter one is lent the answer is 0 and nothing is
// written.
pub fn try_outage(input: &[u8], text: &mut [u8]) -> usize
    ensures value { result ≡ printed_length input.now text.old }
    ensures text_after { text.new ≡ printed_text input.now text.old }
    ensures upper_bound { (result ≤ length text.new) × (result ≡ length (take result text.new)) }
{
    if text.len() < LONGEST_OUTAGE {
        return 0;
    }
    put_input(input, text)
}
