// A shelf of records in one call: the lengths are tested first, and then each file is closed by itself, in one pass over the shelf.
#![tactic(auto)]

ghost use Rattle.std.specs.Prelude.{◌≡◌, true, eqb, length};
ghost use Rattle.definitions.specs.Checked.{code_of};
ghost use Rattle.definitions.specs.Lists.{sum};
ghost use Rattle.definitions_file.specs.Shelf.{holds_longest, shelf_shaped, shelf_refusal, answers_for, parts_for, answers_after, closing_after, Working, shelf_of};

use definitions::{Bellatrix, Refusal};
use refusals::all_pass;
use shelf_file::close_file;

// Nothing wraps: each length is taken from what is left of the total.
fn sums_to(lengths: &[u64], total: u64) -> bool
    ensures { result ≡ eqb (sum lengths.now) total }
{
    let mut left = total;
    for &n in lengths {
        if left < n {
            return false;
        }
        left -= n;
    }
    left == 0
}

// A number of the working list for every 8 bytes, and one for what is left of a file.
fn holds_longest(lengths: &[u64], numbers: &[u64]) -> bool
    ensures { result ≡ holds_longest lengths.now numbers.now }
{
    for &n in lengths {
        let needed = n / 8 + (n % 8 + 7) / 8;
        if (numbers.len() as u64) < needed {
            return false;
        }
    }
    true
}

// Test 1 of the whole call.
fn shelf_shaped(
    files: &[u8],
    lengths: &[u64],
    closing: &[u8],
    opening_numbers: &[u64],
    closing_numbers: &[u64],
    answers: &[u64],
) -> bool
    ensures { result
        ≡ shelf_shaped
        (shelf_of files.now lengths.now closing.now opening_numbers.now closing_numbers.now
        answers.now) }
{
    all_pass(&[
        sums_to(lengths, files.len() as u64),
        closing.len() == files.len(),
        holds_longest(lengths, opening_numbers),
        holds_longest(lengths, closing_numbers),
        answers.len() == lengths.len(),
    ])
}

// File by file, each in its own part, to the last, whatever was answered before.
fn close_files(
    files: &[u8],
    lengths: &[u64],
    closing: &mut [u8],
    opening_numbers: &mut [u64],
    closing_numbers: &mut [u64],
    answers: &mut [u64],
    fork: u64,
    bellatrix: Bellatrix,
)
    requires { shelf_shaped (shelf_of files.now lengths.now closing.old opening_numbers.old closing_numbers.old answers.old) ≡ true }
    ensures answers_after { answers.new ≡ answers_for fork bellatrix lengths.now files.now }
    ensures closing_after { closing.new ≡ parts_for fork bellatrix lengths.now files.now closing.old }
{
    let mut at: usize = 0;
    let mut i: usize = 0;
    let mut more = 0 < lengths.len();
    while more {
        let end = at + (lengths[i] as usize);
        let answer = close_file(
            &files[at..end],
            fork,
            bellatrix,
            opening_numbers,
            closing_numbers,
            &mut closing[at..end],
        );
        answers[i] = answer;
        at = end;
        i += 1;
        more = i < lengths.len();
    }
}

// Refused with 1 where the lengths do not fit, and then nothing is written. The working lists end with any contents.
pub fn close_shelf(
    files: &[u8],
    lengths: &[u64],
    closing: &mut [u8],
    opening_numbers: &mut [u64],
    closing_numbers: &mut [u64],
    answers: &mut [u64],
    fork: u64,
    bellatrix: Bellatrix,
) -> Result<(), Refusal>
    ensures value { code_of result
        ≡ shelf_refusal
        (shelf_of files.now lengths.now closing.old opening_numbers.old closing_numbers.old
        answers.old) }
    ensures answers_after { answers.new
        ≡ answers_after fork bellatrix
        (shelf_of files.now lengths.now closing.old opening_numbers.old closing_numbers.old
        answers.old) }
    ensures closing_after { closing.new
        ≡ closing_after fork bellatrix
        (shelf_of files.now lengths.now closing.old opening_numbers.old closing_numbers.old
        answers.old) }
    ensures working { Working (code_of result) opening_numbers.old opening_numbers.new }
    ensures working_2 { Working (code_of result) closing_numbers.old closing_numbers.new }
{
    if !shelf_shaped(
        files,
        lengths,
        &closing[..],
        &opening_numbers[..],
        &closing_numbers[..],
        &answers[..],
    ) {
        return Err(Refusal::BadShape);
    }
    close_files(
        files,
        lengths,
        closing,
        opening_numbers,
        closing_numbers,
        answers,
        fork,
        bellatrix,
    );
    Ok(())
}
