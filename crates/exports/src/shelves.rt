// A shelf of records.
ghost use Rattle.std.specs.Prelude.{◌≡◌};
ghost use Rattle.definitions_file.specs.Shelf.{shelf_refusal, answers_after, closing_after, Working, shelf_of};

use definitions::{Bellatrix, code};

#[unsafe(no_mangle)]
pub extern "C" fn altair_close_shelf(
    files: &[u8],
    lengths: &[u64],
    closing: &mut [u8],
    opening_numbers: &mut [u64],
    closing_numbers: &mut [u64],
    answers: &mut [u64],
    fork: u64,
    bellatrix: Bellatrix,
) -> u64
    ensures value { result
        ≡ shelf_refusal
        (shelf_of files.now lengths.now closing.old opening_numbers.old closing_numbers.old
        answers.old) }
    ensures answers_after { answers.new
        ≡ answers_after fork bellatrix
        (shelf_of files.now lengths.now closing.old opening_numbers.old closing_numbers.old
        answers.old) }
    ensures closing_after { closing.new
        ≡ closing_after fork bellatrix
        (shelf_of files.now lengths.now closing.old opening_numbers.old closing_numbers.old
        answers.old) }
    ensures working { Working result opening_numbers.old opening_numbers.new }
    ensures working_2 { Working result closing_numbers.old closing_numbers.new }
{
    code(shelf::close_shelf(
        files,
        lengths,
        closing,
        opening_numbers,
        closing_numbers,
        answers,
        fork,
        bellatrix,
    ))
}
