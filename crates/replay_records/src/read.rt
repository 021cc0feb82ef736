// read_file and file_roots: what they answer is what stands in the file, or zeros where it is refused.
use definitions::{Finality, Settings};
use definitions_file::ReadAnswer;
use refusals::settings_numbers;
use vectors::records::{
    FINALITY, NOTHING, Outcome, POSITION, REFUSAL, ROOTS, Record, SETTINGS, after, all_roots,
    finality_place, settings_words,
};
use vectors::{bytes_part, finality_stands, word};

// The contents that come back are those of the file at a place.
fn in_contents(
    s: Settings,
    f: Finality,
    roots: &[u8],
    file: usize,
    words: &[u64],
    bytes: &[u8],
) -> u64 {
    let found = settings_numbers(s);
    let stored = settings_words(file, words);
    if !after(0, stored, &stored[0..0], &found) {
        return SETTINGS;
    }
    if !finality_stands(f, words, bytes, finality_place(file, words)) {
        return FINALITY;
    }
    if roots != all_roots(file, words, bytes) {
        return ROOTS;
    }
    NOTHING
}

// Those of a file of zeros.
fn in_zeros(s: Settings, f: Finality, roots: &[u8]) -> u64 {
    let words = [0u64; 46];
    let bytes = [0u8; 368];
    in_contents(s, f, roots, 0, &words, &bytes)
}

fn in_answer(
    answer: ReadAnswer,
    roots: &[u8],
    o: Outcome,
    file: usize,
    words: &[u64],
    bytes: &[u8],
) -> u64 {
    if answer.refusal != o.refusal {
        return REFUSAL;
    }
    if answer.position != word(words, o.given, 0) {
        return POSITION;
    }
    let s = answer.settings;
    let f = answer.finality;
    if o.refusal != 0 {
        return in_zeros(s, f, roots);
    }
    in_contents(s, f, roots, file, words, bytes)
}

// Which part of what comes back differs.
pub fn read_file(
    r: Record,
    o: Outcome,
    words: &[u64],
    bytes: &[u8],
    registry: &mut [u64],
    slashings: &mut [u64],
) -> u64 {
    let file = bytes_part(bytes, r.file, r.file_bytes);
    let answer = record_file::read_file(file, registry, slashings);
    if answer.refusal != 0 {
        return in_answer(answer, &file[0..0], o, r.file, words, bytes);
    }
    let roots = record_file::file_roots(file);
    in_answer(answer, roots, o, r.file, words, bytes)
}
