// The record files of the stored list, in blocks of words: reference/vectors/README.md has its form. Where a record's parts and
// answers stand, and whether what a step left behind is what is stored.
mod closing;
mod differs;
mod outcome;
mod record;

pub use closing::{after, unwritten};
pub use differs::{
    FINALITY, NOTHING, POSITION, REFUSAL, ROOTS, SETTINGS, in_buffers, in_finality, in_refusal,
};
pub use outcome::{Outcome, read_outcome};
pub use record::{
    Record, all_roots, finality, finality_place, finalized_epoch, next_record, read_record,
    registry, roots, settings, settings_words, slashings, slot,
};
