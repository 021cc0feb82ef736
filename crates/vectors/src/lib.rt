// The stored list in blocks of words, and its leaf cases: reference/vectors/README.md has its form. Nothing here trusts a
// block: what would lie outside it reads as 0 or as empty, and a case whose parts do not fill it is refused.
#![tactic(auto)]

mod answers;
mod case;
mod inputs;
pub mod records;
mod shape;
mod words;

pub use answers::{
    deltas_agree, finality_agrees, finality_stands, lent_agrees, number_agrees, root_agrees,
    total_agrees, truth_agrees,
};
pub use case::{Case, counted, first_case, next_case, read_case, whole_words};
pub use inputs::{copy_lent, finality, finality_at, lent, number, roots, settings, settings_at};
pub use words::{NOWHERE, bytes_part, fill, part, past, room, word};
