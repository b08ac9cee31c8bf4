//! What the counter sentences of questions are made of, and where: that the conditions in them can
//! be translated where they stand, and that they fit the schema and are sentences.
//!
//! All functions but two are laws. The numbers of the definitions are of any size, and a sentence
//! has moderate bounds: that a condition's numbers have 64 bits, as those of its type do, comes
//! from `condition_has_small_numbers`, which reads it; `value_is_small` says so of a value.
//!
//! The layer above may cite the laws. Of `specs/` a reader must believe `SmallNumbers` (which
//! numbers have 64 bits); the rest stands in `Counters`, `Sentences` and `Bounds` of
//! `sort_formula`, in `Scopes` of `truth_formula` and in `Asked` of `lint_core`.
#![tactic(auto)]

mod numbers;
mod room;
mod sentences;

pub use numbers::{condition_has_small_numbers, value_is_small};
pub use room::asked_sentences_have_room;
pub use sentences::{
    asked_sentences_are_sentences, asked_sentences_fit, small_numbers_give_small_bounds,
};
