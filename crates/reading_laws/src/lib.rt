//! Laws of reading, over the definitions of the crates below: every text has one lexing, its
//! tokens have one tree, and so every schema text and every piece of a query file has one reading,
//! or one refusal. Each law is the contract of a function that does nothing; only crates of laws
//! stand on this one.
//!
//! Of `specs/` a reader must believe `SameRefusal` (when two refusals tell the same) and
//! `Examples` (trees and tokens that `grammar_examples` joins); all else that the laws speak of
//! stands with the crates below.
#![tactic(auto)]

mod grammar;
mod lexing;
mod one_tree;
mod reading;

pub use grammar::{grammar_examples, grammar_words_are_reserved};
pub use lexing::{every_text_has_a_lexing, one_lexing};
pub use one_tree::{one_condition, one_predicate, one_query, one_schema, one_term};
pub use reading::{every_query_text_has_one_reading, every_schema_text_has_one_reading};
