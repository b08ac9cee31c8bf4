//! The constraints of a schema as sentences.
//!
//! The layer above may use `axioms`. Of `specs/` a reader must believe `Spoken`; which sentences
//! they are is `Axioms` of `sort_formula`. The laws `axioms_are_the_constraints` and
//! `accepted_sentence_fails` of `truth_laws` say what they are for, and what an accepted
//! certificate shows.
//!
//! Of wrong bodies the contracts let through only those that answer `NoMemory` though there is
//! memory, since no clause can say when memory ends: the cases of `worked_meaning` show that the
//! axioms are made.
#![tactic(auto)]

mod axiom;
mod condition;
mod kinds;
mod listing;
mod reference;
mod sentences;
mod uniqueness;

pub use axiom::Axiom;
pub use listing::axioms;
