//! The check of a file of certificates against a schema and queries that were read. It stands on
//! no solver: nothing is judged.
//!
//! The layer above may use `check_all`, of all certificates of a file, and cite the law
//! `accepted_lines_hold`: what a line that says accepted means of its question. Of `specs/` a
//! reader must believe `Named` (which question a certificate names), `Checks` (what its line says)
//! and `AcceptedLines` (the words of the law); `worked_checks` shows some by small examples.
//! `specs/inner` is cited by private clauses alone.
//!
//! Of wrong bodies the contracts let through only those that answer `NoMemory` though there is
//! memory, since no clause can say when memory ends.
#![tactic(auto)]

mod alone;
mod checks;
mod laws;
mod naming;

pub use checks::check_all;
pub use laws::{accepted_lines_hold, worked_checks};
