//! Databases as INSERT statements, and names and values as a query has them.
//!
//! The layer above may use `insert_text`, which writes a database as INSERT statements, and
//! `push_inserts`, which adds them to a text; `push_name` and `push_value` add a name and a value
//! as a query has them, `is_plain_word` tells which names stand bare, and `insert_order` in which
//! order tables come. A reader must believe `specs/InsertText` and `InsertOrder`, and `PlainWord`
//! in `lint_core` with `Words` in `lint_tables`; `worked_inserts` are small examples. Crates above
//! may cite `proofs/Appends`: texts that are pushed one after another.
#![tactic(auto)]

mod inserting;
mod ordering;
mod worked;

pub use inserting::{insert_text, is_plain_word, push_inserts, push_name, push_value};
pub use ordering::insert_order;
pub use worked::worked_inserts;
