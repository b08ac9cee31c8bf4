//! From the bytes of a schema, or of a piece of a query file, to its bound form or to its first
//! refusal: the lexer, the parsers and the binder, one behind the other.
//!
//! The layer above may use `read_schema` and `read_query`. Of `specs/` a reader must believe
//! `TextReading` (what a text reads as, and why it is refused) and `Stopping` (why a reading
//! stops); what tokens, trees and bound forms are stands with their crates.
//!
//! Of wrong bodies the contracts let through only those that answer `NoMemory` though there is
//! memory, since no clause can say when memory ends: the runs of `sqllint` and the cases of
//! `worked_runs` show that texts are read.
#![tactic(auto)]

mod reading;

pub use reading::{read_query, read_schema};
