//! Which rows a question may need. A sentence asks for a row at each Exists node, anew for each
//! list of rows of the Foralls around it; a row asked for so is a row term. Where the tables whose
//! rows are asked for can be put in order, each behind those on which it waits, there are finitely
//! many row terms, and here they have their numbers.
//!
//! The layer above may use the types, `sort_order`, `rows_of` and the law. A reader must believe
//! `specs/Preorder` (the nodes of a sentence with their numbers), `specs/Graph` (which tables are
//! live, what an edge, a cycle and an order of the live tables are), `specs/Terms` (the row terms
//! in their order) and `specs/Stops` (what is said of the answers that are not Ok). `specs/inner`
//! speaks of the steps in between, and no public clause cites it.
//!
//! Of wrong bodies the contracts let through only those that answer `NoMemory` though there is
//! memory, since no clause can say when memory ends.
#![tactic(auto)]

mod asks;
mod count;
mod edges;
mod laws;
mod order;
mod rows;
mod term;

pub use laws::orders_exclude_cycles;
pub use order::{SortStop, sort_order};
pub use rows::{RowsStop, rows_of};
pub use term::{Order, RowTerm, Rows};
