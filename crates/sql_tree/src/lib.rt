//! The trees of statements, with their places in the file: what the parsers answer and the binder
//! reads.
//!
//! The layer above may use every type. There is nothing to believe: the grammar, which says which
//! tokens a tree has, stands with the parsers.
#![tactic(auto)]

mod schema;
mod select;
mod term;

pub use schema::{CreateTable, Element, RuleTree, TypeTree};
pub use select::{CondTree, EntryTree, ItemTree, OrderTree, QueryTree, SelectTree};
pub use term::{NameTree, TermTree};
