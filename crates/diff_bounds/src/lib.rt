//! Systems of difference constraints: values of the variables that satisfy every edge, or a ring, a
//! closed chain of edges, whose bounds have a negative sum, which no values satisfy.
//!
//! The layer above may use every public item. A reader must believe `specs/`, but for
//! `specs/inner`, which only private clauses cite.
//!
//! A body that answers `NoMemory` at once meets the contract of `solve`, since no clause can say that
//! memory is left: the tests show that it succeeds.
#![tactic(auto)]

mod relaxing;
mod system;

pub use relaxing::solve;
pub use system::{Edge, Solved, negative_cycle_excludes_values};
