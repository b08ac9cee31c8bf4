//! Whether texts for variables satisfy equalities and inequalities between variables and constant
//! texts: a class for each variable and a text for each class, or a chain of equal facts that
//! shows that there are none.
//!
//! The layer above may use every public item. Of `specs/` a reader must believe `Texts`, `Paths`
//! and `Answer`. `inner` speaks of the steps in between, and no public clause cites it: the facts
//! are read as links between nodes, a search through the links gives each node its class, and a
//! class that no constant text reaches gets a text that begins as no constant text does.
//!
//! A body that answers `NoMemory` at once meets the contract of `classes`, since no clause can say
//! that memory is left: the tests of `worked_searches` show that it succeeds.
#![tactic(auto)]

mod facts;
mod forest;
mod graph;
mod labels;
mod prefix;
mod solve;

pub use facts::{Classed, TextEnd, TextFact, path_excludes_texts};
pub use solve::classes;
