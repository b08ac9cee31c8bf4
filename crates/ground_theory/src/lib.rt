//! Whether literals over numbered row terms are satisfiable, and when a closing step of a
//! certificate is right over them.
//!
//! The types are those of the layers above: clauses whose ways are literals, the tables and
//! domains of row terms (`Frame`), assignments, and what literals come to (`Judged`). `judge`
//! answers of literals an assignment that satisfies them and is plain for them, or a right leaf:
//! a closing step that shows that there is none. A body that answers `NoMemory` at once meets its
//! contract too, since no clause can say that memory is left: the tests of `worked_searches` show
//! that it succeeds.
//!
//! How `judge` goes: `sifting` lists what the literals say by kind, `joining` makes classes of the
//! row terms that are one, and `clashes` looks for rows of one class that differ and for cells
//! that are NULL and are not, with `paths` between them. `numbering` gives variables to the cells
//! that are not NULL. Their numbers come from the solver of `diff_bounds` (`numbers`, `counting`;
//! `ring` makes the leaf of a ring), their texts from that of `text_classes` (`texts`; `chains`
//! makes the leaf of a path), and `assignment` lists the values.
//!
//! The laws are functions that do nothing: their contracts are about the definitions alone. The
//! domains of columns are ranges (`domains_are_ranges`); a solver's ring or path makes a right leaf
//! (`rings_make_leaves`, `paths_make_leaves`). A right leaf excludes every assignment
//! (`right_leaves_exclude`), and stays right where facts have other numbers and rows other names
//! (`leaves_move`). `worked_leaves` are small examples.
//!
//! Of `specs/` a reader must believe `Assignments`, `Leaves`, `Fitting`, `Judgeable`, `Judging` and
//! `Moving`; of the laws about solvers `Edges`, `SumLeaf`, `TextEdges` and `TextLeaf` too. `Forward` says that guards name earlier clauses: no clause here cites it, the layers above
//! do. `Examples` are the literals of `worked_leaves` and of those tests. `specs/inner` is cited by
//! private clauses and proofs alone.
#![tactic(auto)]

mod assignment;
mod chains;
mod clashes;
mod counting;
mod joining;
mod judging;
mod laws;
mod literal;
mod numbering;
mod numbers;
mod paths;
mod ring;
mod sifting;
mod texts;
mod worked;

pub use judging::judge;
pub use laws::{
    domains_are_ranges, leaves_move, paths_make_leaves, right_leaves_exclude, rings_make_leaves,
};
pub use literal::{Assignment, Clause, Conflict, Frame, Guard, Judged, Literal};
pub use worked::worked_leaves;
