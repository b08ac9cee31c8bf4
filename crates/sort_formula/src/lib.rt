//! Formulas: sentences with two truth values about the rows of a database.
//!
//! The layer above may use the types, `negate`, `place`, `Sentence` and its calls, the copies, and
//! the builders: `Cell` and its calls, `exists`, `for_all`, `exist_rows` and `for_all_rows`. Of
//! `specs/` a reader must believe `Holds` (when a formula holds), `Negated` and `Placed` (what
//! `negate` and `place` make), `Cells` and of `Translation` `exist_rows` and `for_all_rows` (what
//! the builders make), `Variables` (`is_numbered_from`: which formulas `place` takes), `Sentences`
//! (what a sentence is), `Nodes`, `Bounds`, and `Rows`, which the laws speak of. The laws
//! `negation_complements` and `placing_renames` of `formula_laws` say what `negate` and `place`
//! are for.
//!
//! When the steps of a certificate are accepted is defined in `Certificate`, with `Facts`, `Rings`
//! and `Chains`; none of them need be believed, since the law `accepted_steps_refute` of
//! `formula_laws` says what accepted steps show: that the sentence holds in no database of the
//! domains in which all of `Axioms` hold. `Realized` says when places of a database realize a
//! branch of the steps, for the law `realized_branches_stay_open` of that crate.
//!
//! Of wrong bodies the contracts let through only negations, renamings and copies that answer
//! `NoMemory` though there is memory, since no clause can say when memory ends: the cases of
//! `worked_meaning` show that formulas are made.
#![tactic(auto)]

mod building;
mod copies;
mod fits;
mod formula;
mod negation;
mod outside;
mod placing;
mod sentence;

pub use building::{Cell, exist_rows, exists, for_all, for_all_rows};
pub use formula::{Atom, Formula, Side};
pub use negation::negate;
pub use placing::place;
pub use sentence::Sentence;
