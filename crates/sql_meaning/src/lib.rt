//! What SQL means, by running it: whether a database meets a schema, the truth of a condition at a
//! binding, and whether points refute a question.
//!
//! The layer above may use `meets`, `truth`, `fails_at` and `TruthStop`, and the walks over a
//! condition, `conjuncts`, `replaced`, `scalar_subquery` and `not_in_subquery`. A reader must
//! believe `specs/`, but for `specs/inner`, which only clauses of private functions name:
//! `Violations` says in which order violations come, `Stops` what an answer says, and the walks
//! have `Behind`, `Replacing`, `WholeSubqueries` and `Answered`. The rest is defined in lint_core.
//!
//! Of wrong bodies the contracts let through only those that answer `NoMemory` though there is
//! memory, also private ones that need none, since no clause can say when memory ends: the cases
//! of `worked_meaning` show that there are answers.
#![tactic(auto)]

mod clauses;
mod conjunction;
mod database_meets;
mod evaluation;
mod fails;
mod levels;
mod points;
mod replacing;
mod stop;
mod subqueries;
mod value;
mod violation;

pub use conjunction::conjuncts;
pub use database_meets::{meets, violations_are_failures};
pub use evaluation::truth;
pub use fails::fails_at;
pub use replacing::replaced;
pub use stop::TruthStop;
pub use subqueries::{Subquery, not_in_subquery, scalar_subquery, whole_subqueries_are_listed};
