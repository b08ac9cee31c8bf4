//! Conditions as formulas: one that holds exactly where the condition is true, and one where it is
//! false.
//!
//! The layer above may use `Scope`, `is_true` and `is_false`. Of `specs/` a reader must believe
//! `Scopes` (what the calls take); what the formulas are is `Translation` of `sort_formula`, and
//! within which bounds `Bounds` there. The laws `formulas_say_truth` and `formulas_fit` of
//! `truth_laws` say what they are for, and that they fit the schema.
//!
//! Of wrong bodies the contracts let through only those that answer `NoMemory` though there is
//! memory, since no clause can say when memory ends: the cases of `worked_meaning` show that
//! both formulas are made.
#![tactic(auto)]

mod sides;
mod standing;
mod translation;

pub use lint_core::Scope;
pub use translation::{is_false, is_true};
