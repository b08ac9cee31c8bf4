//! What the definitions of `lint_core`, `sort_formula` and `question_laws` say, by small examples
//! that the check computes. Each function does nothing: its contract lists facts about these
//! definitions.
//!
//! `worked_truths` and `worked_constraints` show what conditions and constraints mean
//! (`Examples`), `worked_asking` and `worked_refuting` the questions. `worked_schemas` and
//! `worked_checks` list schemas that are accepted and some that are not (`SchemaExamples`),
//! `worked_fitting`, `worked_subqueries` and `worked_databases` queries and databases that fit and
//! some that do not (`FitExamples`). `worked_formulas`, `worked_rewritings`, `worked_sentences`,
//! `worked_counters`, `worked_steps` and `worked_wrong_steps` show formulas, sentences, counter
//! sentences and certificates (`FormulaExamples`). `worked_standpoints` shows standpoints with the
//! same rows, and `worked_unasked` a question that is undecided since it is not asked (`Unasked`).
#![tactic(auto)]

mod fits;
mod formulas;
mod meaning;
mod questions;
mod standpoints;
mod unasked;

pub use fits::{
    worked_checks, worked_databases, worked_fitting, worked_schemas, worked_subqueries,
};
pub use formulas::{
    worked_counters, worked_formulas, worked_rewritings, worked_sentences, worked_steps,
    worked_wrong_steps,
};
pub use meaning::{worked_constraints, worked_truths};
pub use questions::{worked_asking, worked_refuting};
pub use standpoints::worked_standpoints;
pub use unasked::worked_unasked;
