//! What the definitions of `lint_core` mean, in the subject's own words. Each function does
//! nothing: its contract is a law about these definitions.
//!
//! The laws: `connectives_are_least_and_greatest`, `in_is_a_disjunction`,
//! `not_in_with_null_is_never_true`, `exists_is_never_unknown`, `distinct_keeps_one_of_each` and
//! `truth_depends_on_rows_alone` (their words are in `Connectives`, `SubqueryValues` and
//! `SameRows`), and `asked_questions_are_listed` (the list of a query's questions has exactly
//! those that are asked of it).
#![tactic(auto)]

mod asking;
mod meaning;

pub use asking::asked_questions_are_listed;
pub use meaning::{
    connectives_are_least_and_greatest, distinct_keeps_one_of_each, exists_is_never_unknown,
    in_is_a_disjunction, not_in_with_null_is_never_true, truth_depends_on_rows_alone,
};
