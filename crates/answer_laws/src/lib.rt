//! The laws that join the questions of a query to its answer, a bag of rows, in one database. The
//! functions do nothing: each contract is a law about the definitions in `lint_core`.
//!
//! A query has an answer exactly where each of its scalar subqueries gives at most one row (E9).
//! There its condition is inconsistent exactly where the answer is empty (E1), DISTINCT is
//! needless exactly where it removes no row (E2), a column is constant, and two columns are
//! equal, exactly where they are so in each row of the answer (E3, E4), and an implied or
//! impossible predicate leaves the answer as it is with TRUE or FALSE in its place (E6, E7).
//!
//! `always_means` says of each question that is asked what it means that it holds in every
//! database that meets the schema: of the answer, and where the question asks of bindings (E5,
//! E8, E9, E10) of these.
//!
//! Of `specs/` a reader must believe `AlwaysMeans`, with `FindsOneRow`, and `Answers`, the words
//! of these laws; `worked_bags` shows some by small examples.
#![tactic(auto)]

mod always;
mod laws;
mod worked;

pub use always::always_means;
pub use laws::{
    answer_has_the_rows_of_the_bindings, answer_where_scalar_subqueries_give_one_row,
    constant_column_has_one_value_in_each_row, equal_columns_are_so_in_each_row,
    inconsistent_where_the_answer_is_empty, needless_distinct_removes_no_row,
    replaced_predicate_leaves_the_answer,
};
pub use worked::worked_bags;
