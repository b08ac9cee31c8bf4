//! Which questions are asked of a query, and the counter sentence of each: it holds in a database
//! exactly where some points refute the question.
//!
//! The layer above may use `questions` and `counter_sentence`, and of each kind the formula alone:
//! `two_rows` (E9), `some_row` (E1), `twice_one_row` (E2), `item_differs` (E3), `items_differ`
//! (E4), `no_row_or_two` (E5), `differs_with_true` (E6), `differs_with_false` (E7), `rows_differ`
//! (E8) and `selects_null` (E10). Which questions there are is `Asked` of `lint_core`, and what
//! their counter sentences are `Counters` of `sort_formula`. Of `specs/` no reader need believe
//! anything: only clauses of private functions name it.
//!
//! Of wrong bodies the contracts let through only those that answer `NoMemory` though there is
//! memory, since no clause can say when memory ends.
#![tactic(auto)]

mod columns;
mod counter;
mod counting;
mod distinct;
mod joined;
mod joins;
mod listing;
mod replaced;
mod scopes;
mod selected;
mod subqueries;

pub use counter::counter_sentence;
pub use distinct::twice_one_row;
pub use joins::no_row_or_two;
pub use listing::questions;
pub use replaced::{differs_with_false, differs_with_true};
pub use selected::{item_differs, items_differ, rows_differ, some_row};
pub use subqueries::{selects_null, two_rows};
