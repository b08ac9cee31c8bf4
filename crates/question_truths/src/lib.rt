//! Where questions are decided, and what their parts need: that the parts of a query that fits do
//! so, with room for them.
//!
//! The layer above may cite the laws. Of `specs/` a reader must believe `AtMostOne` (when a
//! scalar subquery gives at most one row), `SubqueryFits` (when a subquery fits with all its
//! levels) and `Room` (how many entries some levels have); the questions, their points and
//! outcomes are those of `Question` of `lint_core`.
#![tactic(auto)]

mod laws;

pub use laws::{
    conditions_have_truths_where_scalars_give_one_row, constants_have_no_parts,
    earlier_questions_give_one_row, outcomes_are_decided_where_earlier_questions_hold,
    parts_have_the_subqueries_of_the_condition, parts_of_conditions_fit,
    parts_of_conditions_have_room, parts_of_queries_fit, queries_have_room,
    scalars_inside_subqueries_are_listed,
};
