//! What the counter sentence of a question says. The functions call other laws and do nothing
//! else: each contract is a law about the definitions of `sort_formula`.
//!
//! Row by row: at some rows of the lead the body of the sentence holds exactly where the points
//! that these rows make refute the question loosely (`leading_rows_refute`, for a needless join
//! `rows_of_a_join_refute`, and of all questions `bodies_say_that_points_refute`). As a whole: the
//! sentence holds exactly where some points refute loosely (`sentence_says_that_points_refute`).
//!
//! In a database of the domains in which the scalar subqueries asked of before give at most one
//! row, these are the points that refute (`loosely_is_truly`), so there the question holds exactly
//! where the sentence does not (`sentence_decides_the_question`); and if the sentence holds in no
//! database of the schema, the question holds in each of them in which those subqueries give at
//! most one row (`question_holds_where_the_sentence_fails`).
//!
//! The layer above may cite the laws. Of `specs/` a reader must believe `LeadingRows` (the rows
//! of a lead) and `Joins` (the two parts of the sentence of a needless join).
#![tactic(auto)]

mod laws;

pub use laws::{
    bodies_say_that_points_refute, leading_rows_refute, loosely_is_truly,
    question_holds_where_the_sentence_fails, rows_of_a_join_refute, sentence_decides_the_question,
    sentence_says_that_points_refute,
};
