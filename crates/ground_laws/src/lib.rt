//! What holds of the clauses and the frame of a problem, whatever its schema and sentences; and how
//! many cases of a list of clauses are counted.
//!
//! The layer above may cite the laws. Each function calls another law or does nothing: its
//! contract is the law. `problems_can_be_searched` says that a problem is what `search` of
//! `case_split` takes, where its sentences fit a schema; `guards_are_earlier` that each guard
//! names an earlier clause, so that a closed tree excludes every full case;
//! `sentences_have_one_order` that the live tables of sentences have at most one order;
//! `few_cases_are_counted` which budget is enough for any search of a list of clauses.
//!
//! A reader must believe `specs/Grounded` (of which problems this is said), `specs/Counting` (the
//! number that such a budget has) and definitions of the crates below: `Cases` of `instantiate`
//! (what a problem is), `Judgeable` of `ground_theory` and `Fitting` of `case_split` (what can be
//! searched), `Cases` and `Answers` of `case_split` (what is counted, and when a budget is spent),
//! `Forward` of `ground_theory`, and `Graph` of `sorted_skolem` (what an order is).
#![tactic(auto)]

mod laws;

pub use laws::{
    few_cases_are_counted, guards_are_earlier, problems_can_be_searched, sentences_have_one_order,
};
