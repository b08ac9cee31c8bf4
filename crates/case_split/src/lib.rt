//! Cases: choices among the ways of a list of clauses, and trees that show that no choice of all
//! clauses is satisfiable.
//!
//! The layer above may use `search`, the types of `tree` and `give_up`, and cite the laws. `search`
//! answers the first full case with a plain assignment, a tree that is closed under no choice, or
//! a number of counted cases above the budget. The laws: a closed tree excludes every full case,
//! where guards name earlier clauses (`closed_trees_exclude`); choices are ordered
//! (`choices_are_ordered`); what a search has come to is counted (`cases_are_counted`); what
//! follows from choices is in every full case that has them (`full_cases_have_trails`). The
//! functions of `laws` do nothing: their contracts are these laws.
//!
//! How `search` goes: `state` takes the one way of each clause as soon as its guards are among the
//! choices, wherever it stands, in one pass over the clauses behind the last split; a guard that
//! names no earlier clause is never met. Where a way is to be chosen next, the assignment that was
//! judged last is tried on the literals of all ways taken (`trying`); where it satisfies them, they
//! need not be judged. `taking` judges the literals of all ways taken together.
//! A conflict marks the ways that it cites as needed. On the way back an entry that is not needed
//! is left without trying its other ways, and its closed trees are given up.
//!
//! Of `specs/` a reader must believe `Choices` and `Cases` (what a case is, which are full, which
//! are counted), `Trees` (when a tree is closed), `Answers` (what `search` answers), `Fitting` here
//! and `Judgeable` in `ground_theory` (which clauses, frames and literals it takes); of the law on
//! trails `Trails` too.
//! `specs/inner` is cited by private clauses and proofs alone.
#![tactic(auto)]

mod giving_up;
mod laws;
mod searching;
mod state;
mod taking;
mod tree;
mod trying;

pub use giving_up::give_up;
pub use laws::{
    cases_are_counted, choices_are_ordered, closed_trees_exclude, full_cases_have_trails,
};
pub use searching::search;
pub use tree::{Branch, CaseTree, Found};
