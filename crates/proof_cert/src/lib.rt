//! Closed trees give certificates: where the sentences of a problem are among the facts with which
//! a certificate starts, a tree that is closed under no choice gives steps that close every
//! branch.
//!
//! `from_tree` writes them. It goes through the tree with a list of trees that wait, each with how
//! many splits are above it; of the branch in hand it keeps for each split the fact that says what
//! stands at the clause, the first fact that came by it, and its row. A clause's formula and fact
//! follow from its guards, and from its rank among the clauses with the same guards.
//!
//! The layer above may use `from_tree` and cite the law. The law's function does nothing: its
//! contract is the law. A reader must believe `specs/Steps` (from which facts the steps lead to no
//! branch) and definitions of the crates below: when a tree is closed (`Trees` of `case_split`),
//! what a problem is and how its clauses hang together (`Cases` and `Hanging` of `instantiate`),
//! and how steps run (`Certificate` of `sort_formula`). `specs/inner` is cited by private clauses
//! and proofs alone.
#![tactic(auto)]

mod certificate;
mod laws;
mod moving;
mod path;
mod ranks;
mod reaching;
mod writing;

pub use certificate::from_tree;
pub use laws::closed_trees_give_steps;
