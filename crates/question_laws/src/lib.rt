//! What conditions and their formulas depend on.
//!
//! The layer above may cite the laws. Of `specs/` a reader must believe `Named` (which entries of
//! any level a condition names), `Alike` (that two standpoints have the same rows for what it
//! names) and `Deeper`; the formulas are those of `Translation` of `sort_formula`, and a
//! standpoint for a binding is its `Standpoint`.
#![tactic(auto)]

mod laws;

pub use laws::{
    conditions_without_scalar_subqueries_have_truths, conjuncts_divide_the_condition,
    conjuncts_say_the_condition, formulas_depend_on_rows_alone, one_binding_gives_the_same_rows,
    rows_may_follow,
};
