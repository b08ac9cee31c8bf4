//! Where the conditions of the counter sentences stand, and that there is room for them. The
//! functions call other laws and do nothing else: each contract is a law about the definitions in
//! `specs/`.
ghost use Rattle.std.specs.Prelude.{◌≡◌, ◌<◌, ◌≤◌, ◌+◌, ◌^◌, ℕ, true, List, Some, slice_get, length};
ghost use Rattle.lint_core.specs.declared.condition.Cond.{Cond as Condition};
ghost use Rattle.lint_core.specs.declared.condition.Cond.TheVariants.{True as AlwaysTrue, False as NeverTrue};
ghost use Rattle.lint_core.specs.declared.query.Query.{Query};
ghost use Rattle.lint_core.specs.declared.schema.Table.{Table};
ghost use Rattle.lint_core.specs.Asked.{main_condition, main_entries, scalars_of, not_ins_of};
ghost use Rattle.lint_core.specs.Conjuncts.{conjuncts};
ghost use Rattle.lint_core.specs.Fits.{cond_fits, query_fits};
ghost use Rattle.lint_core.specs.Predicates.{with_replaced};
ghost use Rattle.lint_core.specs.Subqueries.{Subquery};
ghost use Rattle.sort_formula.specs.Counters.{scope, one_scope, two_scope, join_scope, first_scope, second_scope, deeper};
ghost use Rattle.truth_formula.specs.Scopes.{CanStand, count_entries};

use question_truths::{
    constants_have_no_parts, parts_of_conditions_fit, parts_of_conditions_have_room,
    parts_of_queries_fit, queries_have_room,
};

/// Each condition of a counter sentence of a query that fits can stand at its scope: it fits the
/// tables, each entry has a variable below the depth, and there are row variables for the entries
/// of its subqueries.
///
/// These are the condition of WHERE with the main entries quantified (`condition`), or with two
/// rows of each (`first_of_two`, `second_of_two`); that condition with a predicate replaced; a
/// conjunct where an entry has a variable of its own behind those of the others (`conjunct`); the
/// condition of a scalar subquery at two of its rows (`first_row`, `second_row`), and that of a
/// NOT IN subquery (`not_in`).
pub fn asked_sentences_have_room()
    ensures condition { (schema : List Table) (query : Query)
        → query_fits schema query ≡ true
        → CanStand schema (main_condition query) (scope schema query) }
    ensures replaced { (schema : List Table) (query : Query) (by : Condition) (predicate : ℕ)
        → query_fits schema query ≡ true
        → ((levels : List (List ℕ)) → cond_fits schema levels by ≡ true) → count_entries by ≡ 0
        → CanStand schema (with_replaced by predicate (main_condition query))
        (scope schema query) }
    ensures implied { (schema : List Table) (query : Query) (predicate : ℕ)
        → query_fits schema query ≡ true
        → CanStand schema (with_replaced AlwaysTrue predicate (main_condition query))
        (scope schema query) }
    ensures impossible { (schema : List Table) (query : Query) (predicate : ℕ)
        → query_fits schema query ≡ true
        → CanStand schema (with_replaced NeverTrue predicate (main_condition query))
        (scope schema query) }
    ensures first_of_two { (schema : List Table) (query : Query)
        → query_fits schema query ≡ true
        → CanStand schema (main_condition query) (one_scope schema query) }
    ensures second_of_two { (schema : List Table) (query : Query)
        → query_fits schema query ≡ true
        → CanStand schema (main_condition query) (two_scope schema query) }
    ensures conjunct { (schema : List Table) (query : Query) (number : ℕ) (part : Condition)
        (entry variable depth : ℕ)
        → query_fits schema query ≡ true
        → slice_get (conjuncts (main_condition query)) number ≡ Some part
        → entry < length (main_entries query)
        → length (main_entries query) ≤ depth + 1 → depth < 2 ^ 31 → variable < depth
        → CanStand schema part (join_scope schema query entry variable depth) }
    ensures first_row { (schema : List Table) (query : Query) (number : ℕ) (sub : Subquery)
        → query_fits schema query ≡ true → slice_get (scalars_of query) number ≡ Some sub
        → CanStand schema sub.cond (deeper schema sub (first_scope schema sub)) }
    ensures second_row { (schema : List Table) (query : Query) (number : ℕ) (sub : Subquery)
        → query_fits schema query ≡ true → slice_get (scalars_of query) number ≡ Some sub
        → CanStand schema sub.cond (second_scope schema sub) }
    ensures not_in { (schema : List Table) (query : Query) (number : ℕ) (sub : Subquery)
        → query_fits schema query ≡ true → slice_get (not_ins_of query) number ≡ Some sub
        → CanStand schema sub.cond (first_scope schema sub) }
{
    parts_of_queries_fit();
    parts_of_conditions_fit();
    constants_have_no_parts();
    parts_of_conditions_have_room();
    queries_have_room();
}
