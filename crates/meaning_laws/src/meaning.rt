//! The laws of what conditions and answers mean. The functions do nothing: each contract is a law
//! about the definitions in `specs/`.
ghost use Rattle.std.specs.Prelude.{Ok, ◌≡◌, ◌≢◌, ℕ, true, false, List, map, Some, None};
ghost use Rattle.std.specs.Bool.{Decides};
ghost use Rattle.std.specs.Cmp.{IsEquivalence};
ghost use Rattle.std.specs.List.{list_all, list_any, IsDistinct};
ghost use Rattle.lint_base.specs.declared.place.Span.{Span as Place};
ghost use Rattle.lint_tables.specs.declared.op.Op.TheVariants.{Eq, Ne};
ghost use Rattle.lint_core.specs.declared.condition.Block.{Block as Subquery};
ghost use Rattle.lint_core.specs.declared.condition.Cond.{Cond as Condition};
ghost use Rattle.lint_core.specs.declared.condition.Cond.TheVariants.{And, Or, Not, Compare, Exists, In};
ghost use Rattle.lint_core.specs.declared.condition.Term.{Term as Operand};
ghost use Rattle.lint_core.specs.declared.database.Database.{Database as Data};
ghost use Rattle.lint_core.specs.declared.database.Truth.{Truth};
ghost use Rattle.lint_core.specs.declared.database.Truth.TheVariants.{Unknown, True};
ghost use Rattle.lint_core.specs.declared.database.Value.{Value};
ghost use Rattle.lint_core.specs.declared.query.Query.{Query};
ghost use Rattle.lint_core.specs.Comparison.{compare, is_null, are_equal, are_not_distinct};
ghost use Rattle.lint_core.specs.Condition.{truth, term_value, in_truth};
ghost use Rattle.meaning_laws.specs.Connectives.{IsLeast, IsGreatest, HaveTruths, disjunction};
ghost use Rattle.lint_core.specs.QueryAnswer.{are_not_distinct_rows, all_rows, answer};
ghost use Rattle.meaning_laws.specs.SameRows.{HaveEqualRows, HaveSameTables, tables_named};
ghost use Rattle.meaning_laws.specs.SubqueryValues.{HasInnerTruths, Selects};
ghost use Rattle.lint_core.specs.Truth.{is_true, not_of, truth_of};

/// AND has a truth exactly where each part has one, and then the least of them in the order false,
/// unknown, true; OR the greatest. NOT NOT changes nothing, and NOT of an AND is the OR of the
/// NOTs, NOT of an OR the AND.
pub fn connectives_are_least_and_greatest()
    ensures and { (db : Data) (parts : List Condition) (tables binding : List (List ℕ))
        (truths : List Truth)
        → HaveTruths db parts tables binding truths
        → (t : Truth) × (truth db (And parts) tables binding ≡ Ok t) × IsLeast truths t }
    ensures and_only { (db : Data) (parts : List Condition) (tables binding : List (List ℕ))
        (t : Truth)
        → truth db (And parts) tables binding ≡ Ok t
        → (truths : List Truth) × HaveTruths db parts tables binding truths × IsLeast truths t }
    ensures or { (db : Data) (parts : List Condition) (tables binding : List (List ℕ))
        (truths : List Truth)
        → HaveTruths db parts tables binding truths
        → (t : Truth) × (truth db (Or parts) tables binding ≡ Ok t) × IsGreatest truths t }
    ensures or_only { (db : Data) (parts : List Condition) (tables binding : List (List ℕ))
        (t : Truth)
        → truth db (Or parts) tables binding ≡ Ok t
        → (truths : List Truth) × HaveTruths db parts tables binding truths × IsGreatest truths t }
    ensures not_not { (db : Data) (part : Condition) (tables binding : List (List ℕ))
        → truth db (Not (Not part)) tables binding ≡ truth db part tables binding }
    ensures not_and { (db : Data) (parts : List Condition) (tables binding : List (List ℕ))
        → truth db (Not (And parts)) tables binding
        ≡ truth db (Or (map Not parts)) tables binding }
    ensures not_or { (db : Data) (parts : List Condition) (tables binding : List (List ℕ))
        → truth db (Not (Or parts)) tables binding
        ≡ truth db (And (map Not parts)) tables binding }
{}

/// EXISTS is never unknown. Where the subquery's condition has a truth at each inner binding,
/// EXISTS is true exactly where one of these is, else false.
pub fn exists_is_never_unknown()
    ensures never_unknown { (db : Data) (subquery : Subquery) (place : Place)
        (tables binding : List (List ℕ))
        → truth db (Exists subquery place) tables binding ≢ Ok Unknown }
    ensures some_true { (db : Data) (subquery : Subquery) (place : Place)
        (tables binding : List (List ℕ)) (truths : List Truth)
        → HasInnerTruths db subquery tables binding truths
        → truth db (Exists subquery place) tables binding
        ≡ Ok (truth_of (list_any is_true truths)) }
{}

/// NOT IN is not true where the subquery selects NULL, and unknown where moreover no comparison is
/// true. It is true exactly where `<>` is true of the left value and each selected one, so that
/// none is NULL.
pub fn not_in_with_null_is_never_true()
    ensures not_true { (db : Data) (left item : Operand) (subquery : Subquery) (place : Place)
        (tables binding : List (List ℕ)) (values : List Value)
        → Selects db subquery item tables binding values → list_any is_null values ≡ true
        → truth db (In left subquery item true place) tables binding ≢ Ok True }
    ensures unknown { (db : Data) (left item : Operand) (subquery : Subquery) (place : Place)
        (tables binding : List (List ℕ)) (values : List Value)
        → Selects db subquery item tables binding values → list_any is_null values ≡ true
        → list_any (are_equal (term_value db tables binding left)) values ≡ false
        → truth db (In left subquery item true place) tables binding ≡ Ok Unknown }
    ensures only_distinct { (db : Data) (left item : Operand) (subquery : Subquery) (place : Place)
        (tables binding : List (List ℕ))
        → truth db (In left subquery item true place) tables binding ≡ Ok True
        → (values : List Value) × Selects db subquery item tables binding values
        × (list_all (λ value. is_true
        (compare Ne (term_value db tables binding left) value)) values ≡ true) }
    ensures if_distinct { (db : Data) (left item : Operand) (subquery : Subquery) (place : Place)
        (tables binding : List (List ℕ)) (values : List Value)
        → Selects db subquery item tables binding values
        → list_all (λ value. is_true (compare Ne (term_value db tables binding left) value)) values
        ≡ true
        → truth db (In left subquery item true place) tables binding ≡ Ok True }
{}

/// IN is the OR of the comparisons with what it lists: of those with the values that its subquery
/// selects, and, as the binder writes IN with a list of values, of those with these. It is true
/// where one of them is true, else unknown where one is unknown, else false; NOT IN with a list is
/// the AND of `<>`.
pub fn in_is_a_disjunction()
    ensures of_a_subquery { (db : Data) (left item : Operand) (subquery : Subquery) (place : Place)
        (tables binding : List (List ℕ)) (values : List Value)
        → Selects db subquery item tables binding values
        → truth db (In left subquery item false place) tables binding
        ≡ Ok (disjunction (map (compare Eq (term_value db tables binding left)) values)) }
    ensures only_selected { (db : Data) (left item : Operand) (subquery : Subquery) (place : Place)
        (tables binding : List (List ℕ)) (t : Truth)
        → truth db (In left subquery item false place) tables binding ≡ Ok t
        → (values : List Value) × Selects db subquery item tables binding values }
    ensures of_a_list { (db : Data) (left : Operand) (items : List (Operand × Place))
        (tables binding : List (List ℕ))
        → truth db (Or (map (λ item. Compare Eq left item.0 item.1) items)) tables binding
        ≡ Ok (in_truth (term_value db tables binding left)
        (map (λ item. term_value db tables binding item.0) items)) }
    ensures not_of_a_list { (db : Data) (left : Operand) (items : List (Operand × Place))
        (tables binding : List (List ℕ))
        → truth db (And (map (λ item. Compare Ne left item.0 item.1) items)) tables binding
        ≡ Ok (not_of (in_truth (term_value db tables binding left)
        (map (λ item. term_value db tables binding item.0) items))) }
    ensures decided { (left : Value) (values : List Value)
        → in_truth left values ≡ disjunction (map (compare Eq left) values) }
{}

/// Two values are not distinct exactly where they are one, and so of rows. With DISTINCT no row of
/// the answer is not distinct from one after it, and a row stands in the answer exactly where it
/// stands in the answer without DISTINCT, up to 'not distinct'; there is an answer where there is
/// one without.
pub fn distinct_keeps_one_of_each()
    ensures values { (a b : Value) → Decides (are_not_distinct a b) (a ≡ b) }
    ensures values_equivalence { IsEquivalence are_not_distinct }
    ensures rows { (row other : List Value)
        → Decides (are_not_distinct_rows row other) (row ≡ other) }
    ensures with_distinct { (db : Data) (query : Query) (distinct : Place)
        → query.distinct ≡ Some distinct
        → (all : List (List Value)) → all_rows db query ≡ Ok all
        → (rows : List (List Value)) × (answer db query ≡ Ok rows)
        × IsDistinct are_not_distinct_rows rows
        × ((row : List Value)
        → list_any (are_not_distinct_rows row) rows ≡ list_any (are_not_distinct_rows row) all) }
    ensures only_with_distinct { (db : Data) (query : Query) (distinct : Place)
        → query.distinct ≡ Some distinct
        → (rows : List (List Value)) → answer db query ≡ Ok rows
        → (all : List (List Value)) × (all_rows db query ≡ Ok all)
        × IsDistinct are_not_distinct_rows rows
        × ((row : List Value)
        → list_any (are_not_distinct_rows row) rows ≡ list_any (are_not_distinct_rows row) all) }
    ensures without { (db : Data) (query : Query) → query.distinct ≡ None
        → answer db query ≡ all_rows db query }
{}

/// A condition has the same truth, or lack of one, at two bindings of the same tables that name
/// rows of equal values, whatever places these are; and in two databases in which the tables in
/// its subqueries' FROM lists have the same rows, whatever other tables there are.
pub fn truth_depends_on_rows_alone()
    ensures at_other_places { (db : Data) (cond : Condition)
        (tables binding others : List (List ℕ))
        → HaveEqualRows db db tables binding others
        → truth db cond tables binding ≡ truth db cond tables others }
    ensures in_another_database { (db other : Data) (cond : Condition)
        (tables binding others : List (List ℕ))
        → HaveSameTables db other (tables_named cond)
        → HaveEqualRows db other tables binding others
        → truth db cond tables binding ≡ truth other cond tables others }
{}
