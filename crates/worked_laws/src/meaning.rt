//! What SQL means by small examples. The functions do nothing: their contracts are facts about the
//! definitions in `specs/`.
ghost use Rattle.std.specs.Prelude.{Ok, Err, ◌≡◌, ◌^◌, ◌-◌, pos, true, false, List, [], ◌∷◌, codes};
ghost use Rattle.lint_tables.specs.declared.op.Op.TheVariants.{Eq, Lt, Gt};
ghost use Rattle.lint_core.specs.declared.database.Database.{Database as Data};
ghost use Rattle.lint_core.specs.declared.database.Truth.TheVariants.{False, Unknown, True};
ghost use Rattle.lint_core.specs.declared.database.Value.TheVariants.{Null, Int, Text};
ghost use Rattle.lint_core.specs.Comparison.{compare, plus, are_not_distinct};
ghost use Rattle.lint_core.specs.Condition.{truth};
ghost use Rattle.lint_core.specs.Meets.{meets};
ghost use Rattle.worked_laws.specs.Examples.{nowhere, database, null_equals_null, one_is_not_in, one_equals_the_row, false_and_the_row, exists_null, plain, unique, checked, referring};

/// NULL, subqueries without a row and with two, texts and sums, each by one example.
pub fn worked_truths()
    ensures null_is_no_null { (db : Data) → truth db null_equals_null [] [] ≡ Ok Unknown }
    ensures not_in_null { truth (database ((Null ∷ []) ∷ [])) one_is_not_in [] [] ≡ Ok Unknown }
    ensures not_in_nothing { truth (database ([] ∷ [])) one_is_not_in [] [] ≡ Ok True }
    ensures no_row_is_null { truth (database ([] ∷ [])) one_equals_the_row [] [] ≡ Ok Unknown }
    ensures one_row_is_its_value { truth
        (database ((Int (pos 1) ∷ []) ∷ [])) one_equals_the_row [] [] ≡ Ok True }
    ensures two_rows_are_no_value { truth
        (database ((Int (pos 1) ∷ Int (pos 1) ∷ []) ∷ [])) one_equals_the_row [] [] ≡ Err nowhere }
    ensures false_beside_two_rows { truth
        (database ((Int (pos 1) ∷ Int (pos 1) ∷ []) ∷ [])) false_and_the_row [] [] ≡ Err nowhere }
    ensures exists_is_never_unknown { truth (database ((Null ∷ []) ∷ [])) exists_null [] []
        ≡ Ok False }
    ensures texts_are_not_padded { compare Eq (Text (codes "A")) (Text (codes "A ")) ≡ False }
    ensures texts_have_no_order { compare Lt (Text (codes "A")) (Text (codes "B")) ≡ Unknown }
    ensures sums_do_not_overflow { compare Gt (plus (Int (pos (2 ^ 63 - 1))) (pos 1))
        (Int (pos (2 ^ 63 - 1))) ≡ True }
    ensures nulls_are_not_distinct { are_not_distinct Null Null ≡ true }
{}

/// CHECK, foreign keys, keys and domains, each by an example that meets them and one that does
/// not.
pub fn worked_constraints()
    ensures unknown_check_is_met { meets checked (database ((Null ∷ []) ∷ [])) ≡ true }
    ensures false_check_is_not_met { meets checked (database ((Int (pos 0) ∷ []) ∷ [])) ≡ false }
    ensures null_refers_to_nothing { meets referring (database ((Null ∷ []) ∷ [] ∷ [])) ≡ true }
    ensures dangling_is_not_met { meets referring (database ((Int (pos 1) ∷ []) ∷ [] ∷ []))
        ≡ false }
    ensures reference_is_met { meets referring
        (database ((Int (pos 1) ∷ []) ∷ (Int (pos 1) ∷ []) ∷ [])) ≡ true }
    ensures nulls_may_repeat_in_a_key { meets unique (database ((Null ∷ Null ∷ []) ∷ [])) ≡ true }
    ensures values_may_not_repeat_in_a_key { meets unique
        (database ((Int (pos 1) ∷ Int (pos 1) ∷ []) ∷ [])) ≡ false }
    ensures rows_may_repeat_without_a_key { meets plain
        (database ((Int (pos 1) ∷ Int (pos 1) ∷ []) ∷ [])) ≡ true }
    ensures text_is_in_no_number_column { meets plain (database ((Text (codes "1") ∷ []) ∷ []))
        ≡ false }
{}
