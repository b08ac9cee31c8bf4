//! Which questions are asked, and when they fail, by small examples. The functions do nothing:
//! their contracts are facts about the definitions in `specs/`.
ghost use Rattle.std.specs.Prelude.{Err, ◌≡◌, pos, true, false, [], ◌∷◌};
ghost use Rattle.lint_core.specs.declared.database.Points.TheVariants.{One, Two, Without};
ghost use Rattle.lint_core.specs.declared.database.Value.TheVariants.{Null, Int};
ghost use Rattle.lint_core.specs.declared.query.Question.TheVariants.{OneRow, Empty, NeedlessDistinct, Constant, NeedlessJoin, Implied, Impossible, SameRow, NullInNotIn};
ghost use Rattle.lint_core.specs.Asked.{questions};
ghost use Rattle.worked_laws.specs.Examples.{nowhere, database, plain, select_star, select_distinct, where_one, above_the_row, not_among, joined, twice, rows};
ghost use Rattle.lint_core.specs.Question.{outcome, refutes};

/// The questions of `SELECT *`, and of a query with a scalar subquery.
pub fn worked_asking()
    ensures star_is_asked_whether_empty { questions plain select_star ≡ Empty ∷ [] }
    ensures scalar_is_asked_first { questions plain above_the_row ≡ OneRow 0 ∷ Empty ∷ Constant 0
        ∷ Implied 0 ∷ Impossible 0 ∷ [] }
    ensures not_in_is_asked_last { questions plain not_among ≡ Empty ∷ Constant 0 ∷ Implied 0
        ∷ Impossible 0 ∷ NullInNotIn 0 ∷ [] }
    ensures entry_not_selected_is_asked { questions plain twice ≡ Empty ∷ Constant 0
        ∷ NeedlessJoin 1 ∷ SameRow 0 1 ∷ [] }
{}

/// For some questions points that refute them, and points that do not.
pub fn worked_refuting()
    ensures row_is_in_the_answer { refutes
        (database ((Int (pos 1) ∷ []) ∷ [])) select_star Empty Null (One (rows ((0 ∷ []) ∷ [])))
        ≡ true }
    ensures no_such_row { refutes (database ([] ∷ [])) select_star Empty Null
        (One (rows ((0 ∷ []) ∷ []))) ≡ false }
    ensures distinct_from_the_constant { refutes (database ((Int (pos 1) ∷ []) ∷ [])) where_one
        (Constant 0) Null (One (rows ((0 ∷ []) ∷ []))) ≡ true }
    ensures the_constant { refutes (database ((Int (pos 1) ∷ []) ∷ [])) where_one (Constant 0)
        (Int (pos 1)) (One (rows ((0 ∷ []) ∷ []))) ≡ false }
    ensures nulls_need_distinct { refutes
        (database ((Null ∷ Null ∷ []) ∷ [])) select_distinct NeedlessDistinct Null
        (Two (rows ((0 ∷ []) ∷ [])) (rows ((1 ∷ []) ∷ []))) ≡ true }
    ensures equal_rows_need_distinct { refutes
        (database ((Int (pos 1) ∷ Int (pos 1) ∷ []) ∷ [])) select_distinct NeedlessDistinct Null
        (Two (rows ((0 ∷ []) ∷ [])) (rows ((1 ∷ []) ∷ []))) ≡ true }
    ensures one_row_needs_no_distinct { refutes
        (database ((Int (pos 1) ∷ []) ∷ [])) select_distinct NeedlessDistinct Null
        (Two (rows ((0 ∷ []) ∷ [])) (rows ((0 ∷ []) ∷ []))) ≡ false }
    ensures two_rows_are_too_many { refutes
        (database ((Int (pos 1) ∷ Int (pos 1) ∷ []) ∷ [])) above_the_row (OneRow 0) Null
        (Two (rows ((0 ∷ []) ∷ (0 ∷ []) ∷ [])) (rows ((0 ∷ []) ∷ (1 ∷ []) ∷ []))) ≡ true }
    ensures one_row_is_not_two { refutes
        (database ((Int (pos 1) ∷ Int (pos 1) ∷ []) ∷ [])) above_the_row (OneRow 0) Null
        (Two (rows ((0 ∷ []) ∷ (1 ∷ []) ∷ [])) (rows ((0 ∷ []) ∷ (1 ∷ []) ∷ []))) ≡ false }
    ensures two_rows_leave_it_undecided { outcome
        (database ((Int (pos 1) ∷ Int (pos 1) ∷ []) ∷ [])) above_the_row Empty Null
        (One (rows ((0 ∷ []) ∷ []))) ≡ Err nowhere }
    ensures null_is_in_not_in { refutes (database ((Null ∷ []) ∷ [])) not_among
        (NullInNotIn 0) Null (One (rows ((0 ∷ []) ∷ (0 ∷ []) ∷ []))) ≡ true }
    ensures value_is_no_null { refutes (database ((Int (pos 1) ∷ []) ∷ [])) not_among
        (NullInNotIn 0) Null (One (rows ((0 ∷ []) ∷ (0 ∷ []) ∷ []))) ≡ false }
    ensures no_row_fits { refutes (database ((Int (pos 1) ∷ []) ∷ (Int (pos 2) ∷ []) ∷ [])) joined
        (NeedlessJoin 1) Null (Without (rows ((0 ∷ []) ∷ []))) ≡ true }
    ensures one_row_fits { refutes (database ((Int (pos 1) ∷ []) ∷ (Int (pos 1) ∷ []) ∷ [])) joined
        (NeedlessJoin 1) Null (Without (rows ((0 ∷ []) ∷ []))) ≡ false }
    ensures two_rows_fit { refutes
        (database ((Int (pos 1) ∷ []) ∷ (Int (pos 1) ∷ Int (pos 1) ∷ []) ∷ [])) joined
        (NeedlessJoin 1) Null (Two (rows ((0 ∷ 0 ∷ []) ∷ [])) (rows ((0 ∷ 1 ∷ []) ∷ []))) ≡ true }
    ensures predicate_is_needed { refutes (database ((Int (pos 2) ∷ []) ∷ [])) where_one
        (Implied 0) Null (One (rows ((0 ∷ []) ∷ []))) ≡ true }
    ensures predicate_is_true { refutes (database ((Int (pos 1) ∷ []) ∷ [])) where_one
        (Implied 0) Null (One (rows ((0 ∷ []) ∷ []))) ≡ false }
    ensures predicate_can_be_true { refutes (database ((Int (pos 1) ∷ []) ∷ [])) where_one
        (Impossible 0) Null (One (rows ((0 ∷ []) ∷ []))) ≡ true }
    ensures predicate_is_false { refutes (database ((Int (pos 2) ∷ []) ∷ [])) where_one
        (Impossible 0) Null (One (rows ((0 ∷ []) ∷ []))) ≡ false }
    ensures equal_rows_at_two_places { refutes
        (database ((Int (pos 1) ∷ Int (pos 1) ∷ []) ∷ [])) twice (SameRow 0 1) Null
        (One (rows ((0 ∷ 1 ∷ []) ∷ []))) ≡ true }
    ensures one_place { refutes (database ((Int (pos 1) ∷ Int (pos 1) ∷ []) ∷ [])) twice
        (SameRow 0 1) Null (One (rows ((0 ∷ 0 ∷ []) ∷ []))) ≡ false }
{}
