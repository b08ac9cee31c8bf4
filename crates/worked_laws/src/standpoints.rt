//! Standpoints by small examples. The function does nothing: its contract is facts about the
//! definitions of `question_laws`.
ghost use Rattle.std.specs.Prelude.{false, List, [], ◌∷◌};
ghost use Rattle.lint_core.specs.declared.condition.Cond.TheVariants.{IsNull};
ghost use Rattle.lint_core.specs.Database.{Place};
ghost use Rattle.worked_laws.specs.Examples.{nowhere, the_column};
ghost use Rattle.lint_core.specs.declared.scope.Scope.{Scope};
ghost use Rattle.question_laws.specs.Alike.{StandAlike};

/// A condition on the first of two entries: what stands for the second may have no row, no
/// variable, or the row of another table. Two rows for the first are not the same.
pub fn worked_standpoints()
    ensures no_row { let one : Scope =
        record { levels = (0 ∷ 7 ∷ []) ∷ []; tables = (0 ∷ 1 ∷ []) ∷ []; depth = 1 } in
        let other : Scope =
        record { levels = (1 ∷ 0 ∷ []) ∷ []; tables = (0 ∷ 1 ∷ []) ∷ []; depth = 2 } in
        let rows : List Place = record { table = 0; row = 3 } ∷ [] in
        let others : List Place =
        record { table = 5; row = 2 } ∷ record { table = 0; row = 3 } ∷ [] in
        StandAlike one other rows others (IsNull the_column false nowhere) }
    ensures no_variable { let one : Scope =
        record { levels = (0 ∷ []) ∷ []; tables = (0 ∷ 1 ∷ []) ∷ []; depth = 1 } in
        let other : Scope =
        record { levels = (1 ∷ 0 ∷ []) ∷ []; tables = (0 ∷ 1 ∷ []) ∷ []; depth = 2 } in
        let rows : List Place = record { table = 0; row = 3 } ∷ [] in
        let others : List Place =
        record { table = 5; row = 2 } ∷ record { table = 0; row = 3 } ∷ [] in
        StandAlike one other rows others (IsNull the_column false nowhere) }
    ensures other_row { let one : Scope = record {
      levels = (0 ∷ []) ∷ [];
      tables = (0 ∷ [])
          ∷ [];
      depth = 1;
    } in
        let rows : List Place = record { table = 0; row = 3 } ∷ [] in
        let others : List Place = record { table = 0; row = 4 } ∷ [] in
        StandAlike one one rows others (IsNull the_column false nowhere) → ⊥ }
{}
