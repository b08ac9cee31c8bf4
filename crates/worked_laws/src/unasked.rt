//! A question that is not asked. The function does nothing: its contract is facts about the
//! definition of `EarlierHold`.
ghost use Rattle.std.specs.Prelude.{Err, ◌≡◌, [], ◌∷◌};
ghost use Rattle.lint_core.specs.declared.database.Points.TheVariants.{Without};
ghost use Rattle.lint_core.specs.declared.database.Value.TheVariants.{Null};
ghost use Rattle.lint_core.specs.declared.query.Question.TheVariants.{NeedlessJoin};
ghost use Rattle.worked_laws.specs.Examples.{nowhere, rows};
ghost use Rattle.lint_core.specs.Question.{EarlierHold, outcome};
ghost use Rattle.worked_laws.specs.Unasked.{beside_an_empty_table, two_and_none};

/// A question that is not asked may be undecided where all earlier ones hold.
pub fn worked_unasked()
    ensures earlier_hold { EarlierHold two_and_none beside_an_empty_table (NeedlessJoin 1) }
    ensures undecided { outcome two_and_none beside_an_empty_table (NeedlessJoin 1) Null
        (Without (rows ((0 ∷ []) ∷ [])))
        ≡ Err nowhere }
{}
