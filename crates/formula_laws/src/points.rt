//! The points that the leading rows of a counter sentence make. The functions do nothing: each
//! contract is a law about the definitions in `specs/`.
ghost use Rattle.std.specs.Prelude.{◌≡◌, ℕ, true, length, map, List, Option};
ghost use Rattle.lint_core.specs.declared.database.Database.{Database};
ghost use Rattle.lint_core.specs.declared.database.Value.{Value};
ghost use Rattle.lint_core.specs.declared.query.Query.{Query};
ghost use Rattle.lint_core.specs.declared.query.Question.{Question as Asked};
ghost use Rattle.lint_core.specs.declared.schema.Table.{Table};
ghost use Rattle.lint_core.specs.Asked.{is_asked};
ghost use Rattle.lint_core.specs.Points.{are_rows};
ghost use Rattle.lint_core.specs.Forms.{have_form};
ghost use Rattle.sort_formula.specs.CounterPoints.{are_apart, are_there, in_levels, points_of};
ghost use Rattle.sort_formula.specs.Counters.{counter};
ghost use Rattle.sort_formula.specs.Sides.{all_of};

/// A list that falls into levels is these levels put together, and levels put together fall into
/// themselves.
pub fn levels_put_together()
    ensures places { (shape : List (List ℕ)) (places : List ℕ)
        → length places ≡ length (all_of shape)
        → all_of (in_levels shape places) ≡ places }
    ensures levels { (shape levels : List (List ℕ)) → map length levels ≡ map length shape
        → in_levels shape (all_of levels) ≡ levels }
{}

/// The points that the leading rows of an asked question make have the question's form and name
/// existing rows, where these rows are rows of the lead's tables, so are two that fit a needless
/// join, and two bindings differ in their last levels.
pub fn leading_rows_are_points()
    ensures { (schema : List Table) (db : Database) (query : Query) (given : Value)
        → (question : Asked) → is_asked schema query question ≡ true
        → (places : List ℕ) → are_rows db (counter schema query question given).lead places ≡ true
        → (fitting : Option (ℕ × ℕ)) → are_there query db question fitting ≡ true
        → are_apart (points_of query question places fitting) ≡ true
        → have_form db query question (points_of query question places fitting) ≡ true }
{}
