//! What the two formulas of a condition say. The functions do nothing: each contract is a law
//! about the definitions in `specs/`.
ghost use Rattle.std.specs.Prelude.{Ok, ◌≡◌, ℕ, true, suc, length, map, List, slice_get, option_and_then, Bool};
ghost use Rattle.lint_core.specs.declared.condition.Cond.{Cond as Condition};
ghost use Rattle.lint_core.specs.declared.database.Database.{Database};
ghost use Rattle.lint_core.specs.declared.database.Points.{Points};
ghost use Rattle.lint_core.specs.declared.database.Truth.{Truth};
ghost use Rattle.lint_core.specs.declared.database.Value.{Value};
ghost use Rattle.lint_core.specs.declared.query.Query.{Query};
ghost use Rattle.lint_core.specs.declared.query.Question.{Question};
ghost use Rattle.lint_core.specs.declared.schema.Table.{Table};
ghost use Rattle.lint_core.specs.Asked.{is_asked};
ghost use Rattle.lint_core.specs.Condition.{truth};
ghost use Rattle.lint_core.specs.Fits.{at_entry};
ghost use Rattle.lint_core.specs.Database.{Place};
ghost use Rattle.lint_core.specs.Fits.{cond_fits, query_fits};
ghost use Rattle.lint_core.specs.Meets.{is_of_domains};
ghost use Rattle.lint_core.specs.Naming.{names};
ghost use Rattle.lint_core.specs.Question.{outcome, outcome_by};
ghost use Rattle.lint_core.specs.Truth.{is_true, is_false};
ghost use Rattle.sort_formula.specs.Holds.{holds};
ghost use Rattle.sort_formula.specs.Loose.{by_formula};
ghost use Rattle.sort_formula.specs.Sentences.{formula_fits};
ghost use Rattle.lint_core.specs.declared.scope.Scope.{Scope};
ghost use Rattle.sort_formula.specs.Standpoint.{StandsFor};
ghost use Rattle.sort_formula.specs.Translation.{is_true_formula, is_false_formula};

/// In a database of the schema's domains, where the variables of the scope have the rows of the
/// binding: at a binding where the condition has a truth, the one formula holds exactly where it
/// is true, and the other exactly where it is false.
pub fn formulas_say_truth()
    ensures says_true { (schema : List Table) (db : Database) → is_of_domains schema db ≡ true
        → (cond : Condition) (scope : Scope) → cond_fits schema scope.tables cond ≡ true
        → (binding : List (List ℕ)) (rows : List Place) → StandsFor db scope binding rows cond
        → (t : Truth) → truth db cond scope.tables binding ≡ Ok t
        → holds db (is_true_formula schema cond scope) rows ≡ is_true t }
    ensures says_false { (schema : List Table) (db : Database) → is_of_domains schema db ≡ true
        → (cond : Condition) (scope : Scope) → cond_fits schema scope.tables cond ≡ true
        → (binding : List (List ℕ)) (rows : List Place) → StandsFor db scope binding rows cond
        → (t : Truth) → truth db cond scope.tables binding ≡ Ok t
        → holds db (is_false_formula schema cond scope) rows ≡ is_false t }
{}

/// The formulas of a condition that fits the schema fit it too, by the tables of the variables
/// outside, where these are the tables of the entries. Of an entry of the main query that the
/// condition does not name nothing is asked.
pub fn formulas_fit()
    ensures says_true { (schema : List Table) (cond : Condition) (scope : Scope)
        → cond_fits schema scope.tables cond ≡ true
        → map length scope.levels ≡ map length scope.tables
        → (outside : List ℕ) → length outside ≡ scope.depth
        → ((entry : ℕ) → names entry cond ≡ true
        → option_and_then (slice_get outside) (at_entry scope.levels 0 entry)
        ≡ at_entry scope.tables 0 entry)
        → ((level entry : ℕ) → option_and_then (slice_get outside)
        (at_entry scope.levels (suc level) entry) ≡ at_entry scope.tables (suc level) entry)
        → formula_fits schema (is_true_formula schema cond scope) outside ≡ true }
    ensures says_false { (schema : List Table) (cond : Condition) (scope : Scope)
        → cond_fits schema scope.tables cond ≡ true
        → map length scope.levels ≡ map length scope.tables
        → (outside : List ℕ) → length outside ≡ scope.depth
        → ((entry : ℕ) → names entry cond ≡ true
        → option_and_then (slice_get outside) (at_entry scope.levels 0 entry)
        ≡ at_entry scope.tables 0 entry)
        → ((level entry : ℕ) → option_and_then (slice_get outside)
        (at_entry scope.levels (suc level) entry) ≡ at_entry scope.tables (suc level) entry)
        → formula_fits schema (is_false_formula schema cond scope) outside ≡ true }
{}

/// In a database of the domains the loose interpretation of an asked question agrees with the
/// truths wherever those that the question's clause needs exist.
pub fn loose_interpretation_agrees()
    ensures { (schema : List Table) (db : Database) → is_of_domains schema db ≡ true
        → (query : Query) → query_fits schema query ≡ true
        → (question : Question) → is_asked schema query question ≡ true
        → (given : Value) (points : Points) (fails : Bool)
        → outcome db query question given points ≡ Ok fails
        → outcome_by db query (by_formula schema db) question given points ≡ Ok fails }
{}
