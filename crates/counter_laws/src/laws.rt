//! The functions call other laws and do nothing else: each contract is a law about the definitions
//! in `specs/`.
ghost use Rattle.std.specs.Prelude.{◌≡◌, ◌↔◌, ◌<◌, ◌||◌, ℕ, true, false, Option, Some, None};
ghost use Rattle.std.specs.Prelude.{List, [], ◌∷◌, ◌++◌, length};
ghost use Rattle.std.specs.List.{list_all};
ghost use Rattle.lint_core.specs.declared.database.Database.{Database};
ghost use Rattle.lint_core.specs.declared.database.Points.{Points as SomePoints};
ghost use Rattle.lint_core.specs.declared.database.Value.{Value};
ghost use Rattle.lint_core.specs.declared.query.Query.{Query};
ghost use Rattle.lint_core.specs.declared.query.Question.{Question};
ghost use Rattle.lint_core.specs.declared.query.Question.TheVariants.{NeedlessJoin};
ghost use Rattle.lint_core.specs.declared.schema.Table.{Table};
ghost use Rattle.lint_core.specs.Asked.{is_asked};
ghost use Rattle.lint_core.specs.Database.{rows_of};
ghost use Rattle.lint_core.specs.Fits.{query_fits};
ghost use Rattle.lint_core.specs.Meets.{is_of_domains, meets};
ghost use Rattle.lint_core.specs.Points.{are_rows};
ghost use Rattle.lint_core.specs.Question.{EarlierHold, HoldsIn, refutes};
ghost use Rattle.sort_formula.specs.CounterPoints.{are_there, points_of};
ghost use Rattle.sort_formula.specs.Counters.{counter, counter_sentence, table_of_entry};
ghost use Rattle.sort_formula.specs.Holds.{holds};
ghost use Rattle.sort_formula.specs.Loose.{refutes_loosely};
ghost use Rattle.counter_laws.specs.Joins.{is_join, no_row_body, two_rows_body};
ghost use Rattle.counter_laws.specs.Joins.{both_fit, without_formulas};
ghost use Rattle.counter_laws.specs.LeadingRows.{leading_rows};

use question_laws::{
    conjuncts_say_the_condition, formulas_depend_on_rows_alone, one_binding_gives_the_same_rows,
    rows_may_follow,
};
use question_truths::{outcomes_are_decided_where_earlier_questions_hold, parts_of_queries_fit};
use truth_laws::loose_interpretation_agrees;

/// Row by row, of an asked question that is no needless join: at rows of the lead the body of its
/// counter sentence holds exactly where the points made of these rows refute the question loosely.
pub fn leading_rows_refute()
    ensures { (schema : List Table) (db : Database) → is_of_domains schema db ≡ true
        → (query : Query) → query_fits schema query ≡ true
        → (question : Question) → is_asked schema query question ≡ true
        → is_join question ≡ false → (given : Value) (places : List ℕ)
        → are_rows db (counter schema query question given).lead places ≡ true
        → holds db (counter schema query question given).body
        (leading_rows (counter schema query question given).lead places)
        ≡ refutes_loosely schema db query question given
        (points_of query question places None) }
{
    formulas_depend_on_rows_alone();
    one_binding_gives_the_same_rows();
    rows_may_follow();
    parts_of_queries_fit();
}

/// Row by row, of a needless join: the one part of the body, that no row of the entry fits, holds
/// exactly where the rows of the others alone refute; the other, that two rows fit, exactly where
/// the others with some two rows of the entry do. Where the conjuncts without the entry hold, and
/// these two rows of it fit, the others with these two refute. The body holds exactly where one of
/// its parts does.
pub fn rows_of_a_join_refute()
    ensures no_row { (schema : List Table) (db : Database) → is_of_domains schema db ≡ true
        → (query : Query) → query_fits schema query ≡ true
        → (entry : ℕ) → is_asked schema query (NeedlessJoin entry) ≡ true
        → (given : Value) (places : List ℕ)
        → are_rows db (counter schema query (NeedlessJoin entry) given).lead places ≡ true
        → holds db (no_row_body schema query entry)
        (leading_rows (counter schema query (NeedlessJoin entry) given).lead places)
        ≡ refutes_loosely schema db query (NeedlessJoin entry) given
        (points_of query (NeedlessJoin entry) places None) }
    ensures two_rows { (schema : List Table) (db : Database) → is_of_domains schema db ≡ true
        → (query : Query) → query_fits schema query ≡ true
        → (entry : ℕ) → is_asked schema query (NeedlessJoin entry) ≡ true
        → (given : Value) (places : List ℕ)
        → are_rows db (counter schema query (NeedlessJoin entry) given).lead places ≡ true
        → holds db (two_rows_body schema query entry)
        (leading_rows (counter schema query (NeedlessJoin entry) given).lead places) ≡ true
        → (x : ℕ) × (y : ℕ)
        × (are_there query db (NeedlessJoin entry) (Some (x, y)) ≡ true)
        × (refutes_loosely schema db query (NeedlessJoin entry) given
        (points_of query (NeedlessJoin entry) places (Some (x, y))) ≡ true) }
    ensures from_two_rows { (schema : List Table) (db : Database) → is_of_domains schema db ≡ true
        → (query : Query) → query_fits schema query ≡ true
        → (entry : ℕ) → is_asked schema query (NeedlessJoin entry) ≡ true
        → (given : Value) (places : List ℕ)
        → are_rows db (counter schema query (NeedlessJoin entry) given).lead places ≡ true
        → (x y : ℕ) → are_there query db (NeedlessJoin entry) (Some (x, y)) ≡ true
        → refutes_loosely schema db query (NeedlessJoin entry) given
        (points_of query (NeedlessJoin entry) places (Some (x, y))) ≡ true
        → holds db (two_rows_body schema query entry)
        (leading_rows (counter schema query (NeedlessJoin entry) given).lead places) ≡ true }
    ensures these_two { (schema : List Table) (db : Database) → is_of_domains schema db ≡ true
        → (query : Query) → query_fits schema query ≡ true
        → (entry : ℕ) → is_asked schema query (NeedlessJoin entry) ≡ true
        → (given : Value) (places : List ℕ)
        → are_rows db (counter schema query (NeedlessJoin entry) given).lead places ≡ true
        → list_all (λ g. holds db g
        (leading_rows (counter schema query (NeedlessJoin entry) given).lead places))
        (without_formulas schema query entry) ≡ true
        → (x y : ℕ) → x < length (rows_of db (table_of_entry schema query entry))
        → y < length (rows_of db (table_of_entry schema query entry))
        → holds db (both_fit schema query entry)
        (leading_rows (counter schema query (NeedlessJoin entry) given).lead places
        ++ record { table = table_of_entry schema query entry; row = x }
        ∷ record { table = table_of_entry schema query entry; row = y } ∷ []) ≡ true
        → (are_there query db (NeedlessJoin entry) (Some (x, y)) ≡ true)
        × (refutes_loosely schema db query (NeedlessJoin entry) given
        (points_of query (NeedlessJoin entry) places (Some (x, y))) ≡ true) }
    ensures body { (schema : List Table) (db : Database) → is_of_domains schema db ≡ true
        → (query : Query) → query_fits schema query ≡ true
        → (entry : ℕ) → is_asked schema query (NeedlessJoin entry) ≡ true
        → (given : Value) (places : List ℕ)
        → are_rows db (counter schema query (NeedlessJoin entry) given).lead places ≡ true
        → holds db (counter schema query (NeedlessJoin entry) given).body
        (leading_rows (counter schema query (NeedlessJoin entry) given).lead places)
        ≡ (holds db (no_row_body schema query entry)
        (leading_rows (counter schema query (NeedlessJoin entry) given).lead places)
        || holds db (two_rows_body schema query entry)
        (leading_rows (counter schema query (NeedlessJoin entry) given).lead places)) }
{
    formulas_depend_on_rows_alone();
    one_binding_gives_the_same_rows();
    conjuncts_say_the_condition();
}

/// Row by row, of every asked question: where the body of its counter sentence holds at rows of
/// the lead, the points made of these rows refute the question loosely, for a needless join
/// perhaps with two rows of the entry; and where such points do, the body holds.
pub fn bodies_say_that_points_refute()
    ensures points { (schema : List Table) (db : Database) → is_of_domains schema db ≡ true
        → (query : Query) → query_fits schema query ≡ true
        → (question : Question) → is_asked schema query question ≡ true
        → (given : Value) (places : List ℕ)
        → are_rows db (counter schema query question given).lead places ≡ true
        → holds db (counter schema query question given).body
        (leading_rows (counter schema query question given).lead places) ≡ true
        → (fitting : Option (ℕ × ℕ)) × (are_there query db question fitting ≡ true)
        × (refutes_loosely schema db query question given
        (points_of query question places fitting) ≡ true) }
    ensures body { (schema : List Table) (db : Database) → is_of_domains schema db ≡ true
        → (query : Query) → query_fits schema query ≡ true
        → (question : Question) → is_asked schema query question ≡ true
        → (given : Value) (places : List ℕ)
        → are_rows db (counter schema query question given).lead places ≡ true
        → (fitting : Option (ℕ × ℕ)) → are_there query db question fitting ≡ true
        → refutes_loosely schema db query question given
        (points_of query question places fitting) ≡ true
        → holds db (counter schema query question given).body
        (leading_rows (counter schema query question given).lead places) ≡ true }
{
    formulas_depend_on_rows_alone();
    one_binding_gives_the_same_rows();
    rows_may_follow();
    conjuncts_say_the_condition();
    parts_of_queries_fit();
}

/// As a whole: the counter sentence of an asked question holds in a database of the domains
/// exactly where some points refute the question loosely.
pub fn sentence_says_that_points_refute()
    ensures points { (schema : List Table) (db : Database) → is_of_domains schema db ≡ true
        → (query : Query) → query_fits schema query ≡ true
        → (question : Question) → is_asked schema query question ≡ true → (given : Value)
        → holds db (counter_sentence schema query question given) [] ≡ true
        → (points : SomePoints)
        × (refutes_loosely schema db query question given points ≡ true) }
    ensures sentence { (schema : List Table) (db : Database) → is_of_domains schema db ≡ true
        → (query : Query) → query_fits schema query ≡ true
        → (question : Question) → is_asked schema query question ≡ true
        → (given : Value) (points : SomePoints)
        → refutes_loosely schema db query question given points ≡ true
        → holds db (counter_sentence schema query question given) [] ≡ true }
{
    formulas_depend_on_rows_alone();
    one_binding_gives_the_same_rows();
    rows_may_follow();
    conjuncts_say_the_condition();
    parts_of_queries_fit();
}

/// In a database of the domains in which the scalar subqueries asked of before a question give at
/// most one row, points refute it exactly where they refute it loosely.
pub fn loosely_is_truly()
    ensures { (schema : List Table) (db : Database) → is_of_domains schema db ≡ true
        → (query : Query) → query_fits schema query ≡ true
        → (question : Question) → is_asked schema query question ≡ true
        → EarlierHold db query question → (given : Value) (points : SomePoints)
        → refutes db query question given points
        ≡ refutes_loosely schema db query question given points }
{
    outcomes_are_decided_where_earlier_questions_hold();
    loose_interpretation_agrees();
}

/// In such a database the counter sentence holds exactly where some points refute the question,
/// and the question holds exactly where the sentence does not.
pub fn sentence_decides_the_question()
    ensures points { (schema : List Table) (db : Database) → is_of_domains schema db ≡ true
        → (query : Query) → query_fits schema query ≡ true
        → (question : Question) → is_asked schema query question ≡ true
        → EarlierHold db query question → (given : Value)
        → holds db (counter_sentence schema query question given) [] ≡ true
        → (points : SomePoints) × (refutes db query question given points ≡ true) }
    ensures sentence { (schema : List Table) (db : Database) → is_of_domains schema db ≡ true
        → (query : Query) → query_fits schema query ≡ true
        → (question : Question) → is_asked schema query question ≡ true
        → EarlierHold db query question → (given : Value) (points : SomePoints)
        → refutes db query question given points ≡ true
        → holds db (counter_sentence schema query question given) [] ≡ true }
    ensures question { (schema : List Table) (db : Database) → is_of_domains schema db ≡ true
        → (query : Query) → query_fits schema query ≡ true
        → (question : Question) → is_asked schema query question ≡ true
        → EarlierHold db query question → (given : Value)
        → HoldsIn db query question given
        ↔ (holds db (counter_sentence schema query question given) [] ≡ false) }
{
    sentence_says_that_points_refute();
    loosely_is_truly();
}

/// In a database of the schema in which the scalar subqueries asked of before give at most one
/// row, a question holds where its counter sentence does not. So if the sentence holds in no
/// database of the schema, the question holds in each of them in which those subqueries give at
/// most one row.
pub fn question_holds_where_the_sentence_fails()
    ensures here { (schema : List Table) (db : Database) → meets schema db ≡ true
        → (query : Query) → query_fits schema query ≡ true
        → (question : Question) → is_asked schema query question ≡ true
        → EarlierHold db query question → (given : Value)
        → holds db (counter_sentence schema query question given) [] ≡ false
        → HoldsIn db query question given }
    ensures everywhere { (schema : List Table) (query : Query) → query_fits schema query ≡ true
        → (question : Question) → is_asked schema query question ≡ true → (given : Value)
        → ((db : Database) → meets schema db ≡ true
        → holds db (counter_sentence schema query question given) [] ≡ false)
        → (db : Database) → meets schema db ≡ true → EarlierHold db query question
        → HoldsIn db query question given }
{
    sentence_decides_the_question();
}
