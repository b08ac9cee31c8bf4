//! What the answers to a question say of their causes, and of the questions before. The functions
//! call another law or do nothing: each contract is a law about the definitions in `specs/`.
ghost use Rattle.std.specs.Prelude.{◌≡◌, ◌↔◌, ◌+◌, ℕ, true, false, List, [], ◌∷◌, ◌++◌, length, take, Some, None, slice_get};
ghost use Rattle.lint_core.specs.declared.database.Binding.{Binding};
ghost use Rattle.lint_core.specs.declared.database.Database.{Database};
ghost use Rattle.lint_core.specs.declared.database.Points.TheVariants.{One};
ghost use Rattle.lint_core.specs.declared.database.Value.{Value};
ghost use Rattle.lint_core.specs.declared.database.Value.TheVariants.{Null};
ghost use Rattle.lint_core.specs.declared.query.Query.{Query as SomeQuery};
ghost use Rattle.lint_core.specs.declared.query.Question.{Question};
ghost use Rattle.lint_core.specs.declared.query.Question.TheVariants.{OneRow, Empty, Constant, Duplicate};
ghost use Rattle.lint_core.specs.declared.certificate.Cert.{Cert};
ghost use Rattle.lint_core.specs.declared.certificate.Step.{Step};
ghost use Rattle.lint_core.specs.declared.database.Counter.{Counter as SomeCounter};
ghost use Rattle.lint_core.specs.declared.run.Answer.{Answer as SomeAnswer};
ghost use Rattle.lint_core.specs.declared.run.Answer.TheVariants.{Always, Blocked, CyclicNesting, Large, Spent};
ghost use Rattle.lint_core.specs.declared.schema.Table.{Table};
ghost use Rattle.lint_core.specs.Asked.{is_asked, questions};
ghost use Rattle.lint_core.specs.DatabaseFits.{database_fits};
ghost use Rattle.lint_core.specs.Fits.{query_fits};
ghost use Rattle.lint_core.specs.Schema.{is_schema};
ghost use Rattle.sort_formula.specs.Certificate.{accepts};
ghost use Rattle.sort_formula.specs.Counters.{counter_sentence};
ghost use Rattle.lint_core.specs.Meets.{meets};
ghost use Rattle.lint_core.specs.Question.{EarlierHold, refutes};
ghost use Rattle.sorted_skolem.specs.Graph.{IsCycle};
ghost use Rattle.lint_engine.specs.Asking.{Numbers, HoldsWhereEarlierHold, IsAskAnswer, IsCounter, InOrder, sentences};
ghost use Rattle.lint_engine.specs.AskingAll.{AreRightFrom, IsNext, IsOwnAnswer, IsRefuted};
ghost use Rattle.lint_engine.specs.Earlier.{answered, blocker, empty_counter, is_moot};
ghost use Rattle.lint_engine.specs.Limits.{IsTooLarge};

use counter_laws::{loosely_is_truly, question_holds_where_the_sentence_fails};
use ground_laws::sentences_have_one_order;
use truth_laws::accepted_sentence_fails;

/// A right answer is `CyclicNesting` exactly where there is a cycle, and `Large` exactly where
/// there is an order and a limit is passed.
pub fn causes_are_exact()
    ensures nesting { (schema : List Table) (query : SomeQuery) (question : Question)
        (given : Value) (numbers : Numbers) (budget : ℕ) (answer : SomeAnswer)
        → IsAskAnswer schema query question given numbers budget answer
        → ((cycle : List ℕ) × (answer ≡ CyclicNesting cycle))
        ↔ ((cycle : List ℕ) × IsCycle (sentences schema query question given) cycle) }
    ensures large { (schema : List Table) (query : SomeQuery) (question : Question)
        (given : Value) (numbers : Numbers) (budget : ℕ) (answer : SomeAnswer)
        → IsAskAnswer schema query question given numbers budget answer
        → ((rows : ℕ) × (clauses : ℕ) × (answer ≡ Large rows clauses))
        ↔ InOrder schema query question given (λ order. (rows : ℕ) × (clauses : ℕ)
        × IsTooLarge (sentences schema query question given) order rows clauses) }
{
    sentences_have_one_order();
}

/// Where the answers so far are right and do not block the next question, each scalar subquery
/// asked of before it gives at most one row, in every database that meets the schema. So what is
/// answered of it alone is right as it is.
pub fn earlier_questions_hold()
    ensures hold { (schema : List Table) (query : SomeQuery) (number budget place : ℕ)
        (question : Question) (answers : List SomeAnswer)
        → slice_get (questions schema query) place ≡ Some question
        → AreRightFrom schema query number budget 1 []
        (take place (questions schema query)) answers
        → blocker (answered 1 (take place (questions schema query)) answers) question ≡ None
        → (db : Database) → meets schema db ≡ true → EarlierHold db query question }
    ensures own { (schema : List Table) (query : SomeQuery) (question : Question) (given : Value)
        (numbers : Numbers) (budget : ℕ) (answer : SomeAnswer)
        → ((db : Database) → meets schema db ≡ true → EarlierHold db query question)
        → IsAskAnswer schema query question given numbers budget answer
        → IsOwnAnswer schema query question given numbers budget answer }
{}

/// Where right answers so far neither block a constant column nor make it moot, E1 stands before it
/// and is answered with one database, in which the answer has a row at one binding. So the column
/// is asked of with its value there.
pub fn constant_columns_have_a_value()
    ensures { (schema : List Table) (query : SomeQuery) (number budget place item : ℕ)
        (answers : List SomeAnswer)
        → slice_get (questions schema query) place ≡ Some (Constant item)
        → AreRightFrom schema query number budget 1 []
        (take place (questions schema query)) answers
        → blocker (answered 1 (take place (questions schema query)) answers) (Constant item)
        ≡ None
        → is_moot (answered 1 (take place (questions schema query)) answers) (Constant item)
        ≡ false
        → (counter : SomeCounter)
        × (empty_counter (answered 1 (take place (questions schema query)) answers)
        ≡ Some counter)
        × IsRefuted schema query Empty Null counter
        × ((binding : Binding) × (counter.points ≡ One binding)) }
{}

/// One more right answer behind right ones.
pub fn right_answers_go_on()
    ensures { (schema : List Table) (query : SomeQuery) (number budget : ℕ)
        (asked : List Question) (answers : List SomeAnswer) (question : Question)
        (answer : SomeAnswer)
        → AreRightFrom schema query number budget 1 [] asked answers
        → IsNext schema query number budget (answered 1 asked answers)
        (record { number = 1 + length asked; question = question; answer = answer })
        → AreRightFrom schema query number budget 1 [] (asked ++ question ∷ [])
        (answers ++ answer ∷ []) }
{}

/// Of every query that fits: where steps refute the counter sentence of an asked question, it
/// holds in every database that meets the schema and in which the scalar subqueries asked of
/// before it give at most one row.
pub fn accepted_questions_hold()
    ensures { (schema : List Table) → is_schema schema ≡ true
        → (query : SomeQuery) → query_fits schema query ≡ true
        → (question : Question) → is_asked schema query question ≡ true
        → (given : Value) (steps : List Step)
        → accepts schema (counter_sentence schema query question given) steps ≡ true
        → HoldsWhereEarlierHold schema query question given }
{
    accepted_sentence_fails();
    question_holds_where_the_sentence_fails();
}

/// In a database that meets the schema, points that refute an asked question by the formulas
/// refute it by the truths, where the scalar subqueries asked of before it give at most one row.
pub fn loose_points_refute()
    ensures { (schema : List Table) (query : SomeQuery) → query_fits schema query ≡ true
        → (question : Question) → is_asked schema query question ≡ true → (given : Value)
        → (counter : SomeCounter) → IsCounter schema query question given counter
        → EarlierHold counter.database query question
        → refutes counter.database query question given counter.points ≡ true }
{
    loosely_is_truly();
}

/// A database that meets a schema fits it.
pub fn databases_of_the_schema_fit()
    ensures { (schema : List Table) (db : Database) → meets schema db ≡ true
        → database_fits schema db ≡ true }
{}

/// E1 is blocked by an E9 that is not Always; a constant column also by an E1 that was not judged
/// to an end; two columns are not. Where E1 is Always, all but E9 and E1 are moot.
pub fn worked_earlier_answers()
    ensures by_scalar { blocker (record { number = 1; question = OneRow 0; answer = Large 600 0 }
        ∷ record { number = 2; question = OneRow 1; answer = Blocked 1 } ∷ []) Empty ≡ Some 1 }
    ensures by_empty { blocker (record { number = 1; question = Empty; answer = Spent 7 } ∷ [])
        (Constant 0) ≡ Some 1 }
    ensures not_by_empty { blocker (record { number = 1; question = Empty; answer = Spent 7 } ∷ [])
        (Duplicate 0 1) ≡ None }
    ensures by_first { blocker (record { number = 1; question = OneRow 0; answer = Spent 9 }
        ∷ record { number = 2; question = Empty; answer = Blocked 1 } ∷ []) (Constant 0) ≡ Some 1 }
    ensures moot { (cert : Cert)
        → is_moot (record { number = 1; question = Empty; answer = Always cert } ∷ [])
        (Constant 0) ≡ true }
    ensures not_moot { (cert : Cert)
        → is_moot (record { number = 1; question = Empty; answer = Always cert } ∷ [])
        (OneRow 0) ≡ false }
    ensures not_empty { (cert : Cert)
        → is_moot (record { number = 1; question = OneRow 0; answer = Always cert } ∷ [])
        Empty ≡ false }
{}
