//! The laws of completeness: which questions get a verdict, and which budget suffices. The
//! functions call other laws: each contract is a law.
ghost use Rattle.std.specs.Prelude.{◌≡◌, ℕ, ◌+◌, ◌*◌, true, List, length};
ghost use Rattle.lint_core.specs.declared.database.Value.{Value};
ghost use Rattle.lint_core.specs.declared.query.Query.{Query};
ghost use Rattle.lint_core.specs.declared.query.Question.{Question};
ghost use Rattle.lint_core.specs.declared.run.Answer.{Answer};
ghost use Rattle.lint_core.specs.declared.schema.Table.{Table};
ghost use Rattle.ground_theory.specs.declared.literal.Clause.{Clause};
ghost use Rattle.ground_theory.specs.declared.literal.Frame.{Frame};
ghost use Rattle.case_split.specs.Answers.{HasSpent};
ghost use Rattle.lint_engine.specs.Asking.{Numbers, IsAskAnswer};
ghost use Rattle.lint_engine.specs.AskingAll.{AreRightAnswers};
ghost use Rattle.verdict_laws.specs.Completeness.{HasAtMost, HasFewCases, IsInClass, is_verdict_or_spent, product_of_ways};
ghost use Rattle.verdict_laws.specs.Headline.{IsAnsweredAt, given_at, is_put, is_verdict};

use case_split::choices_are_ordered;

/// Where so many different counted cases can be listed at most, no answer says with right that
/// there are more. Of g clauses there are at most g + 1 times the product of their numbers of ways.
pub fn budgets_suffice()
    ensures at_most { (clauses : List Clause) (frame : Frame) (budget tried : ℕ)
        → HasAtMost clauses frame budget → HasSpent clauses frame budget tried → ⊥ }
    ensures product { (clauses : List Clause) (frame : Frame)
        → HasAtMost clauses frame ((length clauses + 1) * product_of_ways clauses) }
{
    choices_are_ordered();
}

/// A question of the class within the limits is answered by a verdict, or it has more counted cases
/// than the budget; and by a verdict where it has at most as many. So is each question of a query
/// that is put: that is neither blocked nor moot.
pub fn questions_of_the_class_are_decided()
    ensures alone { (schema : List Table) (query : Query) (question : Question) (given : Value)
        (numbers : Numbers) (budget : ℕ) (answer : Answer)
        → IsAskAnswer schema query question given numbers budget answer
        → IsInClass schema query question given → is_verdict_or_spent answer ≡ true }
    ensures alone_within { (schema : List Table) (query : Query) (question : Question)
        (given : Value) (numbers : Numbers) (budget : ℕ) (answer : Answer)
        → IsAskAnswer schema query question given numbers budget answer
        → IsInClass schema query question given → HasFewCases schema query question given budget
        → is_verdict answer ≡ true }
    ensures all { (schema : List Table) (query : Query) (number budget : ℕ)
        (answers : List Answer) → AreRightAnswers schema query number budget answers
        → (place : ℕ) (question : Question) (answer : Answer)
        → IsAnsweredAt schema query number budget answers place question answer
        → is_put answer ≡ true
        → IsInClass schema query question
        (given_at schema query number budget answers place question)
        → is_verdict_or_spent answer ≡ true }
    ensures all_within { (schema : List Table) (query : Query) (number budget : ℕ)
        (answers : List Answer) → AreRightAnswers schema query number budget answers
        → (place : ℕ) (question : Question) (answer : Answer)
        → IsAnsweredAt schema query number budget answers place question answer
        → is_put answer ≡ true
        → IsInClass schema query question
        (given_at schema query number budget answers place question)
        → HasFewCases schema query question
        (given_at schema query number budget answers place question) budget
        → is_verdict answer ≡ true }
{
    budgets_suffice();
}
