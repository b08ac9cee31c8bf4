//! The law of right answers. The function calls other laws and does nothing else: its contract is
//! the law.
ghost use Rattle.std.specs.Prelude.{◌≡◌, ℕ, true, List};
ghost use Rattle.lint_core.specs.declared.query.Query.{Query};
ghost use Rattle.lint_core.specs.declared.run.Answer.{Answer};
ghost use Rattle.lint_core.specs.declared.schema.Table.{Table};
ghost use Rattle.lint_engine.specs.AskingAll.{AreRightAnswers};
ghost use Rattle.verdict_laws.specs.Headline.{Headline};

use answer_laws::always_means;

/// Right answers to all questions of a query keep their word.
pub fn right_answers_keep_their_word()
    ensures { (schema : List Table) (query : Query) (number budget : ℕ) (answers : List Answer)
        → AreRightAnswers schema query number budget answers
        → Headline schema query number budget answers }
{
    always_means();
}
