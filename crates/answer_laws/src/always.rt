//! What a question that holds always says. The function calls other laws and does nothing else:
//! its contract is the law.
ghost use Rattle.std.specs.Prelude.{◌≡◌, true, List};
ghost use Rattle.lint_core.specs.declared.database.Database.{Database as Data};
ghost use Rattle.lint_core.specs.declared.database.Value.{Value};
ghost use Rattle.lint_core.specs.declared.query.Query.{Query};
ghost use Rattle.lint_core.specs.declared.query.Question.{Question};
ghost use Rattle.lint_core.specs.declared.schema.Table.{Table};
ghost use Rattle.lint_core.specs.Asked.{is_asked};
ghost use Rattle.lint_core.specs.Meets.{meets};
ghost use Rattle.lint_core.specs.Question.{HoldsAlways, HoldsIn};
ghost use Rattle.answer_laws.specs.AlwaysMeans.{AlwaysMeans};
ghost use Rattle.answer_laws.specs.Answers.{HasAnswer};

use question_truths::outcomes_are_decided_where_earlier_questions_hold;

/// A question that is asked of a query, and holds in every database that meets the schema, means
/// of its answers, or of the bindings of its entries or of a subquery's, what `AlwaysMeans` says;
/// and where `AlwaysMeans` says so, the question holds in every such database in which the query
/// has an answer.
pub fn always_means()
    ensures means { (schema : List Table) (query : Query) (question : Question) (value : Value)
        → is_asked schema query question ≡ true
        → HoldsAlways schema query question value → AlwaysMeans schema query question value }
    ensures back { (schema : List Table) (query : Query) (question : Question) (value : Value)
        → is_asked schema query question ≡ true → AlwaysMeans schema query question value
        → (db : Data) → meets schema db ≡ true → HasAnswer db query
        → HoldsIn db query question value }
{
    outcomes_are_decided_where_earlier_questions_hold();
}
