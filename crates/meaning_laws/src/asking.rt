//! The law of the list of questions. The function does nothing: its contract is a law about the
//! definitions in `lint_core`.
ghost use Rattle.std.specs.Prelude.{◌≡◌, true, List, Contains};
ghost use Rattle.lint_core.specs.declared.query.Query.{Query};
ghost use Rattle.lint_core.specs.declared.query.Question.{Question};
ghost use Rattle.lint_core.specs.declared.schema.Table.{Table};
ghost use Rattle.lint_core.specs.Asked.{is_asked, questions};

/// The list of a query's questions has exactly those that are asked of it.
pub fn asked_questions_are_listed()
    ensures listed { (schema : List Table) (query : Query) (question : Question)
        → is_asked schema query question ≡ true → Contains (questions schema query) question }
    ensures asked { (schema : List Table) (query : Query) (question : Question)
        → Contains (questions schema query) question → is_asked schema query question ≡ true }
{}
