//! No two trees have the same tokens. The functions do nothing: each contract is a law.
ghost use Rattle.std.specs.Prelude.{◌≡◌, List};
ghost use Rattle.lint_base.specs.declared.place.Span.{Span};
ghost use Rattle.sql_lex.specs.declared.token.Token.{Token};
ghost use Rattle.sql_tree.specs.declared.term.TermTree.{TermTree};
ghost use Rattle.sql_tree.specs.declared.schema.CreateTable.{CreateTable};
ghost use Rattle.sql_tree.specs.declared.select.CondTree.{CondTree};
ghost use Rattle.sql_tree.specs.declared.select.SelectTree.{SelectTree};
ghost use Rattle.sql_tree.specs.declared.select.QueryTree.{QueryTree};
ghost use Rattle.sql_parse.specs.grammar.Terms.{SpellsTerm};
ghost use Rattle.sql_parse.specs.grammar.Predicates.{SpellsPredicate};
ghost use Rattle.sql_parse.specs.grammar.Selects.{Disjunction, SpellsCond, SpellsSelect};
ghost use Rattle.sql_parse.specs.grammar.Queries.{SpellsQuery};
ghost use Rattle.sql_parse.specs.grammar.Tables.{SpellsCreate};
ghost use Rattle.sql_parse.specs.grammar.Schemas.{SpellsSchema};

/// A list of tokens is spelled by at most one term.
pub fn one_term()
    ensures { (tokens : List Token) → (left right : TermTree) → SpellsTerm left tokens →
        SpellsTerm right tokens → left ≡ right }
{}

/// A list of tokens is spelled by at most one predicate without a subquery.
pub fn one_predicate()
    ensures { (tokens : List Token) → (left right : CondTree) → SpellsPredicate left tokens →
        SpellsPredicate right tokens → left ≡ right }
{}

/// A list of tokens is spelled by at most one condition.
pub fn one_condition()
    ensures { (tokens : List Token) → (left right : CondTree) →
        SpellsCond Disjunction left tokens → SpellsCond Disjunction right tokens → left ≡ right }
{}

/// A list of tokens is spelled by at most one query, and at a place by at most one SELECT.
pub fn one_query()
    ensures select { (span : Span) (tokens : List Token) (left right : SelectTree) →
        SpellsSelect span left tokens → SpellsSelect span right tokens → left ≡ right }
    ensures query { (tokens : List Token) → (left right : QueryTree) → SpellsQuery left tokens →
        SpellsQuery right tokens → left ≡ right }
{}

/// A list of tokens is spelled by at most one declaration of a table, and by at most one list of
/// them.
pub fn one_schema()
    ensures table { (tokens : List Token) → (left right : CreateTable) →
        SpellsCreate left tokens → SpellsCreate right tokens → left ≡ right }
    ensures schema { (tokens : List Token) → (left right : List CreateTable) →
        SpellsSchema left tokens → SpellsSchema right tokens → left ≡ right }
{}
