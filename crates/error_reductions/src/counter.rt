//! The counter sentence of each question.
ghost use Rattle.std.specs.Prelude.{◌≡◌, ◌↔◌, [], true, false, IfOk};
ghost use Rattle.lint_core.specs.declared.database.Database.{Database};
ghost use Rattle.lint_core.specs.declared.database.Points.{Points as SomePoints};
ghost use Rattle.lint_core.specs.Asked.{is_asked};
ghost use Rattle.lint_core.specs.Fits.{query_fits};
ghost use Rattle.lint_core.specs.Meets.{is_of_domains};
ghost use Rattle.lint_core.specs.Question.{EarlierHold, HoldsIn, refutes};
ghost use Rattle.sort_formula.specs.Counters.{counter_sentence};
ghost use Rattle.sort_formula.specs.Holds.{holds};
ghost use Rattle.sort_formula.specs.Loose.{refutes_loosely};
ghost use Rattle.sort_formula.specs.Sentences.{formula_fits};

use crate::distinct::twice_one_row;
use crate::joins::no_row_or_two;
use crate::replaced::{differs_with_false, differs_with_true};
use crate::selected::{item_differs, items_differ, rows_differ, some_row};
use crate::subqueries::{selects_null, two_rows};
use counter_forms::{
    asked_sentences_are_sentences, asked_sentences_fit, condition_has_small_numbers, value_is_small,
};
use counter_laws::{sentence_decides_the_question, sentence_says_that_points_refute};
use lint_base::NoMemory;
use lint_core::{Query, Question, Schema, Value};
use sort_formula::{Formula, Sentence};
use std::alloc::Global;

/// The formula of the counter sentence of a question, for E3 with this value.
fn counter_formula(
    alloc: Global,
    schema: &Schema,
    query: &Query,
    question: &Question,
    given: &Value,
) -> Result<Formula, NoMemory>
    requires fits { query_fits schema.now query.now ≡ true }
    requires asked { is_asked schema.now query.now question.now ≡ true }
    ensures { IfOk result (λ formula. formula
        ≡ counter_sentence schema.now query.now question.now given.now) }
{
    match *question {
        Question::OneRow { sub } => two_rows(alloc, schema, query, sub),
        Question::Empty => some_row(alloc, schema, query),
        Question::NeedlessDistinct => twice_one_row(alloc, schema, query),
        Question::Constant { item } => item_differs(alloc, schema, query, item, given),
        Question::Duplicate { item, other } => items_differ(alloc, schema, query, item, other),
        Question::NeedlessJoin { entry } => no_row_or_two(alloc, schema, query, entry),
        Question::Implied { predicate } => differs_with_true(alloc, schema, query, predicate),
        Question::Impossible { predicate } => differs_with_false(alloc, schema, query, predicate),
        Question::SameRow { entry, other } => rows_differ(alloc, schema, query, entry, other),
        Question::NullInNotIn { sub } => selects_null(alloc, schema, query, sub),
    }
}

/// The formula as a sentence.
fn sentence_made(
    alloc: Global,
    schema: &Schema,
    query: &Query,
    question: &Question,
    given: &Value,
) -> Result<Sentence, NoMemory>
    requires fits { query_fits schema.now query.now ≡ true }
    requires asked { is_asked schema.now query.now question.now ≡ true }
    ensures { IfOk result (λ sentence. sentence
        ≡ counter_sentence schema.now query.now question.now given.now) }
{
    asked_sentences_are_sentences();
    condition_has_small_numbers(&query.block.cond);
    value_is_small(given);
    let formula = counter_formula(alloc, schema, query, question, given)?;
    match Sentence::new(formula) {
        Some(sentence) => Ok(sentence),
        None => unreachable!(),
    }
}

/// The counter sentence of a question that is asked of a query, for E3 with this value. `NoMemory`
/// where there is no memory for it.
///
/// It is that of the definition (`sentence`) and fits the schema (`fits`). In a database of the
/// domains it holds exactly where some points refute the question loosely (`refutes`); where the
/// scalar subqueries asked of before give at most one row, exactly where some points refute it
/// (`decides`), and the question holds exactly where it does not (`question`).
pub fn counter_sentence(
    alloc: Global,
    schema: &Schema,
    query: &Query,
    question: &Question,
    given: &Value,
) -> Result<Sentence, NoMemory>
    requires fits { query_fits schema.now query.now ≡ true }
    requires asked { is_asked schema.now query.now question.now ≡ true }
    ensures sentence { IfOk result (λ sentence. sentence
        ≡ counter_sentence schema.now query.now question.now given.now) }
    ensures fits { IfOk result (λ sentence. formula_fits schema.now sentence [] ≡ true) }
    ensures refutes { IfOk result (λ sentence. (db : Database)
        → is_of_domains schema.now db ≡ true
        → (holds db sentence [] ≡ true) ↔ ((points : SomePoints)
        × (refutes_loosely schema.now db query.now question.now given.now points ≡ true))) }
    ensures decides { IfOk result (λ sentence. (db : Database)
        → is_of_domains schema.now db ≡ true → EarlierHold db query.now question.now
        → (holds db sentence [] ≡ true) ↔ ((points : SomePoints)
        × (refutes db query.now question.now given.now points ≡ true))) }
    ensures question { IfOk result (λ sentence. (db : Database)
        → is_of_domains schema.now db ≡ true → EarlierHold db query.now question.now
        → HoldsIn db query.now question.now given.now ↔ (holds db sentence [] ≡ false)) }
{
    asked_sentences_fit();
    sentence_says_that_points_refute();
    sentence_decides_the_question();
    sentence_made(alloc, schema, query, question, given)
}
