//! Questions with their places, and their answers, as `specs/Text.antt` says them.
ghost use Rattle.std.specs.Prelude.{◌≡◌, ◌++◌, OnOk, codes, string_bytes, option_map, slice_get};
ghost use Rattle.std.specs.Fmt.{decimal};
ghost use Rattle.lint_report.specs.QuestionPlaces.{item_place, entry_place, question_place};
ghost use Rattle.lint_report.specs.Text.{code_text, place_text, asked_text, answer_text, answers_text};
ghost use Rattle.lint_report.specs.inner.Listed.{places_of};

use crate::answers::push_answer;
use crate::listing::{Places, places_of};
use crate::pushing::{push_number, push_text};
use crate::refusals::push_span;
use lint_base::{NoMemory, Span};
use lint_core::{Answer, Query, Question, Schema};
use std::alloc::{AllocError, Global};

fn item_place(query: &Query, item: u32) -> Option<Span>
    ensures { result ≡ item_place query.now item }
{
    match query.items.as_slice().get(item as usize) {
        Some(found) => Some(found.span),
        None => None,
    }
}

fn entry_place(query: &Query, entry: u32) -> Option<Span>
    ensures { result ≡ entry_place query.now entry }
{
    match query.block.entries.as_slice().get(entry as usize) {
        Some(found) => Some(found.span),
        None => None,
    }
}

fn listed_place(spans: &[Span], number: u32) -> Option<Span>
    ensures { result ≡ slice_get spans.now number }
{
    match spans.get(number as usize) {
        Some(span) => Some(*span),
        None => None,
    }
}

fn question_place(query: &Query, places: &Places, question: Question) -> Option<Span>
    requires { places.now ≡ places_of query.now }
    ensures { result ≡ question_place query.now question }
{
    match question {
        Question::OneRow { sub } => listed_place(places.scalars.as_slice(), sub),
        Question::Empty => Some(query.block.span),
        Question::NeedlessDistinct => query.distinct,
        Question::Constant { item } => item_place(query, item),
        Question::Duplicate { other, .. } => item_place(query, other),
        Question::NeedlessJoin { entry } => entry_place(query, entry),
        Question::Implied { predicate } | Question::Impossible { predicate } => {
            listed_place(places.predicates.as_slice(), predicate)
        }
        Question::SameRow { other, .. } => entry_place(query, other),
        Question::NullInNotIn { sub } => listed_place(places.not_ins.as_slice(), sub),
    }
}

#[tactic(auto, unfolding(crate::specs::Text::code_text))]
fn push_code(out: &mut String, question: Question) -> Result<(), AllocError>
    ensures { OnOk result (string_bytes out.new ≡ string_bytes out.old ++ code_text question) }
{
    match question {
        Question::OneRow { .. } => push_text(out, "E9"),
        Question::Empty => push_text(out, "E1"),
        Question::NeedlessDistinct => push_text(out, "E2"),
        Question::Constant { .. } => push_text(out, "E3"),
        Question::Duplicate { .. } => push_text(out, "E4"),
        Question::NeedlessJoin { .. } => push_text(out, "E5"),
        Question::Implied { .. } => push_text(out, "E6"),
        Question::Impossible { .. } => push_text(out, "E7"),
        Question::SameRow { .. } => push_text(out, "E8"),
        Question::NullInNotIn { .. } => push_text(out, "E10"),
    }
}

fn push_question_place(out: &mut String, place: Option<Span>) -> Result<(), AllocError>
    ensures { OnOk result (string_bytes out.new ≡ string_bytes out.old ++ place_text place) }
{
    match place {
        Some(span) => push_span(out, span),
        None => Ok(()),
    }
}

#[tactic(auto, unfolding(crate::specs::Text::asked_text))]
fn push_asked(
    out: &mut String,
    query: &Query,
    places: &Places,
    number: u64,
    question: Question,
) -> Result<(), AllocError>
    requires { places.now ≡ places_of query.now }
    ensures { OnOk result
        (string_bytes out.new ≡ string_bytes out.old ++ asked_text query.now number question) }
{
    push_text(out, "  ")?;
    push_number(out, number)?;
    push_text(out, " ")?;
    push_code(out, question)?;
    push_text(out, " at ")?;
    push_question_place(out, question_place(query, places, question))?;
    push_text(out, ": ")
}

fn push_each_answered(
    alloc: Global,
    out: &mut String,
    schema: &Schema,
    query: &Query,
    places: &Places,
    questions: &[Question],
    answers: &[Answer],
) -> Result<(), NoMemory>
    requires { places.now ≡ places_of query.now }
    ensures { OnOk result
        (string_bytes out.new ≡ string_bytes out.old
        ++ answers_text schema.now query.now 1 questions.now answers.now) }
{
    let mut number = 1;
    let mut questions = questions;
    let mut answers = answers;
    while let (Some((question, more_questions)), Some((answer, more_answers))) = (
        questions.split_first(),
        answers.split_first(),
    ) {
        push_asked(out, query, places, number, *question)?;
        push_answer(alloc, out, schema, *question, answer)?;
        number += 1;
        questions = more_questions;
        answers = more_answers;
    }
    Ok(())
}

/// Adds the questions with their answers, numbered from 1.
pub(crate) fn push_answers(
    alloc: Global,
    out: &mut String,
    schema: &Schema,
    query: &Query,
    questions: &[Question],
    answers: &[Answer],
) -> Result<(), NoMemory>
    ensures { OnOk result
        (string_bytes out.new ≡ string_bytes out.old
        ++ answers_text schema.now query.now 1 questions.now answers.now) }
{
    let places = places_of(alloc, query)?;
    push_each_answered(alloc, out, schema, query, &places, questions, answers)
}
