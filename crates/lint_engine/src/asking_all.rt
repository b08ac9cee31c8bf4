//! All questions of a query.
ghost use Rattle.std.specs.Prelude.{◌≡◌, ◌+◌, ◌∷◌, false, true, None, length, IfOk};
ghost use Rattle.lint_core.specs.declared.query.Question.TheVariants.{Constant};
ghost use Rattle.lint_core.specs.Fits.{query_fits};
ghost use Rattle.lint_engine.specs.AskingAll.{AreRightAnswers, IsConstantAnswer, IsNext, IsOwnAnswer};
ghost use Rattle.lint_engine.specs.Earlier.{answered, blocker, empty_counter, given_for, is_constant, is_moot, value_at};
ghost use Rattle.lint_engine.specs.inner.Plain.{are_plain};
ghost use Rattle.lint_engine.specs.inner.Turns.{IsTurn};

use crate::asking::ask;
use crate::earlier::{blocker, empty_counter, is_moot};
use crate::values::value_of_item;
use error_reductions::questions;
use lint_base::{Items, NoMemory};
use lint_core::{Answer, Counter, Points, Query, Question, Schema, Value};
use std::alloc::Global;

/// A query with its number in its file, from 1, and how many cases are tried.
#[derive(Clone, Copy)]
struct Task<'a> {
    schema: &'a Schema,
    query: &'a Query,
    number: u32,
    budget: u64,
}

/// The same database and points.
fn copied(alloc: Global, counter: &Counter) -> Result<Counter, NoMemory>
    ensures { IfOk result (λ copy. copy ≡ counter.now) }
{
    Ok(Counter {
        database: counter.database.copy(alloc)?,
        points: counter.points.copy(alloc)?,
    })
}

/// The list with this database before the others.
fn with_first(
    alloc: Global,
    first: &Counter,
    others: Items<Counter>,
) -> Result<Items<Counter>, NoMemory>
    ensures { IfOk result (λ all. all ≡ first.now ∷ others) }
{
    let mut all = Vec::new(alloc);
    all.push(copied(alloc, first)?)?;
    all.append(&mut others.into_vec())?;
    Ok(Items::from_vec(all))
}

/// The value of an item at the points of E1.
fn value_there(
    alloc: Global,
    query: &Query,
    item: u32,
    counter: &Counter,
) -> Result<Value, NoMemory>
    requires { are_plain query.now ≡ true }
    ensures { IfOk result (λ value. value
        ≡ value_at counter.now.database query.now item counter.now.points) }
{
    match &counter.points {
        Points::One(binding) => value_of_item(alloc, &counter.database, query, binding, item),
        Points::Two(..) | Points::Without(_) => Ok(Value::Null),
    }
}

/// The answer to a constant column that is neither blocked nor moot.
fn constant(
    alloc: Global,
    task: &Task,
    item: u32,
    asked: &[Question],
    answers: &[Answer],
) -> Result<Answer, NoMemory>
    requires fits { query_fits task.now.schema.now task.now.query.now ≡ true }
    requires turn { IsTurn task.now.schema.now task.now.query.now task.now.number
        task.now.budget asked.now answers.now (Constant item) }
    requires unblocked { blocker (answered 1 asked.now answers.now) (Constant item) ≡ None }
    requires worth { is_moot (answered 1 asked.now answers.now) (Constant item) ≡ false }
    ensures { IfOk result (IsConstantAnswer task.now.schema.now task.now.query.now (Constant item)
        (given_for task.now.query.now (answered 1 asked.now answers.now) (Constant item))
        (empty_counter (answered 1 asked.now answers.now))
        (record { query = task.now.number; question = 1 + length asked.now }) task.now.budget) }
{
    let Some(first) = empty_counter(asked, answers) else {
        unreachable!()
    };
    let given = value_there(alloc, task.query, item, first)?;
    let numbers = (task.number, asked.len() as u32 + 1);
    let question = Question::Constant { item };
    let answer = ask(
        alloc,
        task.schema,
        task.query,
        numbers,
        &question,
        &given,
        task.budget,
    )?;
    if let Answer::NotAlways(counters) = answer {
        return Ok(Answer::NotAlways(with_first(alloc, first, counters)?));
    }
    Ok(answer)
}

/// The answer to another question that is neither blocked nor moot.
fn other(
    alloc: Global,
    task: &Task,
    question: &Question,
    asked: &[Question],
    answers: &[Answer],
) -> Result<Answer, NoMemory>
    requires fits { query_fits task.now.schema.now task.now.query.now ≡ true }
    requires turn { IsTurn task.now.schema.now task.now.query.now task.now.number
        task.now.budget asked.now answers.now question.now }
    requires unblocked { blocker (answered 1 asked.now answers.now) question.now ≡ None }
    requires other { is_constant question.now ≡ false }
    ensures { IfOk result (IsOwnAnswer task.now.schema.now task.now.query.now question.now
        (given_for task.now.query.now (answered 1 asked.now answers.now) question.now)
        (record { query = task.now.number; question = 1 + length asked.now }) task.now.budget) }
{
    let numbers = (task.number, asked.len() as u32 + 1);
    let answer = ask(
        alloc,
        task.schema,
        task.query,
        numbers,
        question,
        &Value::Null,
        task.budget,
    )?;
    Ok(answer)
}

/// The answer to the next question, behind those of the questions before it.
fn next_answer(
    alloc: Global,
    task: &Task,
    question: &Question,
    asked: &[Question],
    answers: &[Answer],
) -> Result<Answer, NoMemory>
    requires fits { query_fits task.now.schema.now task.now.query.now ≡ true }
    requires turn { IsTurn task.now.schema.now task.now.query.now task.now.number
        task.now.budget asked.now answers.now question.now }
    ensures { IfOk result (λ answer. IsNext task.now.schema.now task.now.query.now
        task.now.number task.now.budget (answered 1 asked.now answers.now)
        (record { number = 1 + length asked.now; question = question.now; answer = answer })) }
{
    if let Some(by) = blocker(question, asked, answers) {
        return Ok(Answer::Blocked { by });
    }
    if is_moot(question, asked, answers) {
        return Ok(Answer::Moot);
    }
    match *question {
        Question::Constant { item } => constant(alloc, task, item, asked, answers),
        _ => other(alloc, task, question, asked, answers),
    }
}

/// Judges all questions of a query: one answer for each, in order. `number` is the query's number
/// in its file, from 1. `NoMemory` where memory runs out.
pub fn ask_all(
    alloc: Global,
    schema: &Schema,
    query: &Query,
    number: u32,
    budget: u64,
) -> Result<Items<Answer>, NoMemory>
    requires { query_fits schema.now query.now ≡ true }
    ensures { IfOk result (AreRightAnswers schema.now query.now number budget) }
{
    let task = Task {
        schema,
        query,
        number,
        budget,
    };
    let questions = questions(alloc, schema, query)?;
    let asked = questions.as_slice();
    let mut answers = Items::new(alloc);
    for place in 0..asked.len() {
        if place >= u32::MAX as usize {
            return Err(NoMemory);
        }
        let earlier = &asked[..place];
        let answer = next_answer(alloc, &task, &asked[place], earlier, answers.as_slice())?;
        answers.push(answer)?;
    }
    Ok(answers)
}
