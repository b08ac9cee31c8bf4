//! The problem of a question, or why there is none.
ghost use Rattle.std.specs.Prelude.{◌≡◌, ◌<◌, ◌^◌, [], true, suc, length, All, IfOk};
ghost use Rattle.std.specs.List.{list_all};
ghost use Rattle.sort_formula.specs.Nodes.{nodes};
ghost use Rattle.sort_formula.specs.Sentences.{formula_fits};

use case_pages::{question, value};
use constraint_axioms::axioms;
use error_reductions::counter_sentence;
use instantiate::{GroundStop, Problem, ground};
use lint_base::{Items, NoMemory};
use lint_core::{Query, Question, Schema, Value};
use sort_formula::Sentence;
use sorted_skolem::{RowsStop, SortStop, rows_of, sort_order};
use std::alloc::{AllocError, Global};

/// Why no problem is made.
#[derive(Drop)]
pub(crate) enum Stop {
    /// The text names no question.
    NoQuestion,
    /// The question is not asked of the query.
    NotAsked,
    /// The tables of whose rows the sentences ask go round.
    Cycle { tables: Items<u32> },
    /// More row terms than the limit.
    ManyRows { count: u64 },
    /// More nodes than the limit.
    ManyNodes { count: u64 },
    NoMemory,
}

impl From<NoMemory> for Stop {
    fn from(_error: NoMemory) -> Stop {
        Stop::NoMemory
    }
}

impl From<AllocError> for Stop {
    fn from(_error: AllocError) -> Stop {
        Stop::NoMemory
    }
}

impl From<SortStop> for Stop {
    fn from(stop: SortStop) -> Stop {
        match stop {
            SortStop::Cycle { tables } => Stop::Cycle { tables },
            SortStop::NoMemory => Stop::NoMemory,
        }
    }
}

impl From<RowsStop> for Stop {
    fn from(stop: RowsStop) -> Stop {
        match stop {
            RowsStop::ManyRows { count } => Stop::ManyRows { count },
            RowsStop::NoMemory => Stop::NoMemory,
        }
    }
}

impl From<GroundStop> for Stop {
    fn from(stop: GroundStop) -> Stop {
        match stop {
            GroundStop::ManyNodes { count } => Stop::ManyNodes { count },
            GroundStop::NoMemory => Stop::NoMemory,
        }
    }
}

/// The counter sentence of a question, and the axioms of the schema.
fn sentences(
    alloc: Global,
    schema: &Schema,
    query: &Query,
    question: &Question,
    given: &Value,
) -> Result<Items<Sentence>, Stop> {
    if !query.fits(schema) || !question.fits(schema, query) {
        return Err(Stop::NotAsked);
    }
    let mut sentences = Items::new(alloc);
    sentences.push(counter_sentence(alloc, schema, query, question, given)?)?;
    for axiom in axioms(alloc, schema)? {
        sentences.push(axiom.sentence)?;
    }
    Ok(sentences)
}

fn all_fit(schema: &Schema, sentences: &[Sentence]) -> bool
    ensures { result ≡ list_all (λ s. formula_fits schema.now s []) sentences.now }
{
    sentences.iter().all(|s| s.fits(schema))
}

/// Whether each sentence has fewer than 2^32 nodes.
fn have_few_nodes(sentences: &[Sentence]) -> bool
    ensures { result ≡ true → All (λ s. nodes s < 2 ^ 32) sentences.now }
{
    for sentence in sentences {
        if sentence.nodes() >= 1 << 32 {
            return false;
        }
    }
    true
}

/// A number for each of so many sentences, and one behind them; which they are is not looked at.
fn numbers(alloc: Global, count: usize) -> Result<Items<u32>, NoMemory>
    ensures { IfOk result (λ numbers. length numbers ≡ suc count) }
{
    let mut numbers = Items::new(alloc);
    for _ in 0..count {
        numbers.push(0)?;
    }
    numbers.push(0)?;
    Ok(numbers)
}

/// The order, the row terms and the ground list of sentences.
fn grounded(alloc: Global, schema: &Schema, sentences: Items<Sentence>) -> Result<Problem, Stop>
    requires { list_all (λ s. formula_fits schema.now s []) sentences ≡ true }
{
    let order = sort_order(alloc, sentences.as_slice())?;
    if !have_few_nodes(sentences.as_slice()) {
        return Err(Stop::ManyNodes { count: u64::MAX });
    }
    let rows = rows_of(alloc, &order, sentences.as_slice())?;
    let numbers = numbers(alloc, sentences.as_slice().len())?;
    Ok(ground(alloc, schema, order, rows, sentences, numbers)?)
}

/// The problem of the question of a text, which is `QUESTION` or `QUESTION given VALUE`; the value
/// is NULL where none is given.
pub(crate) fn problem(
    alloc: Global,
    schema: &Schema,
    query: &Query,
    text: &str,
) -> Result<Problem, Stop> {
    let (name, given) = text.split_once(" given ").unwrap_or((text, "NULL"));
    let Some(question) = question(alloc, name)? else {
        return Err(Stop::NoQuestion);
    };
    let given = value(alloc, given)?;
    let sentences = sentences(alloc, schema, query, &question, &given)?;
    if !all_fit(schema, sentences.as_slice()) {
        return Err(Stop::NotAsked);
    }
    grounded(alloc, schema, sentences)
}
