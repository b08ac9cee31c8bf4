//! Which questions are asked of a query, and what refutes them. As in `meaning`, copies are judged.
ghost use Rattle.std.specs.Prelude.{◌≡◌, true};
ghost use Rattle.lint_core.specs.Fits.{query_fits};

use crate::bindings::points;
use crate::meaning::{database_copy, shown_stop};
use case_pages::{named, push_question, question, said, value};
use error_reductions::questions;
use lint_base::NoMemory;
use lint_core::{Points, Query, Question, Schema};
use sql_meaning::{TruthStop, fails_at};
use std::alloc::Global;

// ---- what is asked

/// The codes of the questions in their order.
const CODES: [&str; 10] = ["E9", "E1", "E2", "E3", "E4", "E5", "E6", "E7", "E8", "E10"];

/// The numbers that questions are asked with end before this one.
const NUMBERS: u32 = 16;

/// Adds the name of a question, where there is one and it fits the query.
fn push_fitting(
    out: &mut String,
    schema: &Schema,
    query: &Query,
    code: &str,
    numbers: &[u32],
) -> Result<(), NoMemory> {
    let Some(question) = named(code, numbers) else {
        return Ok(());
    };
    if question.fits(schema, query) {
        push_question(out, &question)?;
    }
    Ok(())
}

/// The questions that fit the query, each tried by itself.
fn fitting(alloc: Global, schema: &Schema, query: &Query) -> Result<String, NoMemory> {
    let mut out = String::new(alloc);
    for code in CODES {
        push_fitting(&mut out, schema, query, code, &[])?;
        for one in 0..NUMBERS {
            push_fitting(&mut out, schema, query, code, &[one])?;
            for other in 0..NUMBERS {
                push_fitting(&mut out, schema, query, code, &[one, other])?;
            }
        }
    }
    Ok(out)
}

/// The list of the questions of a query that fits.
fn listed(alloc: Global, schema: &Schema, query: &Query) -> Result<String, NoMemory>
    requires { query_fits schema.now query.now ≡ true }
{
    let mut out = String::new(alloc);
    for question in questions(alloc, schema, query)?.as_slice() {
        push_question(&mut out, question)?;
    }
    Ok(out)
}

/// The list of the questions that are asked of the query. Those that fit it, each tried by itself,
/// are the same; where they are not, they are said too.
pub(crate) fn asked(alloc: Global, schema: &Schema, query: &Query) -> Result<String, NoMemory> {
    let query = query.copy(alloc)?;
    if !query.fits(schema) {
        return said(alloc, "a query of another schema");
    }
    let listed = listed(alloc, schema, &query)?;
    let fitting = fitting(alloc, schema, &query)?;
    if listed.as_str() == fitting.as_str() {
        return Ok(listed);
    }
    Ok(format!(in alloc;
        "{}, but those that fit are {}",
        listed.as_str(),
        fitting.as_str()
    )?)
}

// ---- what refutes a question

/// A question with the texts of the value of a constant column, of rows and of points.
#[derive(Clone, Copy)]
struct Asking<'a> {
    question: Question,
    given: &'a str,
    rows: &'a str,
    at: &'a str,
}

/// What a text asks, if it has the form `QUESTION: ROWS at POINTS`, or `QUESTION given VALUE: ROWS
/// at POINTS`. The value is NULL where none is given.
fn asking_of<'a>(alloc: Global, text: &'a str) -> Result<Option<Asking<'a>>, NoMemory> {
    let (asked, rest) = text.split_once(": ").unwrap_or((text, ""));
    let Some((rows, at)) = rest.split_once(" at ") else {
        return Ok(None);
    };
    let (name, given) = asked.split_once(" given ").unwrap_or((asked, "NULL"));
    let Some(question) = question(alloc, name)? else {
        return Ok(None);
    };
    Ok(Some(Asking {
        question,
        given,
        rows,
        at,
    }))
}

/// A copy of the points of a text.
fn points_copy(alloc: Global, at: &str) -> Result<Points, NoMemory> {
    let given = points(alloc, at)?;
    given.copy(alloc)
}

impl Asking<'_> {
    /// Whether the points refute the question of the query.
    fn is_refuted(&self, alloc: Global, schema: &Schema, query: &Query) -> Result<bool, TruthStop> {
        let database = database_copy(alloc, self.rows)?;
        let given = value(alloc, self.given)?;
        let points = points_copy(alloc, self.at)?;
        let question = self.question;
        fails_at(alloc, schema, &database, query, &question, &given, &points)
    }
}

/// Whether points refute a question of the query.
pub(crate) fn outcome(
    alloc: Global,
    schema: &Schema,
    query: &Query,
    text: &str,
) -> Result<String, NoMemory> {
    let Some(asking) = asking_of(alloc, text)? else {
        return said(alloc, "no question at points");
    };
    let query = query.copy(alloc)?;
    match asking.is_refuted(alloc, schema, &query) {
        Ok(true) => said(alloc, "yes"),
        Ok(false) => said(alloc, "no"),
        Err(stop) => shown_stop(alloc, stop),
    }
}
