//! Pages of cases. A line `WORD TEXT => ANSWER` asks what the word says of the text; a line
//! without `=>` is answered by `read`, and an answer that ends in `...` says how what comes
//! begins. Empty lines and lines that begin with `#` say nothing. In a text `\n` is the end of a
//! line, and `{3:ab}` is `ababab`.
//!
//! Two words are read here: from a line `schema` or `query` on the page speaks of this schema, or
//! of this query of it. What other words ask is told by the program that answers to them.
use crate::texts::{query, said, schema, shown_stop};
use lint_base::{NoMemory, TextStop};
use lint_core::{Query, Schema};
use std::alloc::Global;

/// What a page speaks of: the schema and the query that its lines named last, if they were read.
#[derive(Drop)]
pub struct Page {
    /// The schema.
    pub schema: Option<Schema>,
    /// The query, which is one of this schema.
    pub query: Option<Query>,
}

/// What answers to the words of a program's pages.
pub trait Answering {
    /// The text that the product gives where a line of the page asks this word of a text.
    /// `NoMemory` where there is no memory for it.
    fn answer(
        &mut self,
        alloc: Global,
        page: &Page,
        word: &str,
        text: &str,
    ) -> Result<String, NoMemory>;
}

/// How many lines of a page came as they say, and those that did not, with what came.
#[derive(Drop)]
pub(crate) struct Found {
    pub(crate) right: u32,
    pub(crate) wrong: String,
}

/// A text that was read, or why it was not.
fn shown_reading(alloc: Global, stop: Option<TextStop>) -> Result<String, NoMemory> {
    match stop {
        None => said(alloc, "read"),
        Some(stop) => shown_stop(alloc, stop),
    }
}

impl Page {
    fn read_schema(&mut self, alloc: Global, text: &str) -> Result<String, NoMemory> {
        self.schema = None;
        self.query = None;
        match schema(alloc, text) {
            Ok(schema) => {
                self.schema = Some(schema);
                shown_reading(alloc, None)
            }
            Err(stop) => shown_reading(alloc, Some(stop)),
        }
    }

    fn read_query(&mut self, alloc: Global, text: &str) -> Result<String, NoMemory> {
        self.query = None;
        let Some(schema) = &self.schema else {
            return said(alloc, "no schema");
        };
        match query(alloc, schema, text) {
            Ok(query) => {
                self.query = Some(query);
                shown_reading(alloc, None)
            }
            Err(stop) => shown_reading(alloc, Some(stop)),
        }
    }
}

/// A text in which `\n` and repetitions are written out.
fn written_out(alloc: Global, text: &str) -> Result<String, NoMemory> {
    let mut all = String::new(alloc);
    let broken = text.replace(alloc, "\\n", "\n")?;
    let mut rest = broken.as_str();
    for part in rest.split('}') {
        match part.split_once('{') {
            Some((before, repeated)) => {
                all.push_str(before)?;
                if let Some((times, again)) = repeated.split_once(':') {
                    for _ in 0..times.parse::<u32>().unwrap_or(0) {
                        all.push_str(again)?;
                    }
                }
            }
            None => all.push_str(part)?,
        }
    }
    Ok(all)
}

/// What comes of a line.
fn came<A: Answering>(
    alloc: Global,
    answering: &mut A,
    page: &mut Page,
    left: &str,
) -> Result<String, NoMemory> {
    let (word, text) = left.split_once(' ').unwrap_or((left, ""));
    let text = written_out(alloc, text)?;
    match word {
        "schema" => page.read_schema(alloc, text.as_str()),
        "query" => page.read_query(alloc, text.as_str()),
        _ => answering.answer(alloc, page, word, text.as_str()),
    }
}

/// Whether an answer is what a line says. A line that ends in `...` says how the answer begins.
fn is_as_said(came: &str, said: &str) -> bool {
    match said.strip_suffix("...") {
        Some(beginning) => came.starts_with(beginning),
        None => came == said,
    }
}

/// A line is judged.
fn judge<A: Answering>(
    alloc: Global,
    answering: &mut A,
    page: &mut Page,
    line: &str,
    found: &mut Found,
) -> Result<(), NoMemory> {
    let (left, expected) = line.split_once(" => ").unwrap_or((line, "read"));
    let came = came(alloc, answering, page, left)?;
    if is_as_said(came.as_str(), expected) {
        found.right = found.right.saturating_add(1);
    } else {
        let shown = format!(in alloc; "{line}\n  but {}\n", came.as_str())?;
        found.wrong.push_str(shown.as_str())?;
    }
    Ok(())
}

/// The lines of a page, each judged by what answers to its words.
pub(crate) fn judged<A: Answering>(
    alloc: Global,
    answering: &mut A,
    text: &str,
) -> Result<Found, NoMemory> {
    let mut page = Page {
        schema: None,
        query: None,
    };
    let mut found = Found {
        right: 0,
        wrong: String::new(alloc),
    };
    for line in text.lines() {
        if !line.is_empty() && !line.starts_with('#') {
            judge(alloc, answering, &mut page, line, &mut found)?;
        }
    }
    Ok(found)
}
