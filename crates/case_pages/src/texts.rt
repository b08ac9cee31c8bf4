//! Schemas and queries from texts, and what is said where there is none.
use lint_base::{Fault, NoMemory, Refusal, Span, TextStop};
use lint_core::{Query, Schema};
use sql_reading::{read_query, read_schema};
use std::alloc::Global;

/// The most bytes that a text has.
pub const TEXT_LIMIT: usize = 1_048_576;

/// The refusal of a text that is empty or above the limit: it is no statement.
const NO_TEXT: TextStop = TextStop::Refused(Refusal {
    fault: Fault::Syntax,
    span: Span { from: 0, to: 0 },
    count: 0,
});

/// The schema of a text, or why there is none.
pub(crate) fn schema(alloc: Global, text: &str) -> Result<Schema, TextStop> {
    let bytes = text.as_bytes();
    if bytes.len() > TEXT_LIMIT {
        return Err(NO_TEXT);
    }
    read_schema(alloc, bytes)
}

/// The query of a text, or why there is none.
pub(crate) fn query(alloc: Global, schema: &Schema, text: &str) -> Result<Query, TextStop> {
    let bytes = text.as_bytes();
    if bytes.is_empty() || bytes.len() > TEXT_LIMIT {
        return Err(NO_TEXT);
    }
    let whole = Span {
        from: 0,
        to: bytes.len() as u32,
    };
    read_query(alloc, schema, bytes, whole)
}

/// These words. `NoMemory` where there is no memory for them.
pub fn said(alloc: Global, words: &str) -> Result<String, NoMemory> {
    Ok(String::from_str(alloc, words)?)
}

/// A refusal: its name and its place, and the count that is above a limit. `NoMemory` where that
/// is the stop, or where there is no memory for the text.
pub fn shown_stop(alloc: Global, stop: TextStop) -> Result<String, NoMemory> {
    let TextStop::Refused(Refusal { fault, span, count }) = stop else {
        return Err(NoMemory);
    };
    let Span { from, to } = span;
    if count == 0 {
        Ok(format!(in alloc; "{fault:?} at {from}..{to}")?)
    } else {
        Ok(format!(in alloc; "{fault:?} at {from}..{to}, {count}")?)
    }
}
