//! The counter sentences of questions.
use crate::notation::shown;
use case_pages::{question, said, value};
use error_reductions::counter_sentence;
use lint_base::NoMemory;
use lint_core::{Query, Schema};
use std::alloc::Global;

/// The counter sentence of a question of the query. The text is `QUESTION`, or `QUESTION given
/// VALUE`; the value is NULL where none is given.
pub(crate) fn sentence(
    alloc: Global,
    schema: &Schema,
    query: &Query,
    text: &str,
) -> Result<String, NoMemory> {
    let (name, given) = text.split_once(" given ").unwrap_or((text, "NULL"));
    let Some(question) = question(alloc, name)? else {
        return said(alloc, "no question");
    };
    if !query.fits(schema) || !question.fits(schema, query) {
        return said(alloc, "not asked");
    }
    let given = value(alloc, given)?;
    let sentence = counter_sentence(alloc, schema, query, &question, &given)?;
    shown(alloc, sentence.formula())
}
