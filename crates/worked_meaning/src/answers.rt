//! What the words of the pages ask. All but `axiom` and `meets`, which ask of the page's schema,
//! ask of its query.
//!
//! - `truth`, `meets`: the truth of the query's condition at a binding, and what the schema's
//!   first violation is;
//! - `asked`, `refutes`: the questions that are asked of the query, and whether points refute one;
//! - `counter`: the counter sentence of a question;
//! - `axiom`, `holds`, `fails`: an axiom of the schema, and the formulas of the query's condition;
//! - `negated`, `placed`, `sentence`: of the formula that holds, its negation, the same in another
//!   place, and how many nodes it has as a sentence.
use crate::{counters, formulas, meaning, questions};
use case_pages::{Answering, Page, said};
use lint_base::NoMemory;
use lint_core::{Query, Schema};
use std::alloc::Global;

/// Answers by what schemas and queries mean.
#[derive(Clone, Copy)]
pub(crate) struct Meaning;

/// What a word says of a query of a schema.
fn answer_of_query(
    alloc: Global,
    schema: &Schema,
    query: &Query,
    word: &str,
    text: &str,
) -> Result<String, NoMemory> {
    match word {
        "truth" => meaning::truth(alloc, schema, query, text),
        "asked" => questions::asked(alloc, schema, query),
        "refutes" => questions::outcome(alloc, schema, query, text),
        "counter" => counters::sentence(alloc, schema, query, text),
        "holds" => formulas::condition(alloc, schema, query, true),
        "fails" => formulas::condition(alloc, schema, query, false),
        "negated" => formulas::negated(alloc, schema, query),
        "placed" => formulas::placed(alloc, schema, query, text),
        "sentence" => formulas::sentence(alloc, schema, query, text),
        _ => said(alloc, "no such word"),
    }
}

impl Answering for Meaning {
    fn answer(
        &mut self,
        alloc: Global,
        page: &Page,
        word: &str,
        text: &str,
    ) -> Result<String, NoMemory> {
        let Some(schema) = &page.schema else {
            return said(alloc, "no schema");
        };
        match word {
            "meets" => meaning::violation(alloc, schema, text),
            "axiom" => formulas::axiom(alloc, schema, text),
            _ => match &page.query {
                Some(query) => answer_of_query(alloc, schema, query, word, text),
                None => said(alloc, "no query"),
            },
        }
    }
}
