//! What the words of the pages ask.
//!
//! - `tokens`, `pieces`: the tokens of a text, and the pieces of a query file;
//! - `query_tree`, `schema_tree`: the tree of a text;
//! - `tables`, `bound`: the bound form of the page's schema, and of its query.
use crate::{bound, lexing, trees};
use case_pages::{Answering, Page, said};
use lint_base::NoMemory;
use std::alloc::Global;

/// Answers by reading texts.
#[derive(Clone, Copy)]
pub(crate) struct Reading;

/// The bound form of the page's schema.
fn bound_schema(alloc: Global, page: &Page) -> Result<String, NoMemory> {
    match &page.schema {
        Some(schema) => bound::tables(alloc, schema),
        None => said(alloc, "no schema"),
    }
}

/// The bound form of the page's query.
fn bound_query(alloc: Global, page: &Page) -> Result<String, NoMemory> {
    match &page.query {
        Some(query) => bound::query(alloc, query),
        None => said(alloc, "no query"),
    }
}

impl Answering for Reading {
    fn answer(
        &mut self,
        alloc: Global,
        page: &Page,
        word: &str,
        text: &str,
    ) -> Result<String, NoMemory> {
        match word {
            "tokens" => lexing::tokens(alloc, text),
            "pieces" => lexing::pieces(alloc, text),
            "query_tree" => trees::query(alloc, text),
            "schema_tree" => trees::schema(alloc, text),
            "tables" => bound_schema(alloc, page),
            "bound" => bound_query(alloc, page),
            _ => said(alloc, "no such word"),
        }
    }
}
