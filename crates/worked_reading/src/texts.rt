//! The trees of texts.
ghost use Rattle.std.specs.Prelude.{◌<◌, ◌^◌, length, IfOk};

use case_pages::TEXT_LIMIT;
use lint_base::{Span, TextStop};
use sql_lex::{Token, lex};
use sql_parse::{parse_query, parse_schema};
use sql_tree::{CreateTable, QueryTree};
use std::alloc::Global;

/// The tokens of a text. A text above the limit has none.
fn tokens(alloc: Global, text: &str) -> Result<Vec<Token>, TextStop>
    ensures { IfOk result (λ tokens. length tokens.items < 2 ^ 32) }
{
    let bytes = text.as_bytes();
    if bytes.len() > TEXT_LIMIT {
        return Ok(Vec::new(alloc));
    }
    let whole = Span {
        from: 0,
        to: bytes.len() as u32,
    };
    lex(alloc, bytes, whole)
}

pub(crate) fn query_tree(alloc: Global, text: &str) -> Result<QueryTree, TextStop> {
    let tokens = tokens(alloc, text)?;
    parse_query(alloc, tokens.as_slice())
}

pub(crate) fn schema_trees(alloc: Global, text: &str) -> Result<Vec<CreateTable>, TextStop> {
    let tokens = tokens(alloc, text)?;
    parse_schema(alloc, tokens.as_slice())
}
