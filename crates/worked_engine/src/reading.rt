//! Schemas and queries from texts.
ghost use Rattle.std.specs.Prelude.{◌≡◌, true, IfSome};
ghost use Rattle.lint_core.specs.Fits.{query_fits};

use lint_base::Span;
use lint_core::{Query, Schema};
use sql_reading::{read_query, read_schema};
use std::alloc::Global;

/// The most bytes that a text has.
const TEXT_LIMIT: usize = 1_048_576;

pub(crate) fn schema(alloc: Global, text: &str) -> Option<Schema> {
    let bytes = text.as_bytes();
    if bytes.len() > TEXT_LIMIT {
        return None;
    }
    read_schema(alloc, bytes).ok()
}

pub(crate) fn query(alloc: Global, schema: &Schema, text: &str) -> Option<Query>
    ensures { IfSome result (λ query. query_fits schema.now query ≡ true) }
{
    let bytes = text.as_bytes();
    if bytes.is_empty() || bytes.len() > TEXT_LIMIT {
        return None;
    }
    let whole = Span {
        from: 0,
        to: bytes.len() as u32,
    };
    match read_query(alloc, schema, bytes, whole) {
        Ok(query) => Some(query),
        Err(_) => None,
    }
}
