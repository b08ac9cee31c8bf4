//! The three steps of reading, in their order.
ghost use Rattle.std.specs.Prelude.{◌≡◌, ◌≤◌, length, true, IfOk, IfErr};
ghost use Rattle.lint_core.specs.Fits.{query_fits};
ghost use Rattle.sql_lex.specs.Within.{IsWithin};
ghost use Rattle.sql_reading.specs.Stopping.{StopsSchema, StopsQuery};
ghost use Rattle.sql_reading.specs.TextReading.{ReadsSchema, ReadsQuery};

use lint_base::{Span, TextStop};
use lint_core::{Query, Schema};
use sql_bind::{bind_query, bind_schema};
use sql_lex::lex;
use sql_parse::{parse_query, parse_schema};
use std::alloc::Global;

/// The schema that a text of at most 1,048,576 bytes declares.
///
/// `Refused` with the first of: a lexical fault, too many open parentheses, tokens that are no
/// schema, and the first rule that fails in binding. `NoMemory` where memory ran out.
pub fn read_schema(alloc: Global, text: &[u8]) -> Result<Schema, TextStop>
    requires { length text.now ≤ 1048576 }
    ensures read { IfOk result (λ schema. ReadsSchema text.now schema) }
    ensures refused { IfErr result (λ stop. StopsSchema text.now stop) }
{
    let whole = Span {
        from: 0,
        to: text.len() as u32,
    };
    let tokens = lex(alloc, text, whole)?;
    let trees = parse_schema(alloc, tokens.as_slice())?;
    bind_schema(alloc, trees.as_slice())
}

/// The query that a piece of a text of at most 1,048,576 bytes is, bound against the schema, which
/// it fits. Nothing outside of the piece matters but where it begins: places are byte offsets in
/// the whole text.
///
/// `Refused` with the first of: a lexical fault, too many tokens, too many open parentheses,
/// tokens that are no query, and the first rule that fails in binding. `NoMemory` where memory ran
/// out.
pub fn read_query(
    alloc: Global,
    schema: &Schema,
    text: &[u8],
    piece: Span,
) -> Result<Query, TextStop>
    requires short { length text.now ≤ 1048576 }
    requires within { IsWithin (length text.now) piece }
    ensures read { IfOk result (λ query. ReadsQuery schema.now text.now piece query) }
    ensures fits { IfOk result (λ query. query_fits schema.now query ≡ true) }
    ensures refused { IfErr result (λ stop. StopsQuery schema.now text.now piece stop) }
{
    let tokens = lex(alloc, text, piece)?;
    let tree = parse_query(alloc, tokens.as_slice())?;
    bind_query(alloc, schema, &tree)
}
