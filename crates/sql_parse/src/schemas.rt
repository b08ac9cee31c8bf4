//! The reader of schemas.
ghost use Rattle.std.specs.Prelude.{◌<◌, ◌^◌, length, IfOk, IfErr};
ghost use Rattle.sql_parse.specs.Refusals.{IsSchema, IsRefusedSchema};
ghost use Rattle.sql_parse.specs.inner.readers.Gives.{Gives};
ghost use Rattle.sql_parse.specs.inner.readers.Leaves.{GivesAlone, GivesWhole};
ghost use Rattle.sql_parse.specs.inner.readers.Schemas.{read_statement, read_schema, schema_of};

use crate::front::{Mark, ParseStop, at, next};
use crate::refusals::{deep_at, syntax_at, too_deep};
use crate::reserved::CREATE;
use crate::tables::{add_optional, create};
use lint_base::{Items, TextStop};
use sql_lex::Token;
use sql_tree::CreateTable;
use std::alloc::Global;

/// A statement, which may be empty.
#[tactic(auto, unfolding(crate::specs::inner::readers::Schemas::read_statement, crate::specs::inner::readers::Tokens::and_then))]
fn statement<'a>(
    alloc: Global,
    depth: usize,
    tokens: &'a [Token],
) -> Result<(Option<CreateTable>, &'a [Token]), ParseStop>
    ensures { GivesAlone (read_statement depth tokens.now) result }
{
    if !at(tokens, CREATE) {
        return Ok((None, tokens));
    }
    let (table, rest) = create(alloc, depth, tokens)?;
    Ok((Some(table), rest))
}

/// Statements with semicolons between them: the tables that they declare.
#[tactic(auto, using(crate::proofs::Statements::statement_rules))]
fn statements<'a>(
    alloc: Global,
    depth: usize,
    tokens: &'a [Token],
) -> Result<(Items<CreateTable>, &'a [Token]), ParseStop>
    ensures { Gives (read_schema depth tokens.now) result }
{
    let (first, mut rest) = statement(alloc, depth, tokens)?;
    let mut tables = Items::new(alloc);
    add_optional(&mut tables, first)?;
    while let Some((_, after)) = next(rest, Mark::Semicolon) {
        let (table, after) = statement(alloc, depth, after)?;
        add_optional(&mut tables, table)?;
        rest = after;
    }
    Ok((tables, rest))
}

/// The tables that all the tokens declare.
#[tactic(auto, unfolding(crate::specs::inner::readers::Schemas::schema_of, crate::specs::inner::readers::Tokens::all_read))]
fn schema(alloc: Global, tokens: &[Token]) -> Result<Items<CreateTable>, ParseStop>
    ensures { GivesWhole (schema_of tokens.now) result }
{
    let (tables, rest) = statements(alloc, tokens.len(), tokens)?;
    if !rest.is_empty() {
        return Err(ParseStop::Syntax(rest.len()));
    }
    Ok(tables)
}

/// The tables that the tokens of a schema declare, in order. Where they declare none for a fault,
/// the first of these refuses them:
///
/// - `Deep` at the first left parenthesis behind which more than 32 are open; a semicolon closes
///   none;
/// - `Syntax` at the token, or behind the last one, where reading from the left stopped.
///
/// `NoMemory` comes where memory runs out.
pub fn parse_schema(alloc: Global, tokens: &[Token]) -> Result<Vec<CreateTable>, TextStop>
    requires short { length tokens.now < 2 ^ 32 }
    ensures tables { IfOk result (λ tables. IsSchema tokens.now tables.items) }
    ensures refused { IfErr result (λ stop. IsRefusedSchema tokens.now stop) }
{
    if let Some(span) = too_deep(tokens) {
        return Err(TextStop::Refused(deep_at(span)));
    }
    match schema(alloc, tokens) {
        Ok(tables) => Ok(tables.into_vec()),
        Err(ParseStop::NoMemory) => Err(TextStop::NoMemory),
        Err(ParseStop::Syntax(left)) => Err(TextStop::Refused(syntax_at(tokens, left))),
    }
}
