//! The reader of queries.
ghost use Rattle.std.specs.Prelude.{◌≡◌, ◌<◌, ◌^◌, length, IfOk, IfErr};
ghost use Rattle.sql_parse.specs.inner.readers.Queries.{query_of};
ghost use Rattle.sql_parse.specs.inner.readers.Leaves.{GivesWhole};
ghost use Rattle.sql_parse.specs.Refusals.{IsQuery, IsRefusedQuery};

use crate::front::{Nesting, ParseStop, span_of};
use crate::orders::order;
use crate::refusals::{deep_at, syntax_at, too_deep, too_long};
use crate::selects::{placed, select};
use lint_base::TextStop;
use sql_lex::Token;
use sql_tree::QueryTree;
use std::alloc::Global;

/// The query that has all the tokens.
#[tactic(auto, unfolding(crate::specs::inner::readers::Queries::query_of, crate::specs::inner::readers::Queries::read_query, crate::specs::inner::readers::Tokens::and_then, crate::specs::inner::readers::Tokens::all_read))]
fn query(alloc: Global, tokens: &[Token]) -> Result<QueryTree, ParseStop>
    ensures { GivesWhole (query_of tokens.now) result }
{
    let nesting = Nesting {
        flat: false,
        depth: tokens.len(),
    };
    let (parts, rest) = select(alloc, nesting, false, tokens)?;
    let (order, rest) = order(alloc, rest)?;
    if !rest.is_empty() {
        return Err(ParseStop::Syntax(rest.len()));
    }
    Ok(QueryTree {
        select: placed(parts, span_of(tokens)),
        order,
    })
}

/// The query that the tokens are, all of them. Where they are none, it is refused:
///
/// - `Long` where there are more than 4,096 tokens: at the 4,097th, with their count;
/// - `Deep` otherwise at the first left parenthesis behind which more than 32 are open;
/// - `Syntax` otherwise at the token, or behind the last one, where reading from the left stopped.
///
/// `NoMemory` comes where memory runs out.
pub fn parse_query(alloc: Global, tokens: &[Token]) -> Result<QueryTree, TextStop>
    requires short { length tokens.now < 2 ^ 32 }
    ensures query { IfOk result (λ query. IsQuery tokens.now query) }
    ensures refused { IfErr result (λ stop. IsRefusedQuery tokens.now stop) }
{
    if let Some(refusal) = too_long(tokens) {
        return Err(TextStop::Refused(refusal));
    }
    if let Some(span) = too_deep(tokens) {
        return Err(TextStop::Refused(deep_at(span)));
    }
    match query(alloc, tokens) {
        Ok(query) => Ok(query),
        Err(ParseStop::NoMemory) => Err(TextStop::NoMemory),
        Err(ParseStop::Syntax(left)) => Err(TextStop::Refused(syntax_at(tokens, left))),
    }
}
