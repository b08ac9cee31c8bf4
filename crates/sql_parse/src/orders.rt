//! The reader of ORDER BY.
ghost use Rattle.std.specs.Prelude.{◌≡◌};
ghost use Rattle.sql_tree.specs.declared.select.OrderTree.{OrderTree as Key};
ghost use Rattle.sql_parse.specs.inner.readers.Tokens.{found, is_comma, read_separated};
ghost use Rattle.sql_parse.specs.inner.readers.Queries.{directed, read_key, read_order};
ghost use Rattle.sql_parse.specs.inner.readers.Gives.{Gives};

use crate::front::{Mark, ParseStop, at, expect, next};
use crate::lists::separated;
use crate::reserved::{BY, ORDER};
use crate::terms::{bare_column, number};
use crate::words::is_called;
use lint_base::Items;
use sql_lex::Token;
use sql_tree::OrderTree;
use std::alloc::Global;

/// The tokens after [ ASC | DESC ], which leaves nothing in the tree.
#[tactic(auto, using(crate::proofs::Called::called_words), unfolding(crate::specs::inner::readers::Queries::directed, crate::specs::inner::readers::Queries::is_direction, crate::specs::inner::readers::Tokens::at_head, crate::specs::inner::readers::Tokens::expect, crate::specs::inner::readers::Tokens::and_then))]
fn after_direction(tokens: &[Token]) -> &[Token]
    ensures { (key : Key) → directed key tokens.now ≡ found key result.now }
{
    match tokens.split_first() {
        Some((token, rest)) if is_called(&token.kind, "ASC") || is_called(&token.kind, "DESC") =>
            rest,
        _ => tokens,
    }
}

/// A key: a column, or the number of an item.
#[tactic(auto, unfolding(crate::specs::inner::readers::Queries::read_key, crate::specs::inner::readers::Tokens::and_then))]
fn key<'a>(alloc: Global, tokens: &'a [Token]) -> Result<(OrderTree, &'a [Token]), ParseStop>
    ensures { Gives (read_key tokens.now) result }
{
    if at(tokens, Mark::Name) {
        let (term, rest) = bare_column(alloc, tokens)?;
        return Ok((OrderTree::Column(term), after_direction(rest)));
    }
    let ((number, span), rest) = number(tokens)?;
    Ok((OrderTree::Place { number, span }, after_direction(rest)))
}

/// Keys with commas between them.
fn listed_keys<'a>(
    alloc: Global,
    tokens: &'a [Token],
) -> Result<(Items<OrderTree>, &'a [Token]), ParseStop>
    ensures { Gives (read_separated is_comma read_key tokens.now) result }
{
    separated(alloc, tokens, Mark::Comma, |part| key(alloc, part))
}

/// [ ORDER BY key { , key } ]
#[tactic(auto, unfolding(crate::specs::inner::readers::Queries::read_order, crate::specs::inner::readers::Tokens::and_then, crate::specs::inner::readers::Tokens::read_after))]
pub(crate) fn order<'a>(
    alloc: Global,
    tokens: &'a [Token],
) -> Result<(Items<OrderTree>, &'a [Token]), ParseStop>
    ensures { Gives (read_order tokens.now) result }
{
    let Some((_, rest)) = next(tokens, ORDER) else {
        return Ok((Items::new(alloc), tokens));
    };
    let (_, rest) = expect(rest, BY)?;
    listed_keys(alloc, rest)
}
