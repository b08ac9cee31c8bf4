//! The readers of what a SELECT begins with, and of the entries of FROM by themselves.
ghost use Rattle.std.specs.Prelude.{◌≡◌};
ghost use Rattle.sql_parse.specs.inner.readers.Tokens.{is_comma, read_separated};
ghost use Rattle.sql_parse.specs.inner.readers.Items.{read_quantifier, item_after, dotted_item, named_item, read_item, read_items, read_entry};
ghost use Rattle.sql_parse.specs.inner.readers.Gives.{Gives};

use crate::front::{Mark, ParseStop, at, next, place_before};
use crate::lists::separated;
use crate::reserved::{ALL, DISTINCT};
use crate::terms::{alias, literal, name};
use lint_base::{Items, Span};
use sql_lex::Token;
use sql_tree::{ItemTree, NameTree, TermTree};
use std::alloc::Global;

/// [ ALL | DISTINCT ], of a scalar subquery [ ALL ]: the place of DISTINCT.
#[tactic(auto, unfolding(crate::specs::inner::readers::Items::read_quantifier, crate::specs::inner::readers::Tokens::and_then))]
pub(crate) fn quantifier(
    tokens: &[Token],
    scalar: bool,
) -> Result<(Option<Span>, &[Token]), ParseStop>
    ensures { Gives (read_quantifier scalar tokens.now) result }
{
    if let Some((word, rest)) = next(tokens, DISTINCT) {
        if scalar {
            return Err(ParseStop::Syntax(tokens.len()));
        }
        return Ok((Some(word.span), rest));
    }
    if let Some((_, rest)) = next(tokens, ALL) {
        return Ok((None, rest));
    }
    Ok((None, tokens))
}

/// A term that was read, and [ [ AS ] name ] after it.
#[tactic(auto, unfolding(crate::specs::inner::readers::Items::item_after, crate::specs::inner::readers::Tokens::and_then))]
fn aliased<'a>(
    alloc: Global,
    tokens: &'a [Token],
    term: TermTree,
    rest: &'a [Token],
) -> Result<(ItemTree, &'a [Token]), ParseStop>
    ensures { Gives (item_after tokens.now term rest.now) result }
{
    let (alias, rest) = alias(alloc, rest)?;
    Ok((ItemTree::Term { term, alias }, rest))
}

/// After a name and a dot: * or the name of a column.
#[tactic(auto, unfolding(crate::specs::inner::readers::Items::dotted_item, crate::specs::inner::readers::Tokens::and_then))]
fn dotted_item<'a>(
    alloc: Global,
    tokens: &'a [Token],
    table: NameTree,
    rest: &'a [Token],
) -> Result<(ItemTree, &'a [Token]), ParseStop>
    ensures { Gives (dotted_item tokens.now table rest.now) result }
{
    if let Some((star, rest)) = next(rest, Mark::Star) {
        return Ok((
            ItemTree::StarOf {
                table,
                star: star.span,
            },
            rest,
        ));
    }
    let (name, rest) = name(alloc, rest)?;
    let span = place_before(tokens, rest);
    let column = TermTree::Column {
        table: Some(table),
        name,
        plus: 0,
        span,
    };
    aliased(alloc, tokens, column, rest)
}

/// After a name.
#[tactic(auto, unfolding(crate::specs::inner::readers::Items::named_item, crate::specs::inner::readers::Tokens::and_then))]
fn named_item<'a>(
    alloc: Global,
    tokens: &'a [Token],
    name: NameTree,
    rest: &'a [Token],
) -> Result<(ItemTree, &'a [Token]), ParseStop>
    ensures { Gives (named_item tokens.now name rest.now) result }
{
    if let Some((_, rest)) = next(rest, Mark::Dot) {
        return dotted_item(alloc, tokens, name, rest);
    }
    let span = place_before(tokens, rest);
    let column = TermTree::Column {
        table: None,
        name,
        plus: 0,
        span,
    };
    aliased(alloc, tokens, column, rest)
}

/// An item.
#[tactic(auto, unfolding(crate::specs::inner::readers::Items::read_item, crate::specs::inner::readers::Tokens::and_then))]
fn item<'a>(alloc: Global, tokens: &'a [Token]) -> Result<(ItemTree, &'a [Token]), ParseStop>
    ensures { Gives (read_item tokens.now) result }
{
    if at(tokens, Mark::Name) {
        let (name, rest) = name(alloc, tokens)?;
        return named_item(alloc, tokens, name, rest);
    }
    let (literal, rest) = literal(alloc, tokens)?;
    aliased(alloc, tokens, literal, rest)
}

/// Items with commas between them.
fn listed_items<'a>(
    alloc: Global,
    tokens: &'a [Token],
) -> Result<(Items<ItemTree>, &'a [Token]), ParseStop>
    ensures { Gives (read_separated is_comma read_item tokens.now) result }
{
    separated(alloc, tokens, Mark::Comma, |part| item(alloc, part))
}

/// All columns, or items.
#[tactic(auto, unfolding(crate::specs::inner::readers::Items::read_items, crate::specs::inner::readers::Tokens::and_then))]
pub(crate) fn items<'a>(
    alloc: Global,
    tokens: &'a [Token],
) -> Result<(Items<ItemTree>, &'a [Token]), ParseStop>
    ensures { Gives (read_items tokens.now) result }
{
    if let Some((star, rest)) = next(tokens, Mark::Star) {
        let mut items = Items::new(alloc);
        items.push(ItemTree::Star(star.span))?;
        return Ok((items, rest));
    }
    listed_items(alloc, tokens)
}

/// An entry of FROM by itself: a table, and [ [ AS ] name ].
#[tactic(auto, unfolding(crate::specs::inner::readers::Items::read_entry, crate::specs::inner::readers::Tokens::and_then))]
pub(crate) fn entry<'a>(
    alloc: Global,
    tokens: &'a [Token],
) -> Result<((NameTree, Option<NameTree>), &'a [Token]), ParseStop>
    ensures { Gives (read_entry tokens.now) result }
{
    let (table, rest) = name(alloc, tokens)?;
    let (alias, rest) = alias(alloc, rest)?;
    Ok(((table, alias), rest))
}
