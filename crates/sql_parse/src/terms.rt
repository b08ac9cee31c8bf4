//! The readers of names, values, columns and terms.
ghost use Rattle.std.specs.Prelude.{◌≡◌, ◌≤◌, pos, int_le, true, IfOk};
ghost use Rattle.sql_parse.specs.inner.readers.Tokens.{and_then, is_comma, read_separated};
ghost use Rattle.sql_parse.specs.inner.readers.Terms.{read_name, read_names, read_alias, read_number, read_signed, read_literal, read_value, read_column, read_bare, read_term, term_after};
ghost use Rattle.sql_parse.specs.inner.readers.Gives.{Gives};

use crate::front::{Mark, ParseStop, at, expect, next, place_before};
use crate::lists::separated;
use crate::reserved::{AS, NULL};
use lint_base::{Items, Span};
use sql_lex::{Kind, Sign, Token};
use sql_tree::{NameTree, TermTree};
use std::alloc::Global;

/// A name.
#[tactic(auto, unfolding(crate::specs::inner::readers::Terms::read_name, crate::specs::inner::readers::Terms::name_from))]
pub(crate) fn name<'a>(
    alloc: Global,
    tokens: &'a [Token],
) -> Result<(NameTree, &'a [Token]), ParseStop>
    ensures { Gives (read_name tokens.now) result }
{
    match tokens.split_first() {
        Some(
            (
                Token {
                    kind: Kind::Name { text, .. },
                    span,
                },
                rest,
            ),
        ) => {
            let text = text.copy(alloc)?;
            Ok((NameTree { text, span: *span }, rest))
        }
        _ => Err(ParseStop::Syntax(tokens.len())),
    }
}

/// [ [ AS ] name ]
#[tactic(auto, unfolding(crate::specs::inner::readers::Terms::read_alias, crate::specs::inner::readers::Tokens::and_then, crate::specs::inner::readers::Tokens::read_after))]
pub(crate) fn alias<'a>(
    alloc: Global,
    tokens: &'a [Token],
) -> Result<(Option<NameTree>, &'a [Token]), ParseStop>
    ensures { Gives (read_alias tokens.now) result }
{
    if let Some((_, rest)) = next(tokens, AS) {
        let (name, rest) = name(alloc, rest)?;
        Ok((Some(name), rest))
    } else if at(tokens, Mark::Name) {
        let (name, rest) = name(alloc, tokens)?;
        Ok((Some(name), rest))
    } else {
        Ok((None, tokens))
    }
}

/// A number, which has no sign, and its place.
#[tactic(auto, unfolding(crate::specs::inner::readers::Terms::read_number, crate::specs::inner::readers::Terms::number_from))]
pub(crate) fn number(tokens: &[Token]) -> Result<((i64, Span), &[Token]), ParseStop>
    ensures read { Gives (read_number tokens.now) result }
    ensures unsigned { IfOk result (λ x. int_le (pos 0) x.0.0 ≡ true) }
{
    match tokens.split_first() {
        Some(
            (
                Token {
                    kind: Kind::Number(value),
                    span,
                },
                rest,
            ),
        ) if *value >= 0 => { Ok(((*value, *span), rest)) }
        _ => Err(ParseStop::Syntax(tokens.len())),
    }
}

/// + or - and a number.
#[tactic(auto, unfolding(crate::specs::inner::readers::Terms::read_signed, crate::specs::inner::readers::Terms::signed_from, crate::specs::inner::readers::Tokens::and_then))]
pub(crate) fn signed(tokens: &[Token]) -> Result<(i64, &[Token]), ParseStop>
    ensures { Gives (read_signed tokens.now) result }
{
    match tokens.split_first() {
        Some(
            (
                Token {
                    kind: Kind::Sign(Sign::Plus),
                    ..
                },
                rest,
            ),
        ) => {
            let ((value, _), rest) = number(rest)?;
            Ok((value, rest))
        }
        Some(
            (
                Token {
                    kind: Kind::Sign(Sign::Minus),
                    ..
                },
                rest,
            ),
        ) => {
            let ((value, _), rest) = number(rest)?;
            Ok((-value, rest))
        }
        _ => Err(ParseStop::Syntax(tokens.len())),
    }
}

/// A literal.
#[tactic(auto, unfolding(crate::specs::inner::readers::Terms::read_literal, crate::specs::inner::readers::Terms::literal_from, crate::specs::inner::readers::Tokens::and_then))]
pub(crate) fn literal<'a>(
    alloc: Global,
    tokens: &'a [Token],
) -> Result<(TermTree, &'a [Token]), ParseStop>
    ensures { Gives (read_literal tokens.now) result }
{
    match tokens.split_first() {
        Some(
            (
                Token {
                    kind: Kind::Number(_),
                    ..
                },
                _,
            ),
        ) => {
            let ((value, span), rest) = number(tokens)?;
            Ok((TermTree::Number { value, span }, rest))
        }
        Some(
            (
                Token {
                    kind: Kind::Text(text),
                    span,
                },
                rest,
            ),
        ) => {
            let text = text.copy(alloc)?;
            Ok((TermTree::Text { text, span: *span }, rest))
        }
        Some(
            (
                Token {
                    kind: Kind::Sign(_),
                    ..
                },
                _,
            ),
        ) => {
            let (value, rest) = signed(tokens)?;
            let span = place_before(tokens, rest);
            Ok((TermTree::Number { value, span }, rest))
        }
        _ => Err(ParseStop::Syntax(tokens.len())),
    }
}

/// A value.
#[tactic(auto, unfolding(crate::specs::inner::readers::Terms::read_value, crate::specs::inner::readers::Tokens::and_then))]
pub(crate) fn value<'a>(
    alloc: Global,
    tokens: &'a [Token],
) -> Result<(TermTree, &'a [Token]), ParseStop>
    ensures { Gives (read_value tokens.now) result }
{
    if let Some((word, rest)) = next(tokens, NULL) {
        return Ok((TermTree::Null { span: word.span }, rest));
    }
    literal(alloc, tokens)
}

/// [ name "." ] name
#[tactic(auto, unfolding(crate::specs::inner::readers::Terms::read_column, crate::specs::inner::readers::Terms::column_after, crate::specs::inner::readers::Tokens::and_then, crate::specs::inner::readers::Tokens::read_after))]
pub(crate) fn column<'a>(
    alloc: Global,
    tokens: &'a [Token],
) -> Result<((Option<NameTree>, NameTree), &'a [Token]), ParseStop>
    ensures { Gives (read_column tokens.now) result }
{
    let (first, rest) = name(alloc, tokens)?;
    if let Some((_, rest)) = next(rest, Mark::Dot) {
        let (second, rest) = name(alloc, rest)?;
        return Ok(((Some(first), second), rest));
    }
    Ok(((None, first), rest))
}

/// A column to which nothing is added.
#[tactic(auto, unfolding(crate::specs::inner::readers::Terms::read_bare, crate::specs::inner::readers::Tokens::and_then))]
pub(crate) fn bare_column<'a>(
    alloc: Global,
    tokens: &'a [Token],
) -> Result<(TermTree, &'a [Token]), ParseStop>
    ensures { Gives (read_bare tokens.now) result }
{
    let ((table, name), rest) = column(alloc, tokens)?;
    let span = place_before(tokens, rest);
    Ok((
        TermTree::Column {
            table,
            name,
            plus: 0,
            span,
        },
        rest,
    ))
}

/// A column, with what is added to it.
#[tactic(auto, unfolding(crate::specs::inner::readers::Terms::term_after, crate::specs::inner::readers::Tokens::and_then))]
fn sum<'a>(alloc: Global, tokens: &'a [Token]) -> Result<(TermTree, &'a [Token]), ParseStop>
    ensures { Gives (and_then (read_column tokens.now) (term_after tokens.now)) result }
{
    let ((table, name), rest) = column(alloc, tokens)?;
    if at(rest, Mark::Plus) {
        let (plus, rest) = signed(rest)?;
        let span = place_before(tokens, rest);
        return Ok((
            TermTree::Column {
                table,
                name,
                plus,
                span,
            },
            rest,
        ));
    }
    let span = place_before(tokens, rest);
    Ok((
        TermTree::Column {
            table,
            name,
            plus: 0,
            span,
        },
        rest,
    ))
}

/// A term.
#[tactic(auto, unfolding(crate::specs::inner::readers::Terms::read_term))]
pub(crate) fn term<'a>(
    alloc: Global,
    tokens: &'a [Token],
) -> Result<(TermTree, &'a [Token]), ParseStop>
    ensures { Gives (read_term tokens.now) result }
{
    if at(tokens, Mark::Name) {
        return sum(alloc, tokens);
    }
    value(alloc, tokens)
}

/// Names with commas between them.
fn listed_names<'a>(
    alloc: Global,
    tokens: &'a [Token],
) -> Result<(Items<NameTree>, &'a [Token]), ParseStop>
    ensures { Gives (read_separated is_comma read_name tokens.now) result }
{
    separated(alloc, tokens, Mark::Comma, |part| name(alloc, part))
}

/// Names in parentheses.
#[tactic(auto, unfolding(crate::specs::inner::readers::Terms::read_names, crate::specs::inner::readers::Tokens::and_then))]
pub(crate) fn names<'a>(
    alloc: Global,
    tokens: &'a [Token],
) -> Result<(Items<NameTree>, &'a [Token]), ParseStop>
    ensures { Gives (read_names tokens.now) result }
{
    let (_, rest) = expect(tokens, Mark::Open)?;
    let (names, rest) = listed_names(alloc, rest)?;
    let (_, rest) = expect(rest, Mark::Close)?;
    Ok((names, rest))
}
