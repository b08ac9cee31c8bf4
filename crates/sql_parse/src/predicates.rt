//! The readers of what stands in predicates beside subqueries.
ghost use Rattle.std.specs.Prelude.{◌≡◌, Bool, List};
ghost use Rattle.sql_lex.specs.declared.token.Token.{Token as Tokens};
ghost use Rattle.sql_tree.specs.declared.select.SelectTree.{SelectTree};
ghost use Rattle.sql_parse.specs.inner.readers.Tokens.{Read, is_comma, read_separated};
ghost use Rattle.sql_parse.specs.inner.readers.Terms.{read_value};
ghost use Rattle.sql_parse.specs.inner.readers.Predicates.{read_not, null_rest, between_rest, values_rest};
ghost use Rattle.sql_parse.specs.inner.readers.Gives.{Gives};

use crate::front::{Mark, ParseStop, expect, next, place_before};
use crate::lists::separated;
use crate::reserved::{AND, NOT, NULL};
use crate::terms::{term, value};
use lint_base::Items;
use sql_lex::Token;
use sql_tree::{CondTree, TermTree};
use std::alloc::Global;

/// [ NOT ]
#[tactic(auto, unfolding(crate::specs::inner::readers::Predicates::read_not, crate::specs::inner::readers::Tokens::and_then))]
pub(crate) fn not_word(tokens: &[Token]) -> Result<(bool, &[Token]), ParseStop>
    ensures { Gives (read_not tokens.now) result }
{
    if let Some((_, rest)) = next(tokens, NOT) {
        return Ok((true, rest));
    }
    Ok((false, tokens))
}

/// What comes after IS.
#[tactic(auto, unfolding(crate::specs::inner::readers::Predicates::null_rest, crate::specs::inner::readers::Tokens::and_then))]
pub(crate) fn null_rest<'a>(
    tokens: &'a [Token],
    term: TermTree,
    rest: &'a [Token],
) -> Result<(CondTree, &'a [Token]), ParseStop>
    ensures { (sub : Bool → List Tokens → Read SelectTree) →
        Gives (null_rest sub tokens.now term rest.now) result }
{
    let (negated, rest) = not_word(rest)?;
    let (_, rest) = expect(rest, NULL)?;
    let span = place_before(tokens, rest);
    Ok((
        CondTree::IsNull {
            term,
            negated,
            span,
        },
        rest,
    ))
}

/// What comes after BETWEEN.
#[tactic(auto, unfolding(crate::specs::inner::readers::Predicates::between_rest, crate::specs::inner::readers::Tokens::and_then))]
pub(crate) fn between_rest<'a>(
    alloc: Global,
    tokens: &'a [Token],
    first: TermTree,
    negated: bool,
    rest: &'a [Token],
) -> Result<(CondTree, &'a [Token]), ParseStop>
    ensures { (sub : Bool → List Tokens → Read SelectTree) →
        Gives (between_rest sub tokens.now first negated rest.now) result }
{
    let (low, rest) = term(alloc, rest)?;
    let (_, rest) = expect(rest, AND)?;
    let (high, rest) = term(alloc, rest)?;
    let span = place_before(tokens, rest);
    Ok((
        CondTree::Between {
            term: first,
            low,
            high,
            negated,
            span,
        },
        rest,
    ))
}

/// Values with commas between them.
fn listed_values<'a>(
    alloc: Global,
    tokens: &'a [Token],
) -> Result<(Items<TermTree>, &'a [Token]), ParseStop>
    ensures { Gives (read_separated is_comma read_value tokens.now) result }
{
    separated(alloc, tokens, Mark::Comma, |part| value(alloc, part))
}

/// What comes after IN and a parenthesis, where it is no subquery.
#[tactic(auto, unfolding(crate::specs::inner::readers::Predicates::values_rest, crate::specs::inner::readers::Tokens::and_then))]
pub(crate) fn values_rest<'a>(
    alloc: Global,
    tokens: &'a [Token],
    term: TermTree,
    negated: bool,
    rest: &'a [Token],
) -> Result<(CondTree, &'a [Token]), ParseStop>
    ensures { (sub : Bool → List Tokens → Read SelectTree) →
        Gives (values_rest sub tokens.now term negated rest.now) result }
{
    let (values, rest) = listed_values(alloc, rest)?;
    let (_, rest) = expect(rest, Mark::Close)?;
    let span = place_before(tokens, rest);
    Ok((
        CondTree::InList {
            term,
            values,
            negated,
            span,
        },
        rest,
    ))
}
