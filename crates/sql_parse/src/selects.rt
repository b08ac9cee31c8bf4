//! The readers of conditions and SELECTs, which hold each other.
ghost use Rattle.std.specs.Prelude.{◌≡◌, ◌++◌, IfOk, IfErr, length};
ghost use Rattle.sql_tree.specs.declared.select.CondTree.TheVariants as cond;
ghost use Rattle.sql_parse.specs.declared.front.ParseStop.TheVariants as stop;
ghost use Rattle.sql_parse.specs.grammar.Selects.{alone_or};
ghost use Rattle.sql_parse.specs.inner.readers.Tokens.{at_head};
ghost use Rattle.sql_parse.specs.inner.readers.Predicates.{comparison_rest, in_rest, negatable, read_predicate};
ghost use Rattle.sql_parse.specs.inner.readers.Selects.{placed, is_join, without_inner, cross_joined, inner_joined, read_join, read_group, read_groups, read_where, read_select, read_subquery, read_parenthesized, read_exists, read_primary, read_factor, read_conjunction, read_cond};
ghost use Rattle.sql_parse.specs.inner.readers.Gives.{Gives};
ghost use Rattle.sql_parse.specs.inner.readers.Operators.{GivesOperator};

use crate::front::{Mark, Nesting, ParseStop, at, expect, next, place_before};
use crate::items::{entry, items, quantifier};
use crate::predicates::{between_rest, not_word, null_rest, values_rest};
use crate::reserved::{
    AND, BETWEEN, CROSS, EXISTS, FROM, IN, INNER, IS, JOIN, NOT, ON, OR, SELECT, WHERE,
};
use crate::terms::term;
use lint_base::{Items, Span};
use lint_tables::Op;
use sql_lex::{Kind, Sign, Token};
use sql_tree::{CondTree, EntryTree, ItemTree, SelectTree, TermTree};
use sqlite_items::Boxed;
use std::alloc::Global;

/// What a SELECT has beside its place.
type Parts = (
    Option<Span>,
    Items<ItemTree>,
    Items<EntryTree>,
    Option<CondTree>,
);

/// One part alone is that part; more are joined by OR.
fn any_of(parts: Items<CondTree>) -> CondTree
    ensures { result ≡ alone_or cond.Or parts }
{
    let mut parts = parts.into_vec();
    if parts.len() == 1 {
        if let Some(part) = parts.pop() {
            return part;
        }
    }
    CondTree::Or(Items::from_vec(parts))
}

/// One part alone is that part; more are joined by AND.
fn all_of(parts: Items<CondTree>) -> CondTree
    ensures { result ≡ alone_or cond.And parts }
{
    let mut parts = parts.into_vec();
    if parts.len() == 1 {
        if let Some(part) = parts.pop() {
            return part;
        }
    }
    CondTree::And(Items::from_vec(parts))
}

/// A SELECT with its place.
pub(crate) fn placed(parts: Parts, span: Span) -> SelectTree
    ensures { result ≡ placed parts span }
{
    let (distinct, items, from, filter) = parts;
    SelectTree {
        distinct,
        items,
        from,
        filter,
        span,
    }
}

/// Whether a join comes.
#[tactic(auto, unfolding(crate::specs::inner::readers::Tokens::at_head, crate::specs::inner::readers::Selects::is_join))]
fn at_join(tokens: &[Token]) -> bool
    ensures { result ≡ at_head is_join tokens.now }
{
    at(tokens, CROSS) || at(tokens, JOIN) || at(tokens, INNER)
}

/// CROSS JOIN and an entry.
#[tactic(auto, unfolding(crate::specs::inner::readers::Selects::cross_joined, crate::specs::inner::readers::Tokens::and_then, crate::specs::inner::readers::Tokens::read_after))]
fn cross_joined<'a>(
    alloc: Global,
    nesting: Nesting,
    first: u32,
    tokens: &'a [Token],
) -> Result<(EntryTree, &'a [Token]), ParseStop>
    ensures { Gives (cross_joined nesting.flat (read_cond nesting.flat nesting.depth) first
        tokens.now) result }
{
    let (_, rest) = expect(tokens, CROSS)?;
    let (_, rest) = expect(rest, JOIN)?;
    let ((table, alias), rest) = entry(alloc, rest)?;
    Ok((
        EntryTree {
            table,
            alias,
            on: None,
            first,
        },
        rest,
    ))
}

/// [ INNER ]
#[tactic(auto, unfolding(crate::specs::inner::readers::Selects::without_inner, crate::specs::inner::readers::Tokens::and_then))]
fn without_inner(tokens: &[Token]) -> Result<(bool, &[Token]), ParseStop>
    ensures { Gives (without_inner tokens.now) result }
{
    if let Some((_, rest)) = next(tokens, INNER) {
        return Ok((true, rest));
    }
    Ok((false, tokens))
}

/// [ INNER ] JOIN, an entry, ON and a condition.
#[cycle(nested)]
#[tactic(auto, unfolding(crate::specs::inner::readers::Selects::inner_joined, crate::specs::inner::readers::Tokens::and_then, crate::specs::inner::readers::Tokens::read_after))]
fn inner_joined<'a>(
    alloc: Global,
    nesting: Nesting,
    first: u32,
    tokens: &'a [Token],
) -> Result<(EntryTree, &'a [Token]), ParseStop>
    ensures { Gives (inner_joined nesting.flat (read_cond nesting.flat nesting.depth) first
        tokens.now) result }
{
    let (_, rest) = without_inner(tokens)?;
    let (_, rest) = expect(rest, JOIN)?;
    let ((table, alias), rest) = entry(alloc, rest)?;
    let (_, rest) = expect(rest, ON)?;
    let (tree, rest) = condition(alloc, nesting, rest)?;
    Ok((
        EntryTree {
            table,
            alias,
            on: Some(tree),
            first,
        },
        rest,
    ))
}

/// A join.
#[cycle(nested)]
#[tactic(auto, unfolding(crate::specs::inner::readers::Selects::read_join))]
fn join<'a>(
    alloc: Global,
    nesting: Nesting,
    first: u32,
    tokens: &'a [Token],
) -> Result<(EntryTree, &'a [Token]), ParseStop>
    ensures { Gives (read_join nesting.flat (read_cond nesting.flat nesting.depth) first
        tokens.now) result }
{
    if at(tokens, CROSS) {
        return cross_joined(alloc, nesting, first, tokens);
    }
    inner_joined(alloc, nesting, first, tokens)
}

/// An entry with its joins, from the entry of this number on.
#[cycle(nested)]
#[tactic(auto, using(crate::proofs::Groups::group_rules))]
fn group<'a>(
    alloc: Global,
    nesting: Nesting,
    first: u32,
    tokens: &'a [Token],
) -> Result<(Items<EntryTree>, &'a [Token]), ParseStop>
    ensures { Gives (read_group nesting.flat (read_cond nesting.flat nesting.depth) first
        tokens.now) result }
{
    let ((table, alias), mut rest) = entry(alloc, tokens)?;
    let mut entries = Items::new(alloc);
    entries.push(EntryTree {
        table,
        alias,
        on: None,
        first,
    })?;
    'joins: while at_join(rest) {
        let (joined, after) = join(alloc, nesting, first, rest)?;
        entries.push(joined)?;
        rest = after;
    }
    Ok((entries, rest))
}

/// How many entries there are. For more than fit there is no memory.
fn count_of(entries: &Items<EntryTree>) -> Result<u32, ParseStop>
    ensures counted { IfOk result (λ count. count ≡ length entries.now) }
    ensures refused { IfErr result (λ e. e ≡ stop.NoMemory) }
{
    match u32::try_from(entries.as_slice().len()) {
        Ok(count) => Ok(count),
        Err(_) => Err(ParseStop::NoMemory),
    }
}

/// All of the one and then all of the other.
fn joined(
    entries: Items<EntryTree>,
    others: Items<EntryTree>,
) -> Result<Items<EntryTree>, ParseStop>
    ensures both { IfOk result (λ all. all ≡ entries ++ others) }
    ensures refused { IfErr result (λ e. e ≡ stop.NoMemory) }
{
    let mut all = entries.into_vec();
    let mut others = others.into_vec();
    all.append(&mut others)?;
    Ok(Items::from_vec(all))
}

/// The groups of FROM.
#[cycle(nested)]
#[tactic(auto, using(crate::proofs::Groups::group_rules))]
fn groups<'a>(
    alloc: Global,
    nesting: Nesting,
    tokens: &'a [Token],
) -> Result<(Items<EntryTree>, &'a [Token]), ParseStop>
    ensures { Gives (read_groups nesting.flat (read_cond nesting.flat nesting.depth) tokens.now)
        result }
{
    let (mut entries, mut rest) = group(alloc, nesting, 0, tokens)?;
    'groups: while let Some((_, after)) = next(rest, Mark::Comma) {
        let first = count_of(&entries)?;
        let (others, after) = group(alloc, nesting, first, after)?;
        entries = joined(entries, others)?;
        rest = after;
    }
    Ok((entries, rest))
}

/// [ WHERE condition ]
#[cycle(nested)]
#[tactic(auto, unfolding(crate::specs::inner::readers::Selects::read_where, crate::specs::inner::readers::Tokens::and_then, crate::specs::inner::readers::Tokens::read_after))]
fn filter<'a>(
    alloc: Global,
    nesting: Nesting,
    tokens: &'a [Token],
) -> Result<(Option<CondTree>, &'a [Token]), ParseStop>
    ensures { Gives (read_where nesting.flat (read_cond nesting.flat nesting.depth) tokens.now)
        result }
{
    if let Some((_, rest)) = next(tokens, WHERE) {
        let (tree, rest) = condition(alloc, nesting, rest)?;
        return Ok((Some(tree), rest));
    }
    Ok((None, tokens))
}

/// A SELECT, with no DISTINCT where it is scalar.
#[cycle(nested)]
#[tactic(auto, unfolding(crate::specs::inner::readers::Selects::read_select, crate::specs::inner::readers::Tokens::and_then, crate::specs::inner::readers::Tokens::read_after))]
pub(crate) fn select<'a>(
    alloc: Global,
    nesting: Nesting,
    scalar: bool,
    tokens: &'a [Token],
) -> Result<(Parts, &'a [Token]), ParseStop>
    ensures { Gives (read_select nesting.flat (read_cond nesting.flat nesting.depth) scalar
        tokens.now) result }
{
    let (_, rest) = expect(tokens, SELECT)?;
    let (distinct, rest) = quantifier(rest, scalar)?;
    let (items, rest) = items(alloc, rest)?;
    let (_, rest) = expect(rest, FROM)?;
    let (entries, rest) = groups(alloc, nesting, rest)?;
    let (filter, rest) = filter(alloc, nesting, rest)?;
    Ok(((distinct, items, entries, filter), rest))
}

/// A SELECT in parentheses.
#[cycle(nested)]
#[tactic(auto, unfolding(crate::specs::inner::readers::Selects::read_subquery, crate::specs::inner::readers::Tokens::and_then, crate::specs::inner::readers::Tokens::read_after))]
fn subquery<'a>(
    alloc: Global,
    nesting: Nesting,
    scalar: bool,
    tokens: &'a [Token],
) -> Result<(SelectTree, &'a [Token]), ParseStop>
    ensures { Gives (read_subquery nesting.flat (read_cond nesting.flat nesting.depth) scalar
        tokens.now) result }
{
    if nesting.flat {
        return Err(ParseStop::Syntax(tokens.len()));
    }
    let (_, inside) = expect(tokens, Mark::Open)?;
    let (parts, rest) = select(alloc, nesting, scalar, inside)?;
    let (_, rest) = expect(rest, Mark::Close)?;
    Ok((placed(parts, place_before(tokens, rest)), rest))
}

/// The operator of a comparison.
#[tactic(auto, unfolding(crate::specs::inner::readers::Operators::operator_of, crate::specs::inner::readers::Operators::first_operator))]
fn operator(tokens: &[Token]) -> Option<(Op, &[Token])>
    ensures { GivesOperator tokens.now result }
{
    match tokens.split_first() {
        Some(
            (
                Token {
                    kind: Kind::Sign(Sign::Compare(op)),
                    ..
                },
                rest,
            ),
        ) => Some((*op, rest)),
        _ => None,
    }
}

/// What comes after the operator of a comparison.
#[cycle(nested)]
#[tactic(auto, unfolding(crate::specs::inner::readers::Predicates::comparison_rest, crate::specs::inner::readers::Tokens::and_then))]
fn comparison_rest<'a>(
    alloc: Global,
    nesting: Nesting,
    tokens: &'a [Token],
    left: TermTree,
    op: Op,
    rest: &'a [Token],
) -> Result<(CondTree, &'a [Token]), ParseStop>
    ensures { Gives (comparison_rest (read_subquery nesting.flat
        (read_cond nesting.flat nesting.depth)) tokens.now left op rest.now) result }
{
    if at(rest, Mark::Open) {
        let (select, rest) = subquery(alloc, nesting, true, rest)?;
        let span = place_before(tokens, rest);
        let select = Boxed::new(alloc, select)?;
        return Ok((
            CondTree::Scalar {
                op,
                left,
                select,
                span,
            },
            rest,
        ));
    }
    let (right, rest) = term(alloc, rest)?;
    let span = place_before(tokens, rest);
    Ok((
        CondTree::Compare {
            op,
            left,
            right,
            span,
        },
        rest,
    ))
}

/// What comes after IN.
#[cycle(nested)]
#[tactic(auto, unfolding(crate::specs::inner::readers::Predicates::in_rest, crate::specs::inner::readers::Predicates::list_or_select, crate::specs::inner::readers::Tokens::and_then))]
fn in_rest<'a>(
    alloc: Global,
    nesting: Nesting,
    tokens: &'a [Token],
    term: TermTree,
    negated: bool,
    rest: &'a [Token],
) -> Result<(CondTree, &'a [Token]), ParseStop>
    ensures { Gives (in_rest (read_subquery nesting.flat
        (read_cond nesting.flat nesting.depth)) tokens.now term negated rest.now) result }
{
    let (_, inside) = expect(rest, Mark::Open)?;
    if at(inside, SELECT) {
        let (select, rest) = subquery(alloc, nesting, false, rest)?;
        let span = place_before(tokens, rest);
        let select = Boxed::new(alloc, select)?;
        return Ok((
            CondTree::InSelect {
                term,
                select,
                negated,
                span,
            },
            rest,
        ));
    }
    values_rest(alloc, tokens, term, negated, inside)
}

/// BETWEEN or IN, after NOT or not.
#[cycle(nested)]
#[tactic(auto, unfolding(crate::specs::inner::readers::Predicates::negatable, crate::specs::inner::readers::Tokens::and_then))]
fn negatable<'a>(
    alloc: Global,
    nesting: Nesting,
    tokens: &'a [Token],
    term: TermTree,
    negated: bool,
    rest: &'a [Token],
) -> Result<(CondTree, &'a [Token]), ParseStop>
    ensures { Gives (negatable (read_subquery nesting.flat
        (read_cond nesting.flat nesting.depth)) tokens.now term negated rest.now) result }
{
    if let Some((_, rest)) = next(rest, BETWEEN) {
        return between_rest(alloc, tokens, term, negated, rest);
    }
    let (_, rest) = expect(rest, IN)?;
    in_rest(alloc, nesting, tokens, term, negated, rest)
}

/// A predicate that begins with a term.
#[cycle(nested)]
#[tactic(auto, using(crate::proofs::PredicateParts::predicate_rules))]
fn predicate<'a>(
    alloc: Global,
    nesting: Nesting,
    tokens: &'a [Token],
) -> Result<(CondTree, &'a [Token]), ParseStop>
    ensures { Gives (read_predicate (read_subquery nesting.flat
        (read_cond nesting.flat nesting.depth)) tokens.now) result }
{
    let (term, rest) = term(alloc, tokens)?;
    if let Some((op, rest)) = operator(rest) {
        return comparison_rest(alloc, nesting, tokens, term, op, rest);
    }
    if let Some((_, rest)) = next(rest, IS) {
        return null_rest(tokens, term, rest);
    }
    let (negated, rest) = not_word(rest)?;
    negatable(alloc, nesting, tokens, term, negated, rest)
}

/// A condition in parentheses.
#[cycle(nested)]
#[tactic(auto, unfolding(crate::specs::inner::readers::Selects::read_parenthesized, crate::specs::inner::readers::Tokens::and_then, crate::specs::inner::readers::Tokens::read_after))]
fn parenthesized<'a>(
    alloc: Global,
    nesting: Nesting,
    tokens: &'a [Token],
) -> Result<(CondTree, &'a [Token]), ParseStop>
    ensures { Gives (read_parenthesized nesting.flat
        (read_cond nesting.flat nesting.depth) tokens.now) result }
{
    let (_, inside) = expect(tokens, Mark::Open)?;
    let (tree, rest) = condition(alloc, nesting, inside)?;
    let (_, rest) = expect(rest, Mark::Close)?;
    Ok((tree, rest))
}

/// EXISTS and a subquery.
#[cycle(nested)]
#[tactic(auto, unfolding(crate::specs::inner::readers::Selects::read_exists, crate::specs::inner::readers::Tokens::and_then, crate::specs::inner::readers::Tokens::read_after))]
fn exists<'a>(
    alloc: Global,
    nesting: Nesting,
    tokens: &'a [Token],
) -> Result<(CondTree, &'a [Token]), ParseStop>
    ensures { Gives (read_exists nesting.flat (read_cond nesting.flat nesting.depth) tokens.now)
        result }
{
    let (_, rest) = expect(tokens, EXISTS)?;
    let (select, rest) = subquery(alloc, nesting, false, rest)?;
    let span = place_before(tokens, rest);
    let select = Boxed::new(alloc, select)?;
    Ok((CondTree::Exists { select, span }, rest))
}

/// What NOT stands before.
#[cycle(nested)]
#[tactic(auto, unfolding(crate::specs::inner::readers::Selects::read_primary))]
fn primary<'a>(
    alloc: Global,
    nesting: Nesting,
    tokens: &'a [Token],
) -> Result<(CondTree, &'a [Token]), ParseStop>
    ensures { Gives (read_primary nesting.flat (read_cond nesting.flat nesting.depth) tokens.now)
        result }
{
    if at(tokens, Mark::Open) {
        return parenthesized(alloc, nesting, tokens);
    }
    if at(tokens, EXISTS) {
        return exists(alloc, nesting, tokens);
    }
    predicate(alloc, nesting, tokens)
}

/// A part of a conjunction.
#[cycle(nested)]
#[tactic(auto, unfolding(crate::specs::inner::readers::Selects::read_factor, crate::specs::inner::readers::Tokens::and_then, crate::specs::inner::readers::Tokens::read_after))]
fn factor<'a>(
    alloc: Global,
    nesting: Nesting,
    tokens: &'a [Token],
) -> Result<(CondTree, &'a [Token]), ParseStop>
    ensures { Gives (read_factor nesting.flat (read_cond nesting.flat nesting.depth) tokens.now)
        result }
{
    if let Some((_, after)) = next(tokens, NOT) {
        let (inner, rest) = primary(alloc, nesting, after)?;
        let inner = Boxed::new(alloc, inner)?;
        return Ok((CondTree::Not(inner), rest));
    }
    primary(alloc, nesting, tokens)
}

/// A part of a disjunction.
#[cycle(nested)]
#[tactic(auto, using(crate::proofs::Separated::separated_rules, crate::proofs::Shorter::factor_shorter, crate::proofs::Conditions::condition_rules))]
fn conjunction<'a>(
    alloc: Global,
    nesting: Nesting,
    tokens: &'a [Token],
) -> Result<(CondTree, &'a [Token]), ParseStop>
    ensures { Gives (read_conjunction nesting.flat (read_cond nesting.flat nesting.depth)
        tokens.now) result }
{
    let (first, mut rest) = factor(alloc, nesting, tokens)?;
    let mut parts = Items::new(alloc);
    parts.push(first)?;
    while let Some((_, after)) = next(rest, AND) {
        let (part, left) = factor(alloc, nesting, after)?;
        parts.push(part)?;
        rest = left;
    }
    Ok((all_of(parts), rest))
}

/// A whole condition.
#[cycle(nested)]
#[tactic(auto, using(crate::proofs::Separated::separated_rules, crate::proofs::Shorter::conjunction_shorter, crate::proofs::Conditions::condition_rules), unfolding(crate::specs::inner::readers::Selects::read_cond))]
pub(crate) fn condition<'a>(
    alloc: Global,
    nesting: Nesting,
    tokens: &'a [Token],
) -> Result<(CondTree, &'a [Token]), ParseStop>
    ensures { Gives (read_cond nesting.flat nesting.depth tokens.now) result }
{
    if nesting.depth == 0 {
        return Err(ParseStop::Syntax(tokens.len()));
    }
    let inner = Nesting {
        flat: nesting.flat,
        depth: nesting.depth - 1,
    };
    let (first, mut rest) = conjunction(alloc, inner, tokens)?;
    let mut parts = Items::new(alloc);
    parts.push(first)?;
    while let Some((_, after)) = next(rest, OR) {
        let (part, left) = conjunction(alloc, inner, after)?;
        parts.push(part)?;
        rest = left;
    }
    Ok((any_of(parts), rest))
}
