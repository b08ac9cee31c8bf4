//! The scalar subqueries and the NOT IN subqueries of a condition, by their numbers.
ghost use Rattle.std.specs.Prelude.{ℕ, List, map, ◌≡◌, ◌++◌, ◌∷◌, [], IfOk, Ok, slice_get, option_map};
ghost use Rattle.std.specs.Result.{result_ok};
ghost use Rattle.std.specs.List.{flat_map};
ghost use Rattle.lint_core.specs.declared.condition.Block.{out-Block};
ghost use Rattle.lint_core.specs.declared.condition.Cond.{Cond as Condition};
ghost use Rattle.lint_core.specs.Fits.{tables_of};
ghost use Rattle.lint_core.specs.Subqueries.{is_column, scalar_subqueries, not_in_subqueries};
ghost use Rattle.sql_meaning.specs.Answered.{whole_of, subquery_of};
ghost use Rattle.sql_meaning.specs.WholeSubqueries.{whole, whole_scalars, whole_not_ins, without_entries};
ghost use Rattle.sql_meaning.specs.inner.Reached.{reached, item_at};

use lint_base::{Items, NoMemory, Span};
use lint_core::{Block, Cond, Entry, Term};
use std::alloc::Global;

/// A subquery of a condition.
#[derive(Drop)]
pub struct Subquery<'a> {
    /// The tables of each level that its condition sees, its own last.
    pub tables: Items<Items<u32>>,
    pub block: &'a Block,
    /// What it selects.
    pub item: &'a Term,
    /// That of a scalar subquery, from ( to ); of NOT IN that of the predicate.
    pub place: Span,
}

/// Where a search ends: at a subquery, or with so much left of the number.
#[derive(Drop)]
pub(crate) enum Search<'a> {
    Found(Subquery<'a>),
    Left(u32),
}

fn copy_numbers(alloc: Global, numbers: &[u32]) -> Result<Items<u32>, NoMemory>
    ensures { IfOk result (λ copies. copies ≡ numbers.now) }
{
    let mut copies = Items::new(alloc);
    for number in numbers {
        copies.push(*number)?;
    }
    Ok(copies)
}

fn tables_of(alloc: Global, entries: &[Entry]) -> Result<Items<u32>, NoMemory>
    ensures { IfOk result (λ tables. tables ≡ tables_of entries.now) }
{
    let mut tables = Items::new(alloc);
    for entry in entries {
        tables.push(entry.table)?;
    }
    Ok(tables)
}

/// The tables of the levels that a block's condition sees.
fn tables_inside(
    alloc: Global,
    tables: &[Items<u32>],
    entries: &[Entry],
) -> Result<Items<Items<u32>>, NoMemory>
    ensures { IfOk result (λ inside. inside ≡ tables.now ++ tables_of entries.now ∷ []) }
{
    let mut inside = Items::new(alloc);
    for level in tables {
        inside.push(copy_numbers(alloc, level.as_slice())?)?;
    }
    inside.push(tables_of(alloc, entries)?)?;
    Ok(inside)
}

fn found<'a>(
    alloc: Global,
    tables: &[Items<u32>],
    block: &'a Block,
    item: &'a Term,
    place: Span,
) -> Result<Search<'a>, NoMemory>
    ensures { IfOk result (λ search.
        reached search ≡ Ok (whole tables.now block.now item.now place)) }
{
    Ok(Search::Found(Subquery {
        tables: tables_inside(alloc, tables, block.entries.as_slice())?,
        block,
        item,
        place,
    }))
}

#[cycle(scalars)]
fn seek_scalar<'a>(
    alloc: Global,
    cond: &'a Cond,
    tables: &[Items<u32>],
    number: u32,
) -> Result<Search<'a>, NoMemory>
    ensures { IfOk result (λ search.
        reached search ≡ item_at (whole_scalars cond.now tables.now) number) }
{
    match cond {
        Cond::True => Ok(Search::Left(number)),
        Cond::False => Ok(Search::Left(number)),
        Cond::Compare { .. } => Ok(Search::Left(number)),
        Cond::IsNull { .. } => Ok(Search::Left(number)),
        Cond::And(parts) => seek_scalar_in_each(alloc, parts.as_slice(), tables, number),
        Cond::Or(parts) => seek_scalar_in_each(alloc, parts.as_slice(), tables, number),
        Cond::Not(part) => seek_scalar(alloc, part.get(), tables, number),
        Cond::Exists { block, .. } => seek_scalar_inside(alloc, block.get(), tables, number),
        Cond::In { block, .. } => seek_scalar_inside(alloc, block.get(), tables, number),
        Cond::Scalar { block, item, .. } => {
            match seek_scalar_inside(alloc, block.get(), tables, number) {
                Ok(Search::Left(0)) => found(alloc, tables, block.get(), item, block.get().span),
                Ok(Search::Left(more)) => Ok(Search::Left(more - 1)),
                Ok(Search::Found(subquery)) => Ok(Search::Found(subquery)),
                Err(error) => Err(error),
            }
        }
    }
}

#[cycle(scalars)]
fn seek_scalar_in_each<'a>(
    alloc: Global,
    parts: &'a [Cond],
    tables: &[Items<u32>],
    number: u32,
) -> Result<Search<'a>, NoMemory>
    ensures { IfOk result (λ search.
        reached search
        ≡ item_at (flat_map (λ part. whole_scalars part tables.now) parts.now) number) }
{
    let mut left = number;
    for part in parts {
        match seek_scalar(alloc, part, tables, left) {
            Ok(Search::Left(more)) => left = more,
            Ok(Search::Found(subquery)) => return Ok(Search::Found(subquery)),
            Err(error) => return Err(error),
        }
    }
    Ok(Search::Left(left))
}

#[cycle(scalars)]
fn seek_scalar_inside<'a>(
    alloc: Global,
    block: &'a Block,
    tables: &[Items<u32>],
    number: u32,
) -> Result<Search<'a>, NoMemory>
    ensures { let inside = tables.now ++ tables_of (out-Block block.now).entries ∷ [] in
        IfOk result (λ search.
        reached search ≡ item_at (whole_scalars (out-Block block.now).cond inside) number) }
{
    let inside = tables_inside(alloc, tables, block.entries.as_slice())?;
    seek_scalar(alloc, &block.cond, inside.as_slice(), number)
}

fn is_column(term: &Term) -> bool
    ensures { result ≡ is_column term.now }
{
    matches!(term, Term::Cell { .. })
}

#[cycle(not_ins)]
fn seek_not_in<'a>(
    alloc: Global,
    cond: &'a Cond,
    tables: &[Items<u32>],
    number: u32,
) -> Result<Search<'a>, NoMemory>
    ensures { IfOk result (λ search.
        reached search ≡ item_at (whole_not_ins cond.now tables.now) number) }
{
    match cond {
        Cond::True => Ok(Search::Left(number)),
        Cond::False => Ok(Search::Left(number)),
        Cond::Compare { .. } => Ok(Search::Left(number)),
        Cond::IsNull { .. } => Ok(Search::Left(number)),
        Cond::And(parts) => seek_not_in_each(alloc, parts.as_slice(), tables, number),
        Cond::Or(parts) => seek_not_in_each(alloc, parts.as_slice(), tables, number),
        Cond::Not(part) => seek_not_in(alloc, part.get(), tables, number),
        Cond::Exists { block, .. } => seek_not_in_inside(alloc, block.get(), tables, number),
        Cond::Scalar { block, .. } => seek_not_in_inside(alloc, block.get(), tables, number),
        Cond::In {
            block,
            item,
            negated,
            span,
            ..
        } => {
            if !*negated || !is_column(item) {
                return seek_not_in_inside(alloc, block.get(), tables, number);
            }
            if number == 0 {
                return found(alloc, tables, block.get(), item, *span);
            }
            seek_not_in_inside(alloc, block.get(), tables, number - 1)
        }
    }
}

#[cycle(not_ins)]
fn seek_not_in_each<'a>(
    alloc: Global,
    parts: &'a [Cond],
    tables: &[Items<u32>],
    number: u32,
) -> Result<Search<'a>, NoMemory>
    ensures { IfOk result (λ search.
        reached search
        ≡ item_at (flat_map (λ part. whole_not_ins part tables.now) parts.now) number) }
{
    let mut left = number;
    for part in parts {
        match seek_not_in(alloc, part, tables, left) {
            Ok(Search::Left(more)) => left = more,
            Ok(Search::Found(subquery)) => return Ok(Search::Found(subquery)),
            Err(error) => return Err(error),
        }
    }
    Ok(Search::Left(left))
}

#[cycle(not_ins)]
fn seek_not_in_inside<'a>(
    alloc: Global,
    block: &'a Block,
    tables: &[Items<u32>],
    number: u32,
) -> Result<Search<'a>, NoMemory>
    ensures { let inside = tables.now ++ tables_of (out-Block block.now).entries ∷ [] in
        IfOk result (λ search.
        reached search ≡ item_at (whole_not_ins (out-Block block.now).cond inside) number) }
{
    let inside = tables_inside(alloc, tables, block.entries.as_slice())?;
    seek_not_in(alloc, &block.cond, inside.as_slice(), number)
}

impl<'a> Search<'a> {
    fn subquery(self) -> Option<Subquery<'a>>
        ensures { option_map whole_of result ≡ result_ok (reached self.entry) }
    {
        match self {
            Search::Found(subquery) => Some(subquery),
            Search::Left(_) => None,
        }
    }
}

/// The scalar subquery of this number in a condition that stands in levels with these tables.
/// They count from 0 in the order of their right parentheses, those in other subqueries too.
/// `NoMemory` where there is none for the tables.
pub fn scalar_subquery<'a>(
    alloc: Global,
    cond: &'a Cond,
    tables: &[Items<u32>],
    number: u32,
) -> Result<Option<Subquery<'a>>, NoMemory>
    ensures whole { IfOk result (λ found.
        option_map whole_of found ≡ slice_get (whole_scalars cond.now tables.now) number) }
    ensures listed { IfOk result (λ found.
        option_map subquery_of found ≡ slice_get (scalar_subqueries cond.now tables.now) number) }
{
    match seek_scalar(alloc, cond, tables, number) {
        Ok(search) => Ok(search.subquery()),
        Err(error) => Err(error),
    }
}

/// The NOT IN subquery of this number, of those that select a column, in a condition that stands
/// in levels with these tables. They count from 0 in the order of their left parentheses, those in
/// other subqueries too. `NoMemory` where there is none for the tables.
pub fn not_in_subquery<'a>(
    alloc: Global,
    cond: &'a Cond,
    tables: &[Items<u32>],
    number: u32,
) -> Result<Option<Subquery<'a>>, NoMemory>
    ensures whole { IfOk result (λ found.
        option_map whole_of found ≡ slice_get (whole_not_ins cond.now tables.now) number) }
    ensures listed { IfOk result (λ found.
        option_map subquery_of found ≡ slice_get (not_in_subqueries cond.now tables.now) number) }
{
    match seek_not_in(alloc, cond, tables, number) {
        Ok(search) => Ok(search.subquery()),
        Err(error) => Err(error),
    }
}

/// The subqueries with their whole blocks are, without the entries of the blocks, those that
/// lint_core lists. The function does nothing: its contract is a law about the definitions.
pub fn whole_subqueries_are_listed()
    ensures scalars { (cond : Condition) (tables : List (List ℕ))
        → map without_entries (whole_scalars cond tables) ≡ scalar_subqueries cond tables }
    ensures not_ins { (cond : Condition) (tables : List (List ℕ))
        → map without_entries (whole_not_ins cond tables) ≡ not_in_subqueries cond tables }
{}
