//! Conditions and SELECTs, which hold each other.
ghost use Rattle.std.specs.Prelude.{◌≡◌, ◌++◌, ◌<◌, ◌^◌, IfOk, map};
ghost use Rattle.sql_tree.specs.declared.select.CondTree.TheOpen.{CondTree-F};
ghost use Rattle.sql_bind.specs.Bound.{Gives, all_bound};
ghost use Rattle.sql_bind.specs.Conditions.{cond_step};
ghost use Rattle.sql_bind.specs.Selects.{conjunction, bind_on, bind_ons, bind_filter, bind_cond, bind_select};
ghost use Rattle.sql_bind.specs.inner.Levels.{levels_seen};
ghost use Rattle.sql_bind.specs.inner.Meanings.{GivesOption, option_list, entry_meaning, filter_meaning, select_meaning};

use crate::levels::Levels;
use crate::lists::with;
use crate::predicates::{
    all_of, bind_between, bind_in_list, compare, compares_selected, is_null, matching, one_column,
};
use crate::selects::{BoundSelect, bind_entries, bind_items};
use crate::terms::bind_term;
use lint_base::{Items, NoMemory, Span, TextStop};
use lint_core::{Block, Cond, Entry, Table};
use lint_tables::Op;
use sql_tree::{CondTree, EntryTree, SelectTree, TermTree};
use sqlite_items::Boxed;
use std::alloc::Global;

/// A condition, at the FROM lists around it.
#[cycle(bind)]
#[tactic(auto, unfolding(crate::specs::Bound::and_then))]
pub(crate) fn bind_condition(
    alloc: Global,
    tables: &[Table],
    tree: &CondTree,
    levels: &Levels,
) -> Result<Cond, TextStop>
    ensures { Gives (bind_cond tables.now (levels_seen levels.now) tree.now) result }
{
    match tree {
        CondTree::And(parts) => Ok(Cond::And(bind_parts(alloc, tables, parts.as_slice(), levels)?)),
        CondTree::Or(parts) => Ok(Cond::Or(bind_parts(alloc, tables, parts.as_slice(), levels)?)),
        CondTree::Not(part) => {
            let part = bind_condition(alloc, tables, part.get(), levels)?;
            Ok(Cond::Not(Boxed::new(alloc, part)?))
        }
        CondTree::Compare {
            op,
            left,
            right,
            span,
        } => compare(alloc, tables, levels, *op, left, right, *span),
        CondTree::Scalar {
            op,
            left,
            select,
            span,
        } => bind_scalar(alloc, tables, select.get(), levels, *op, left, *span),
        CondTree::IsNull {
            term,
            negated,
            span,
        } => is_null(alloc, tables, levels, term, *negated, *span),
        CondTree::Between {
            term,
            low,
            high,
            negated,
            span,
        } => bind_between(alloc, tables, levels, term, low, high, *negated, *span),
        CondTree::InList {
            term,
            values,
            negated,
            span,
        } => bind_in_list(alloc, tables, levels, term, values, *negated, *span),
        CondTree::InSelect {
            term,
            select,
            negated,
            span,
        } => bind_in_select(alloc, tables, select.get(), levels, term, *negated, *span),
        CondTree::Exists { select, span } => {
            let BoundSelect { block, .. } = bind_select(alloc, tables, select.get(), levels)?;
            Ok(Cond::Exists {
                block: Boxed::new(alloc, block)?,
                span: *span,
            })
        }
    }
}

/// The parts of a condition, from left to right.
#[cycle(bind)]
#[tactic(auto, unfolding(crate::specs::Bound::and_then, crate::specs::Bound::all_bound))]
fn bind_parts(
    alloc: Global,
    tables: &[Table],
    parts: &[CondTree],
    levels: &Levels,
) -> Result<Items<Cond>, TextStop>
    ensures { Gives (all_bound
        (map (bind_cond tables.now (levels_seen levels.now)) parts.now)) result }
{
    let mut conds = Items::new(alloc);
    for part in parts {
        let cond = bind_condition(alloc, tables, part, levels)?;
        conds.push(cond)?;
    }
    Ok(conds)
}

/// A comparison with a subquery.
#[cycle(bind)]
#[tactic(auto, unfolding(crate::specs::Bound::and_then))]
fn bind_scalar(
    alloc: Global,
    tables: &[Table],
    select: &SelectTree,
    levels: &Levels,
    op: Op,
    left: &TermTree,
    span: Span,
) -> Result<Cond, TextStop>
    ensures { Gives (cond_step tables.now
        (CondTree-F.Scalar op left.now (select_meaning tables.now select.now) span)
        (levels_seen levels.now)) result }
{
    let left = bind_term(alloc, tables, left, levels)?;
    let bound = bind_select(alloc, tables, select, levels)?;
    let item = one_column(alloc, &bound)?;
    let goes = compares_selected(tables, levels, op, &left, &bound, &item);
    let BoundSelect { block, .. } = bound;
    let block = Boxed::new(alloc, block)?;
    matching(
        goes,
        span,
        Cond::Scalar {
            op,
            left,
            block,
            item,
            span,
        },
    )
}

/// IN over a subquery, or NOT IN.
#[cycle(bind)]
#[tactic(auto, unfolding(crate::specs::Bound::and_then))]
fn bind_in_select(
    alloc: Global,
    tables: &[Table],
    select: &SelectTree,
    levels: &Levels,
    term: &TermTree,
    negated: bool,
    span: Span,
) -> Result<Cond, TextStop>
    ensures { Gives (cond_step tables.now
        (CondTree-F.InSelect term.now (select_meaning tables.now select.now) negated span)
        (levels_seen levels.now)) result }
{
    let term = bind_term(alloc, tables, term, levels)?;
    let bound = bind_select(alloc, tables, select, levels)?;
    let item = one_column(alloc, &bound)?;
    let goes = compares_selected(tables, levels, Op::Eq, &term, &bound, &item);
    let BoundSelect { block, .. } = bound;
    let block = Boxed::new(alloc, block)?;
    matching(
        goes,
        span,
        Cond::In {
            term,
            block,
            item,
            negated,
            span,
        },
    )
}

/// A SELECT, at the FROM lists around it.
#[cycle(bind)]
#[tactic(auto, unfolding(crate::specs::Bound::and_then))]
pub(crate) fn bind_select(
    alloc: Global,
    tables: &[Table],
    tree: &SelectTree,
    outer: &Levels,
) -> Result<BoundSelect, TextStop>
    ensures { Gives (bind_select tables.now (levels_seen outer.now) tree.now) result }
{
    let from = tree.from.as_slice();
    let entries = bind_entries(alloc, tables, from)?;
    let selected = bind_items(
        alloc,
        tables,
        entries.as_slice(),
        outer,
        tree.items.as_slice(),
    )?;
    let ons = bind_ons(alloc, tables, from, entries.as_slice(), outer)?;
    let filter = bind_filter(alloc, tables, &tree.filter, entries.as_slice(), outer)?;
    let cond = conjunction(with(ons, filter)?);
    let block = Block {
        entries,
        cond,
        span: tree.span,
    };
    Ok(BoundSelect { selected, block })
}

/// The AND of conditions. One stands alone, and none is true.
fn conjunction(conds: Items<Cond>) -> Cond
    ensures { result ≡ conjunction conds }
{
    if conds.as_slice().is_empty() {
        return Cond::True;
    }
    all_of(conds)
}

/// The conditions of ON, in text order.
#[cycle(bind)]
#[tactic(auto, unfolding(crate::specs::Bound::and_then, crate::specs::Selects::bind_ons))]
fn bind_ons(
    alloc: Global,
    tables: &[Table],
    trees: &[EntryTree],
    entries: &[Entry],
    outer: &Levels,
) -> Result<Items<Cond>, TextStop>
    ensures { Gives (bind_ons tables.now entries.now (levels_seen outer.now) 0
        (map (entry_meaning tables.now) trees.now)) result }
{
    let mut conds = Items::new(alloc);
    for (number, tree) in trees.iter().enumerate() {
        let cond = bind_on(alloc, tables, tree, entries, number, outer)?;
        conds = with(conds, cond)?;
    }
    Ok(conds)
}

/// The condition of ON of an entry, which sees the entries of its joined group up to its own.
#[cycle(bind)]
#[tactic(auto, unfolding(crate::specs::Bound::and_then))]
fn bind_on(
    alloc: Global,
    tables: &[Table],
    tree: &EntryTree,
    entries: &[Entry],
    number: usize,
    outer: &Levels,
) -> Result<Option<Cond>, TextStop>
    requires { number < 2 ^ 63 }
    ensures { GivesOption
        (bind_on tables.now entries.now (levels_seen outer.now) number
        (entry_meaning tables.now tree.now)) result }
{
    match &tree.on {
        None => Ok(None),
        Some(on) => {
            let levels = Levels::Inside {
                entries,
                first: tree.first as usize,
                end: number + 1,
                outer: &*outer,
            };
            let cond = bind_condition(alloc, tables, on, &levels)?;
            Ok(Some(cond))
        }
    }
}

/// The condition of WHERE, which sees all entries.
#[cycle(bind)]
#[tactic(auto, unfolding(crate::specs::Bound::and_then))]
fn bind_filter(
    alloc: Global,
    tables: &[Table],
    filter: &Option<CondTree>,
    entries: &[Entry],
    outer: &Levels,
) -> Result<Option<Cond>, TextStop>
    ensures { GivesOption
        (bind_filter tables.now entries.now (levels_seen outer.now)
        (filter_meaning tables.now filter.now)) result }
{
    match filter {
        None => Ok(None),
        Some(filter) => {
            let levels = Levels::whole(entries, &*outer);
            let cond = bind_condition(alloc, tables, filter, &levels)?;
            Ok(Some(cond))
        }
    }
}
