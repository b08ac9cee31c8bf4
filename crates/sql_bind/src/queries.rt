//! Queries.
ghost use Rattle.std.specs.Prelude.{◌≡◌, true, IfOk, option_copied, map};
ghost use Rattle.std.specs.List.{find};
ghost use Rattle.lint_core.specs.Fits.{query_fits};
ghost use Rattle.sql_tree.specs.declared.select.OrderTree.TheVariants as key;
ghost use Rattle.sql_bind.specs.Bound.{Gives};
ghost use Rattle.sql_bind.specs.Conditions.{Selected};
ghost use Rattle.sql_bind.specs.Queries.{key_of, has_alias, bind_column_key, bind_key, bind_keys, limited_query, bind_query};
ghost use Rattle.sql_bind.specs.inner.Meanings.{GivesOption, option_list};
ghost use Rattle.sql_bind.specs.inner.Items.{item_at};
ghost use Rattle.sql_bind.specs.Shape.{query_shaped};

use crate::bound::{refused, too_many};
use crate::conditions::bind_select;
use crate::levels::Levels;
use crate::lists::with;
use crate::selects::{BoundSelect, Selected};
use crate::terms::{bind_term, is_same};
use lint_base::{Fault, Items, NoMemory, Span, Str, TextStop};
use lint_core::{Item, Query, Schema, Table, Term};
use sql_tree::{OrderTree, QueryTree, TermTree};
use std::alloc::Global;

/// A column orders. A literal leaves nothing.
fn key_of(term: Term) -> Option<Term>
    ensures { option_list result ≡ key_of term }
{
    match term {
        Term::Cell { .. } => Some(term),
        _ => None,
    }
}

/// What an item orders by.
fn item_key(alloc: Global, selected: &Selected) -> Result<Option<Term>, NoMemory>
    ensures { IfOk result (λ key. option_list key ≡ key_of selected.now.item.term) }
{
    Ok(key_of(selected.item.term.copy(alloc)?))
}

/// The item of a number, which counts from 1.
fn item_at(items: &[Selected], number: i64) -> Option<&Selected>
    ensures { option_copied result ≡ item_at items.now number }
{
    if number < 1 {
        return None;
    }
    items.get((number - 1) as usize)
}

fn has_alias(selected: &Selected, name: &Str) -> bool
    ensures { result ≡ has_alias name.now selected.now }
{
    match &selected.alias {
        Some(alias) => is_same(alias, name),
        None => false,
    }
}

/// The first item of an alias.
fn item_named<'a>(items: &'a [Selected], name: &Str) -> Option<&'a Selected>
    ensures { option_copied result ≡ find (has_alias name.now) items.now }
{
    items.iter().find(|item| has_alias(item, name))
}

/// An order key that is a column of the FROM list.
#[tactic(auto, using(crate::proofs::LevelTables::seen_outside), unfolding(crate::specs::Bound::and_then))]
fn column_key(
    alloc: Global,
    tables: &[Table],
    select: &BoundSelect,
    term: &TermTree,
) -> Result<Option<Term>, TextStop>
    ensures { GivesOption (bind_column_key tables.now select.now term.now) result }
{
    let levels = Levels::whole(select.block.entries.as_slice(), &Levels::Outside);
    let bound = bind_term(alloc, tables, term, &levels)?;
    Ok(key_of(bound))
}

/// An order key by name: the first item of that alias, or else a column.
fn named_key(
    alloc: Global,
    tables: &[Table],
    select: &BoundSelect,
    term: &TermTree,
) -> Result<Option<Term>, TextStop>
    ensures { GivesOption (bind_key tables.now select.now (key.Column term.now)) result }
{
    if let TermTree::Column {
        table: None,
        name,
        ..
    } = term
    {
        if let Some(item) = item_named(select.selected.as_slice(), &name.text) {
            return Ok(item_key(alloc, item)?);
        }
    }
    column_key(alloc, tables, select, term)
}

/// An order key.
fn bind_key(
    alloc: Global,
    tables: &[Table],
    select: &BoundSelect,
    tree: &OrderTree,
) -> Result<Option<Term>, TextStop>
    ensures { GivesOption (bind_key tables.now select.now tree.now) result }
{
    match tree {
        OrderTree::Place { number, span } => match item_at(select.selected.as_slice(), *number) {
            Some(item) => Ok(item_key(alloc, item)?),
            None => Err(refused(Fault::UnknownColumn, *span)),
        },
        OrderTree::Column(term) => named_key(alloc, tables, select, term),
    }
}

/// The keys of ORDER BY, from left to right.
#[tactic(auto, unfolding(crate::specs::Queries::bind_keys, crate::specs::Bound::and_then))]
fn bind_keys(
    alloc: Global,
    tables: &[Table],
    select: &BoundSelect,
    trees: &[OrderTree],
) -> Result<Items<Term>, TextStop>
    ensures { Gives (bind_keys tables.now select.now trees.now) result }
{
    let mut keys = Items::new(alloc);
    let mut rest = trees;
    while let Some((tree, more)) = rest.split_first() {
        let key = bind_key(alloc, tables, select, tree)?;
        keys = with(keys, key)?;
        rest = more;
    }
    Ok(keys)
}

/// The items without their aliases.
fn items_of(alloc: Global, selected: Items<Selected>) -> Result<Items<Item>, NoMemory>
    ensures { IfOk result (λ items. items ≡ map (λ s. s.item) selected) }
{
    let mut items = Items::new(alloc);
    for one in selected.into_vec() {
        items.push(one.item)?;
    }
    Ok(items)
}

/// The query, if it has at most 65,536 conditions.
fn limited_query(
    alloc: Global,
    distinct: Option<Span>,
    at: Span,
    select: BoundSelect,
    order: Items<Term>,
) -> Result<Query, TextStop>
    ensures { Gives (limited_query distinct at select order) result }
{
    if !select.block.cond.is_within_limit() {
        return Err(too_many(65_537, at));
    }
    let BoundSelect { selected, block } = select;
    let items = items_of(alloc, selected)?;
    Ok(Query {
        distinct,
        items,
        block,
        order,
    })
}

/// A query over tables.
#[tactic(auto, using(crate::proofs::LevelTables::seen_outside), unfolding(crate::specs::Bound::and_then))]
fn bound_query(alloc: Global, tables: &[Table], tree: &QueryTree) -> Result<Query, TextStop>
    ensures { Gives (bind_query tables.now tree.now) result }
{
    let select = bind_select(alloc, tables, &tree.select, &Levels::Outside)?;
    let order = bind_keys(alloc, tables, &select, tree.order.as_slice())?;
    limited_query(alloc, tree.select.distinct, tree.select.span, select, order)
}

/// The query that a tree of the grammar's shape binds to over a schema, or the first of the rules
/// on names and kinds that it breaks: of each SELECT the entries of FROM are looked at first, then
/// the items, then the ON conditions and WHERE; then ORDER BY, and at last the number of
/// conditions. `NoMemory` where there is no memory for the query.
pub fn bind_query(alloc: Global, schema: &Schema, tree: &QueryTree) -> Result<Query, TextStop>
    requires shaped { query_shaped tree.now ≡ true }
    ensures bound { Gives (bind_query schema.now tree.now) result }
    ensures fits { IfOk result (λ query. query_fits schema.now query ≡ true) }
{
    bound_query(alloc, schema.tables().as_slice(), tree)
}
