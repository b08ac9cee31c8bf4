//! What a SELECT selects, and from where.
ghost use Rattle.std.specs.Prelude.{◌≡◌, ◌++◌, ◌<◌, ◌^◌, [], ◌∷◌, false, List, IfOk, length, map, unwrap_or, option_map};
ghost use Rattle.lint_core.specs.declared.schema.Table.{Table};
ghost use Rattle.sql_tree.specs.declared.select.EntryTree.{out-EntryTree};
ghost use Rattle.sql_tree.specs.declared.select.ItemTree.TheVariants as tree;
ghost use Rattle.sql_bind.specs.Bound.{Gives};
ghost use Rattle.sql_bind.specs.Names.{columns_of, columns_at, table_place, entry_place};
ghost use Rattle.sql_bind.specs.Conditions.{tree_span};
ghost use Rattle.sql_bind.specs.Selects.{aliased_span, visible_name, entry_span, of_table, bind_entry, bind_entries, column_items, star_items, at_most_256, bind_item, bind_items, entry_items};
ghost use Rattle.sql_bind.specs.inner.Levels.{levels_seen};
ghost use Rattle.sql_bind.specs.inner.Meanings.{entry_meaning};

use crate::bound::{counted, refused, too_many};
use crate::levels::Levels;
use crate::lists::joined;
use crate::predicates::tree_span;
use crate::terms::{bind_term, columns_of, entry_place, table_place};
use lint_base::{Fault, Items, NoMemory, Span, Str, TextStop};
use lint_core::{Block, Entry, Item, Table, Term};
use sql_tree::{EntryTree, ItemTree, NameTree, TermTree};
use std::alloc::Global;

/// The most entries of a FROM list.
const MOST_ENTRIES: usize = 16;

/// The most items of a SELECT.
const MOST_ITEMS: usize = 256;

/// A selected item, with the alias that it was given.
#[derive(Drop)]
pub(crate) struct Selected {
    pub item: Item,
    pub alias: Option<Str>,
}

/// A SELECT, bound.
#[derive(Drop)]
pub(crate) struct BoundSelect {
    pub selected: Items<Selected>,
    pub block: Block,
}

/// From a part to its alias, where there is one.
fn aliased_span(at: Span, alias: &Option<NameTree>) -> Span
    ensures { result ≡ aliased_span at alias.now }
{
    match alias {
        Some(alias) => Span {
            from: at.from,
            to: alias.span.to,
        },
        None => at,
    }
}

/// The visible name of an entry: its alias or else its table's name.
fn visible_name<'a>(table: &'a NameTree, alias: &'a Option<NameTree>) -> &'a NameTree
    ensures { result.now ≡ unwrap_or alias.now table.now }
{
    match alias {
        Some(alias) => alias,
        None => table,
    }
}

/// An entry after others, of a table that is there, with a name of its own.
fn of_table(
    alloc: Global,
    tables: &[Table],
    earlier: &[Entry],
    tree: &EntryTree,
    span: Span,
) -> Result<Entry, TextStop>
    requires { span ≡ entry_span (entry_meaning tables.now tree.now) }
    ensures { Gives (of_table tables.now earlier.now (entry_meaning tables.now tree.now)
        (table_place tables.now (out-EntryTree tree.now).table.text)) result }
{
    let Some(table) = table_place(tables, &tree.table.text) else {
        return Err(refused(Fault::UnknownTable, tree.table.span));
    };
    let name = visible_name(&tree.table, &tree.alias);
    if entry_place(earlier, &name.text).is_some() {
        return Err(refused(Fault::DuplicateName, name.span));
    }
    Ok(Entry {
        table: counted(table)?,
        name: name.text.copy(alloc)?,
        span,
    })
}

/// An entry after others, which are fewer than 16.
fn bind_entry(
    alloc: Global,
    tables: &[Table],
    earlier: &[Entry],
    tree: &EntryTree,
) -> Result<Entry, TextStop>
    ensures { Gives (bind_entry tables.now earlier.now
        (entry_meaning tables.now tree.now)) result }
{
    let span = aliased_span(tree.table.span, &tree.alias);
    if earlier.len() >= MOST_ENTRIES {
        return Err(too_many(17, span));
    }
    of_table(alloc, tables, earlier, tree, span)
}

/// The entries of FROM, from left to right.
#[tactic(auto, unfolding(crate::specs::Selects::bind_entries, crate::specs::Bound::and_then))]
pub(crate) fn bind_entries(
    alloc: Global,
    tables: &[Table],
    trees: &[EntryTree],
) -> Result<Items<Entry>, TextStop>
    ensures { Gives (bind_entries tables.now []
        (map (entry_meaning tables.now) trees.now)) result }
{
    let mut entries = Items::new(alloc);
    let mut rest = trees;
    while let Some((tree, more)) = rest.split_first() {
        let entry = bind_entry(alloc, tables, entries.as_slice(), tree)?;
        entries.push(entry)?;
        rest = more;
    }
    Ok(entries)
}

/// The items that stand for the columns of the entry of a number.
#[tactic(auto, unfolding(crate::specs::Selects::column_items))]
fn entry_columns(
    alloc: Global,
    tables: &[Table],
    entry: &Entry,
    level: u32,
    number: u32,
    at: Span,
) -> Result<Items<Selected>, NoMemory>
    ensures { IfOk result
        (λ items. items ≡ column_items tables.now level number at 0
        (columns_of tables.now entry.now)) }
{
    let mut items = Items::new(alloc);
    let columns = columns_of(tables, entry);
    for (column, _) in columns.iter().enumerate() {
        let term = Term::Cell {
            level,
            entry: number,
            column: counted(column)?,
            plus: 0,
        };
        let item = Item {
            term,
            star: true,
            span: at,
        };
        items.push(Selected { item, alias: None })?;
    }
    Ok(items)
}

/// The items that stand for the columns of all entries.
#[tactic(auto, unfolding(crate::specs::Selects::star_items))]
fn all_columns(
    alloc: Global,
    tables: &[Table],
    entries: &[Entry],
    level: u32,
    at: Span,
) -> Result<Items<Selected>, NoMemory>
    ensures { IfOk result (λ items. items ≡ star_items tables.now level at 0 entries.now) }
{
    let mut items = Items::new(alloc);
    for (number, entry) in entries.iter().enumerate() {
        let columns = entry_columns(alloc, tables, entry, level, counted(number)?, at)?;
        items = joined(items, columns)?;
    }
    Ok(items)
}

/// The alias as a text.
fn alias_text(alloc: Global, alias: &Option<NameTree>) -> Result<Option<Str>, NoMemory>
    ensures { IfOk result (λ text. text ≡ option_map (λ name. name.text) alias.now) }
{
    match alias {
        Some(alias) => Ok(Some(alias.text.copy(alloc)?)),
        None => Ok(None),
    }
}

/// A written item, with its alias.
fn written_item(
    alloc: Global,
    tree: &TermTree,
    alias: &Option<NameTree>,
    term: Term,
) -> Result<Items<Selected>, NoMemory>
    ensures { IfOk result
        (λ items. items ≡ record {
          item = record {
            term = term;
            star = false;
            span = aliased_span
                (tree_span tree.now) alias.now;
          };
          alias = option_map (λ name. name.text) alias.now;
        }
        ∷ []) }
{
    let span = aliased_span(tree_span(tree), alias);
    let alias = alias_text(alloc, alias)?;
    let item = Item {
        term,
        star: false,
        span,
    };
    let mut items = Items::new(alloc);
    items.push(Selected { item, alias })?;
    Ok(items)
}

/// The items that stand for the columns of the entry of a number.
#[tactic(auto, unfolding(crate::specs::Selects::column_items))]
fn numbered_columns(
    alloc: Global,
    tables: &[Table],
    entries: &[Entry],
    number: usize,
    level: u32,
    at: Span,
) -> Result<Items<Selected>, NoMemory>
    ensures { IfOk result
        (λ items. items ≡ column_items tables.now level number at 0
        (columns_at tables.now entries.now number)) }
{
    match entries.get(number) {
        Some(entry) => entry_columns(alloc, tables, entry, level, counted(number)?, at),
        None => Ok(Items::new(alloc)),
    }
}

/// The items, if with so many before them there are at most 256.
fn at_most_256(count: usize, at: Span, items: Items<Selected>) -> Result<Items<Selected>, TextStop>
    ensures { (schema : List Table) → Gives (at_most_256 schema count at items) result }
{
    match count.checked_add(items.as_slice().len()) {
        Some(total) if total <= MOST_ITEMS => Ok(items),
        _ => Err(too_many(257, at)),
    }
}

/// `*`: all columns of all entries.
fn all_items(
    alloc: Global,
    tables: &[Table],
    entries: &[Entry],
    outer: &Levels,
    count: usize,
    at: Span,
) -> Result<Items<Selected>, TextStop>
    ensures { Gives (bind_item tables.now entries.now (levels_seen outer.now) count
        (tree.Star at)) result }
{
    let items = all_columns(alloc, tables, entries, outer.depth()?, at)?;
    at_most_256(count, at, items)
}

/// A name and `.*`: all columns of an entry.
fn entry_items(
    alloc: Global,
    tables: &[Table],
    entries: &[Entry],
    outer: &Levels,
    count: usize,
    table: &NameTree,
    at: Span,
) -> Result<Items<Selected>, TextStop>
    ensures { Gives (entry_items tables.now entries.now (levels_seen outer.now) count table.now at
        (entry_place entries.now table.now.text)) result }
{
    let Some(number) = entry_place(entries, &table.text) else {
        return Err(refused(Fault::UnknownTable, table.span));
    };
    let items = numbered_columns(alloc, tables, entries, number, outer.depth()?, at)?;
    at_most_256(count, at, items)
}

/// A column or a literal, after so many items.
#[tactic(auto, unfolding(crate::specs::Bound::and_then))]
fn one_item(
    alloc: Global,
    tables: &[Table],
    entries: &[Entry],
    outer: &Levels,
    count: usize,
    term: &TermTree,
    alias: &Option<NameTree>,
) -> Result<Items<Selected>, TextStop>
    ensures { Gives (bind_item tables.now entries.now (levels_seen outer.now) count
        (tree.Term term.now alias.now)) result }
{
    if count >= MOST_ITEMS {
        return Err(too_many(257, aliased_span(tree_span(term), alias)));
    }
    let levels = Levels::whole(entries, &*outer);
    let bound = bind_term(alloc, tables, term, &levels)?;
    Ok(written_item(alloc, term, alias, bound)?)
}

/// An item, after so many.
fn bind_item(
    alloc: Global,
    tables: &[Table],
    entries: &[Entry],
    outer: &Levels,
    count: usize,
    item: &ItemTree,
) -> Result<Items<Selected>, TextStop>
    ensures { Gives (bind_item tables.now entries.now
        (levels_seen outer.now) count item.now) result }
{
    match item {
        ItemTree::Star(at) => all_items(alloc, tables, entries, outer, count, *at),
        ItemTree::StarOf { table, star } => entry_items(
            alloc, tables, entries, outer, count, table, *star,
        ),
        ItemTree::Term { term, alias } => one_item(
            alloc, tables, entries, outer, count, term, alias,
        ),
    }
}

/// The items of a SELECT, from left to right.
#[tactic(auto, unfolding(crate::specs::Selects::bind_items, crate::specs::Bound::and_then))]
pub(crate) fn bind_items(
    alloc: Global,
    tables: &[Table],
    entries: &[Entry],
    outer: &Levels,
    trees: &[ItemTree],
) -> Result<Items<Selected>, TextStop>
    ensures { Gives (bind_items tables.now entries.now
        (levels_seen outer.now) 0 trees.now) result }
{
    let mut items = Items::new(alloc);
    let mut rest = trees;
    while let Some((tree, more)) = rest.split_first() {
        let part = bind_item(alloc, tables, entries, outer, items.as_slice().len(), tree)?;
        items = joined(items, part)?;
        rest = more;
    }
    Ok(items)
}
