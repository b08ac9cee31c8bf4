//! Names of columns, and terms.
ghost use Rattle.std.specs.Prelude.{◌≡◌, ◌+◌, IfOk, length};
ghost use Rattle.std.specs.Str.{bytes_eq};
ghost use Rattle.sql_bind.specs.Bound.{Gives};
ghost use Rattle.lint_core.specs.Fits.{term_kind, term_fits};
ghost use Rattle.sql_bind.specs.Names.{table_place, column_place, entry_place, columns_of, columns_at, places_named, find_unqualified, find_qualified, in_entry, find_column, level_tables};
ghost use Rattle.sql_bind.specs.Terms as terms;
ghost use Rattle.sql_bind.specs.inner.Found.{found_among, found_with};
ghost use Rattle.sql_bind.specs.inner.Levels.{levels_seen};

use crate::bound::{counted, next, refused};
use crate::levels::{Levels, seen};
use lint_base::{Fault, NoMemory, Span, Str, TextStop};
use lint_core::{Column, Entry, Kind, Table, Term, Unit};
use lint_tables::Op;
use sql_tree::{NameTree, TermTree};
use std::alloc::Global;

/// Where the columns of a name are, among the entries of one FROM list.
#[derive(Clone, Copy, Drop)]
enum Found {
    Nowhere,
    Once { entry: u32, column: u32 },
    Twice,
}

/// Whether two names are one. Names are compared by their characters.
pub(crate) fn is_same(one: &Str, other: &Str) -> bool
    ensures { result ≡ bytes_eq one.now other.now }
{
    one.as_str() == other.as_str()
}

/// The number of the table of a name.
pub(crate) fn table_place(tables: &[Table], name: &Str) -> Option<usize>
    ensures { result ≡ table_place tables.now name.now }
{
    tables.iter().position(|table| is_same(&table.name, name))
}

/// The number of the column of a name.
pub(crate) fn column_place(columns: &[Column], name: &Str) -> Option<usize>
    ensures { result ≡ column_place columns.now name.now }
{
    columns
        .iter()
        .position(|column| is_same(&column.name, name))
}

/// The number of the entry of a visible name.
pub(crate) fn entry_place(entries: &[Entry], name: &Str) -> Option<usize>
    ensures { result ≡ entry_place entries.now name.now }
{
    entries.iter().position(|entry| is_same(&entry.name, name))
}

/// The columns of an entry's table.
pub(crate) fn columns_of<'a>(tables: &'a [Table], entry: &Entry) -> &'a [Column]
    ensures { result.now ≡ columns_of tables.now entry.now }
{
    match tables.get(entry.table as usize) {
        Some(table) => table.columns.as_slice(),
        None => &[],
    }
}

/// Where the columns of a name are, among entries that are counted from a number on.
#[tactic(auto, using(crate::proofs::ColumnsFound::found_step, crate::proofs::ColumnsFound::found_end), unfolding(crate::specs::Names::places_named))]
fn found_among(
    tables: &[Table],
    name: &Str,
    first: u32,
    entries: &[Entry],
) -> Result<Found, NoMemory>
    ensures { IfOk result
        (λ found. found ≡ found_among (places_named tables.now name.now first entries.now)) }
{
    let mut found = Found::Nowhere;
    let mut number = first;
    let mut rest = entries;
    while let Some((entry, more)) = rest.split_first() {
        found = with_place(found, number, column_place(columns_of(tables, entry), name))?;
        number = next(number)?;
        rest = more;
    }
    Ok(found)
}

/// What was found, with a column of the next entry.
fn with_place(found: Found, entry: u32, column: Option<usize>) -> Result<Found, NoMemory>
    ensures { IfOk result (λ more. more ≡ found_with found entry column) }
{
    match (found, column) {
        (found, None) => Ok(found),
        (Found::Nowhere, Some(column)) => Ok(Found::Once {
            entry,
            column: counted(column)?,
        }),
        (_, Some(_)) => Ok(Found::Twice),
    }
}

/// The column of a name in the entry at a place among those that are seen, from a first one on.
fn in_entry(
    tables: &[Table],
    outer: &Levels,
    first: usize,
    seen: &[Entry],
    place: usize,
    name: &Str,
    at: Span,
) -> Result<Term, TextStop>
    ensures { Gives (in_entry tables.now (length (levels_seen outer.now)) (first + place) at
        (column_place (columns_at tables.now seen.now place) name.now)) result }
{
    match column_place(columns_at(tables, seen, place), name) {
        Some(column) => Ok(Term::Cell {
            level: outer.depth()?,
            entry: counted(place_after(first, place)?)?,
            column: counted(column)?,
            plus: 0,
        }),
        None => Err(refused(Fault::UnknownColumn, at)),
    }
}

/// The column of a name that stands alone: that of the innermost FROM list with an entry that has
/// it.
#[tactic(auto, unfolding(crate::specs::Names::find_unqualified))]
fn find_unqualified(tables: &[Table], name: &NameTree, levels: &Levels) -> Result<Term, TextStop>
    ensures { Gives (find_unqualified tables.now name.now.text name.now.span
        (levels_seen levels.now)) result }
{
    match levels {
        Levels::Outside => Err(refused(Fault::UnknownColumn, name.span)),
        Levels::Inside {
            entries,
            first,
            end,
            outer,
        } => match found_among(
            tables,
            &name.text,
            counted(*first)?,
            seen(entries, *first, *end),
        )? {
            Found::Nowhere => find_unqualified(tables, name, outer),
            Found::Once { entry, column } => Ok(Term::Cell {
                level: outer.depth()?,
                entry,
                column,
                plus: 0,
            }),
            Found::Twice => Err(refused(Fault::AmbiguousColumn, name.span)),
        },
    }
}

/// The column of a name behind that of a table: that of the innermost FROM list with an entry of
/// the name.
#[tactic(auto, unfolding(crate::specs::Names::find_qualified))]
fn find_qualified(
    tables: &[Table],
    table: &NameTree,
    name: &NameTree,
    at: Span,
    levels: &Levels,
) -> Result<Term, TextStop>
    ensures { Gives (find_qualified tables.now table.now.text name.now.text at
        (levels_seen levels.now)) result }
{
    match levels {
        Levels::Outside => Err(refused(Fault::UnknownTable, at)),
        Levels::Inside {
            entries,
            first,
            end,
            outer,
        } => {
            let seen = seen(entries, *first, *end);
            match entry_place(seen, &table.text) {
                None => find_qualified(tables, table, name, at, outer),
                Some(place) => in_entry(tables, outer, *first, seen, place, &name.text, at),
            }
        }
    }
}

/// A number of entries after a number of entries.
fn place_after(first: usize, place: usize) -> Result<usize, NoMemory>
    ensures { IfOk result (λ sum. sum ≡ first + place) }
{
    match first.checked_add(place) {
        Some(sum) => Ok(sum),
        None => Err(NoMemory),
    }
}

/// The columns of the entry of a number.
pub(crate) fn columns_at<'a>(tables: &'a [Table], entries: &[Entry], number: usize) -> &'a [Column]
    ensures { result.now ≡ columns_at tables.now entries.now number }
{
    match entries.get(number) {
        Some(entry) => columns_of(tables, entry),
        None => &[],
    }
}

/// [ table . ] name
fn find_column(
    tables: &[Table],
    table: &Option<NameTree>,
    name: &NameTree,
    levels: &Levels,
) -> Result<Term, TextStop>
    ensures { Gives (find_column tables.now table.now name.now (levels_seen levels.now)) result }
{
    match table {
        Some(table) => {
            let at = Span {
                from: table.span.from,
                to: name.span.to,
            };
            find_qualified(tables, table, name, at, levels)
        }
        None => find_unqualified(tables, name, levels),
    }
}

/// A column with a number added.
fn with_added(added: i64, term: Term) -> Term
    ensures { result ≡ terms.with_added added term }
{
    match term {
        Term::Cell {
            level,
            entry,
            column,
            ..
        } => Term::Cell {
            level,
            entry,
            column,
            plus: added,
        },
        term => term,
    }
}

/// A term.
#[tactic(auto, unfolding(crate::specs::Bound::and_then))]
pub(crate) fn bind_term(
    alloc: Global,
    tables: &[Table],
    tree: &TermTree,
    levels: &Levels,
) -> Result<Term, TextStop>
    ensures { Gives (terms.bind_term tables.now (levels_seen levels.now) tree.now) result }
{
    match tree {
        TermTree::Column {
            table,
            name,
            plus,
            ..
        } => {
            let cell = find_column(tables, table, name, levels)?;
            Ok(with_added(*plus, cell))
        }
        TermTree::Number { value, .. } => Ok(Term::Number {
            value: *value,
            unit: Unit::Whole,
        }),
        TermTree::Text { text, .. } => Ok(Term::Text(text.copy(alloc)?)),
        TermTree::Null { .. } => Ok(Term::Null),
    }
}

/// What a term is, if it names an existing column and adds nothing to a text.
pub(crate) fn kind(tables: &[Table], levels: &Levels, term: &Term) -> Option<Kind>
    ensures { result ≡ term_kind tables.now (level_tables (levels_seen levels.now)) term.now }
{
    match term {
        Term::Cell {
            level,
            entry,
            column,
            plus,
        } => Kind::of_cell(tables, levels.table_at(*level, *entry), *column, *plus),
        Term::Number { unit, .. } => Some(Kind::Number(*unit)),
        Term::Text(_) => Some(Kind::Text),
        Term::Null => Some(Kind::Null),
    }
}

/// Whether an operator compares two terms.
pub(crate) fn compares(tables: &[Table], levels: &Levels, op: Op, left: &Term, right: &Term) -> bool
    ensures { result ≡ terms.compares tables.now (levels_seen levels.now) op left.now right.now }
{
    Kind::both_compare(op, kind(tables, levels, left), kind(tables, levels, right))
}
