//! The row terms of an order.
ghost use Rattle.std.specs.Prelude.{◌≡◌, ◌<◌, ◌≤◌, ◌++◌, ◌∷◌, ◌^◌, All, length, map, nat_eq, not, IfOk, IfErr, OnOk};
ghost use Rattle.std.specs.List.{flat_map, list_any};
ghost use Rattle.sort_formula.specs.Nodes.{nodes};
ghost use Rattle.sorted_skolem.specs.declared.term.RowTerm.{RowTerm};
ghost use Rattle.sorted_skolem.specs.Graph.{IsOrder};
ghost use Rattle.sorted_skolem.specs.Preorder.{outlines_of};
ghost use Rattle.sorted_skolem.specs.Terms.{terms_of, term_lists, row_terms};
ghost use Rattle.sorted_skolem.specs.Stops.{IfManyRows, AreMany};
ghost use Rattle.sorted_skolem.specs.inner.Listing.{terms_from, terms_where};

use crate::asks::{Ask, asks_of};
use crate::count::count_terms;
use crate::term::{Order, RowTerm, Rows};
use lint_base::{Items, NoMemory};
use sort_formula::Sentence;
use std::alloc::{AllocError, Global};

/// The most row terms that are listed.
const MOST_ROWS: u64 = 512;

/// Why the row terms were not listed.
#[derive(Debug, Drop)]
pub enum RowsStop {
    /// There are more than 512. The count is their number, or the greatest `u64` where that is
    /// greater.
    ManyRows { count: u64 },
    /// Memory ran out.
    NoMemory,
}

impl From<NoMemory> for RowsStop {
    ghost use Rattle.std.specs.Prelude.{◌≡◌};
    ghost use Rattle.sorted_skolem.specs.declared.rows.RowsStop.TheVariants as stop;

    ghost from_gives = { λ _ e. e ≡ stop.NoMemory };

    fn from(_error: NoMemory) -> RowsStop {
        RowsStop::NoMemory
    }
}

impl From<AllocError> for RowsStop {
    ghost use Rattle.std.specs.Prelude.{◌≡◌};
    ghost use Rattle.sorted_skolem.specs.declared.rows.RowsStop.TheVariants as stop;

    ghost from_gives = { λ _ e. e ≡ stop.NoMemory };

    fn from(_error: AllocError) -> RowsStop {
        RowsStop::NoMemory
    }
}

/// The row terms of the tables in order: one for each Exists over a table and each list of row
/// terms, one for each Forall around it.
///
/// `ManyRows` where there are more than 512, before any is made. `NoMemory` where memory runs out,
/// or a term's sentence is not among the first 2^32.
pub fn rows_of(alloc: Global, order: &Order, sentences: &[Sentence]) -> Result<Rows, RowsStop>
    requires order { IsOrder sentences.now order.now.tables }
    requires nodes { All (λ sentence. nodes sentence < 2 ^ 32) sentences.now }
    ensures rows { IfOk result (λ r. r.terms
        ≡ row_terms (outlines_of sentences.now) order.now.tables) }
    ensures few { IfOk result (λ r. length r.terms ≤ 512) }
    ensures many { IfErr result (λ stop. IfManyRows stop
        (AreMany (row_terms (outlines_of sentences.now) order.now.tables))) }
{
    let asks = asks_of(alloc, sentences)?;
    let tables = order.tables.as_slice();
    let count = count_terms(alloc, tables, &asks)?;
    if count > MOST_ROWS {
        return Err(RowsStop::ManyRows { count });
    }
    let mut terms = Vec::new(alloc);
    for table in tables {
        let mut more = terms_over(alloc, &asks, &terms, *table)?;
        terms.append(&mut more)?;
    }
    Ok(Rows {
        terms: Items::from_vec(terms),
    })
}

/// The terms of the Exists nodes over the table, over the terms so far.
fn terms_over(
    alloc: Global,
    asks: &[Ask],
    terms: &[RowTerm],
    table: u32,
) -> Result<Vec<RowTerm>, NoMemory>
    requires { length terms.now ≤ 512 }
    ensures { IfOk result (λ more. more.items ≡ flat_map (terms_where terms.now table) asks.now) }
{
    let mut more = Vec::new(alloc);
    for ask in asks {
        if table == ask.table {
            push_terms(alloc, ask, terms, &mut more)?;
        }
    }
    Ok(more)
}

/// Adds the terms of an Exists node: one for each list of terms of its Foralls.
fn push_terms(
    alloc: Global,
    ask: &Ask,
    terms: &[RowTerm],
    more: &mut Vec<RowTerm>,
) -> Result<(), NoMemory>
    requires { length terms.now ≤ 512 }
    ensures { OnOk result (more.new.items
        ≡ more.old.items ++ terms_from terms.now ask.now) }
{
    let sentence = u32::try_from(ask.sentence).map_err(|_| NoMemory)?;
    let node = u32::try_from(ask.node).map_err(|_| NoMemory)?;
    let lists = lists_of(alloc, terms, ask.foralls.as_slice())?;
    for rows in lists {
        more.push(RowTerm {
            sentence,
            node,
            rows,
            table: ask.table,
        })?;
    }
    Ok(())
}

/// All lists of one term for each of the tables, by the numbers of the terms.
fn lists_of(alloc: Global, terms: &[RowTerm], tables: &[u32]) -> Result<Vec<Items<u32>>, NoMemory>
    requires { length terms.now ≤ 512 }
    ensures { IfOk result (λ lists. lists.items ≡ term_lists terms.now tables.now) }
{
    let mut lists = Vec::new(alloc);
    if lacks_terms(terms, tables) {
        return Ok(lists);
    }
    lists.push(Items::new(alloc))?;
    let mut index = tables.len();
    while index > 0 {
        index -= 1;
        let rows = rows_over(alloc, terms, tables[index])?;
        lists = led_by_each(alloc, &rows, &lists)?;
    }
    Ok(lists)
}

/// Whether some table has no term.
fn lacks_terms(terms: &[RowTerm], tables: &[u32]) -> bool
    ensures { result ≡ list_any (λ table. not (list_any (λ (term : RowTerm).
        nat_eq term.table table) terms.now)) tables.now }
{
    tables.iter().any(|table| !has_term(terms, *table))
}

/// Whether a term is of the table.
fn has_term(terms: &[RowTerm], table: u32) -> bool
    ensures { result ≡ list_any (λ (term : RowTerm). nat_eq term.table table) terms.now }
{
    terms.iter().any(|term| term.table == table)
}

/// The numbers of the terms of a table.
fn rows_over(alloc: Global, terms: &[RowTerm], table: u32) -> Result<Vec<u32>, NoMemory>
    requires { length terms.now ≤ 512 }
    ensures { IfOk result (λ rows. rows.items ≡ terms_of terms.now table) }
{
    let mut rows = Vec::new(alloc);
    for row in 0..terms.len() as u32 {
        if terms[row as usize].table == table {
            rows.push(row)?;
        }
    }
    Ok(rows)
}

/// Each of the lists behind each of the rows.
fn led_by_each(
    alloc: Global,
    rows: &[u32],
    lists: &[Items<u32>],
) -> Result<Vec<Items<u32>>, NoMemory>
    ensures { IfOk result (λ led. led.items
        ≡ flat_map (λ row. map (λ rest. row ∷ rest) lists.now) rows.now) }
{
    let mut led = Vec::new(alloc);
    for row in rows {
        push_led(alloc, *row, lists, &mut led)?;
    }
    Ok(led)
}

/// Adds each of the lists behind the row.
fn push_led(
    alloc: Global,
    row: u32,
    lists: &[Items<u32>],
    led: &mut Vec<Items<u32>>,
) -> Result<(), NoMemory>
    ensures { OnOk result (led.new.items
        ≡ led.old.items ++ map (λ rest. row ∷ rest) lists.now) }
{
    for rest in lists {
        led.push(list_of(alloc, row, rest.as_slice())?)?;
    }
    Ok(())
}

/// The list of the row and the rest.
fn list_of(alloc: Global, row: u32, rest: &[u32]) -> Result<Items<u32>, NoMemory>
    ensures { IfOk result (λ list. list ≡ row ∷ rest.now) }
{
    let mut list = Vec::new(alloc);
    list.push(row)?;
    list.extend_from_slice(rest)?;
    Ok(Items::from_vec(list))
}
