//! Live tables, and the edges between them.
ghost use Rattle.std.specs.Prelude.{◌≡◌, ◌↔◌, ◌<◌, ◌≤◌, ℕ, true, false, map, filter, length, nat_lt, is_none, is_some, IfOk, OnOk};
ghost use Rattle.std.specs.Prelude.{◌++◌};
ghost use Rattle.std.specs.List.{list_all, flat_map, take_while};
ghost use Rattle.sorted_skolem.specs.inner.Waiting.{has, Rises, inserted, IsWanted, AreSound};
ghost use Rattle.sorted_skolem.specs.inner.Waiting.{IsClosedAt, missing, edges_at, source_of};

use crate::asks::Ask;
use lint_base::NoMemory;
use std::alloc::Global;

/// An edge from a live table to another: rows of `to` are asked for at rows of `from`.
#[derive(Clone, Copy)]
pub(crate) struct Edge {
    pub(crate) from: u32,
    pub(crate) to: u32,
}

/// The live tables, ascending.
pub(crate) fn live_tables(alloc: Global, asks: &[Ask]) -> Result<Vec<u32>, NoMemory>
    ensures rises { IfOk result (λ live. Rises live.items) }
    ensures live { IfOk result (λ live.
        (table : ℕ) → (has live.items table ≡ true) ↔ IsWanted asks.now table) }
{
    let mut live = Vec::new(alloc);
    loop {
        if !spread(asks, &mut live)? {
            return Ok(live);
        }
    }
}

/// Adds the tables of the Exists nodes whose Foralls are over tables that are there, and answers
/// whether there were any.
fn spread(asks: &[Ask], live: &mut Vec<u32>) -> Result<bool, NoMemory>
    requires { AreSound asks.now live.old.items }
    ensures sound { OnOk result (AreSound asks.now live.new.items) }
    ensures closed { IfOk result (λ more.
        more ≡ false → (place : ℕ) → IsClosedAt asks.now live.new.items place) }
    ensures fewer { IfOk result (λ more.
        more ≡ true → missing asks.now live.new.items < missing asks.now live.old.items) }
{
    let mut more = false;
    for ask in asks {
        if !live.contains(&ask.table) && are_in(ask.foralls.as_slice(), live) {
            insert_table(live, ask.table)?;
            more = true;
        }
    }
    Ok(more)
}

/// Whether all the tables are among these.
fn are_in(tables: &[u32], live: &[u32]) -> bool
    ensures { result ≡ list_all (has live.now) tables.now }
{
    tables.iter().all(|table| live.contains(table))
}

/// Puts a table behind those that are less.
fn insert_table(tables: &mut Vec<u32>, table: u32) -> Result<(), NoMemory>
    ensures { OnOk result (tables.new.items ≡ inserted tables.old.items table) }
{
    tables.insert(count_less(tables, table), table)?;
    Ok(())
}

/// How many of the tables from the front on are less.
fn count_less(tables: &[u32], table: u32) -> usize
    ensures within { result ≤ length tables.now }
    ensures count { result ≡ length (take_while (λ other. nat_lt other table) tables.now) }
{
    tables.iter().take_while(|other| **other < table).count()
}

/// The edges between live tables.
pub(crate) fn edges_of(alloc: Global, asks: &[Ask], live: &[u32]) -> Result<Vec<Edge>, NoMemory>
    ensures { IfOk result (λ edges. edges.items ≡ flat_map (edges_at live.now) asks.now) }
{
    let mut edges = Vec::new(alloc);
    for ask in asks {
        if are_in(ask.foralls.as_slice(), live) {
            push_edges(&mut edges, ask.foralls.as_slice(), ask.table)?;
        }
    }
    Ok(edges)
}

/// Adds an edge from each of the tables to the last.
fn push_edges(edges: &mut Vec<Edge>, tables: &[u32], to: u32) -> Result<(), NoMemory>
    ensures { OnOk result (edges.new.items
        ≡ edges.old.items ++ map (λ from. record { from = from; to = to }) tables.now) }
{
    for from in tables {
        edges.push(Edge { from: *from, to })?;
    }
    Ok(())
}

/// The first of the waiting tables from which an edge leads to the table.
pub(crate) fn source(edges: &[Edge], waiting: &[u32], table: u32) -> Option<u32>
    ensures { result ≡ source_of edges.now waiting.now table }
{
    edges
        .iter()
        .find(|edge| edge.to == table && waiting.contains(&edge.from))
        .map(|edge| edge.from)
}

/// The waiting tables to which no edge leads from one of them.
pub(crate) fn ready(alloc: Global, edges: &[Edge], waiting: &[u32]) -> Result<Vec<u32>, NoMemory>
    ensures { IfOk result (λ tables. tables.items
        ≡ filter (λ table. is_none (source_of edges.now waiting.now table)) waiting.now) }
{
    let tables = waiting
        .iter()
        .copied()
        .filter(|table| source(edges, waiting, *table).is_none())
        .collect(alloc)?;
    Ok(tables)
}

/// The others.
pub(crate) fn blocked(alloc: Global, edges: &[Edge], waiting: &[u32]) -> Result<Vec<u32>, NoMemory>
    ensures { IfOk result (λ tables. tables.items
        ≡ filter (λ table. is_some (source_of edges.now waiting.now table)) waiting.now) }
{
    let tables = waiting
        .iter()
        .copied()
        .filter(|table| source(edges, waiting, *table).is_some())
        .collect(alloc)?;
    Ok(tables)
}
