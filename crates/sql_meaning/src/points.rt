//! The points at which a question may fail.
ghost use Rattle.std.specs.Prelude.{◌≡◌, ◌∷◌, [], take, drop, remove, unwrap_or, IfOk};
ghost use Rattle.lint_core.specs.Fits.{at_entry};
ghost use Rattle.lint_core.specs.Points.{are_rows, is_binding, are_same_rows, is_same_binding, differ_in_last_level, main_rows, differ_in_entry, with_row, is_same_row};

use crate::evaluation::row_count;
use lint_base::{Items, NoMemory};
use lint_core::Database;
use std::alloc::Global;

/// The first so many of them; all where there are no more.
fn front(numbers: &[u32], count: usize) -> &[u32]
    ensures { result.now ≡ take count numbers.now }
{
    if count < numbers.len() {
        &numbers[..count]
    } else {
        numbers
    }
}

/// All but the first so many of them.
fn behind(numbers: &[u32], count: usize) -> &[u32]
    ensures { result.now ≡ drop count numbers.now }
{
    if count < numbers.len() {
        &numbers[count..]
    } else {
        &[]
    }
}

/// Whether there is one row of its table for each entry.
fn are_rows(database: &Database, tables: &[u32], rows: &[u32]) -> bool
    ensures { result ≡ are_rows database.now tables.now rows.now }
{
    if tables.len() != rows.len() {
        return false;
    }
    for (table, row) in tables.iter().zip(rows) {
        if *row as usize >= row_count(database, *table) {
            return false;
        }
    }
    true
}

/// Alike, of all entries but one.
fn are_rows_without(database: &Database, tables: &[u32], entry: u32, rows: &[u32]) -> bool
    ensures { result ≡ are_rows database.now (remove tables.now entry) rows.now }
{
    let entry = entry as usize;
    if !are_rows(database, front(tables, entry), front(rows, entry)) {
        return false;
    }
    are_rows(database, behind(tables, entry + 1), behind(rows, entry))
}

/// Whether the places are those of rows of these tables, level by level.
pub(crate) fn is_binding(database: &Database, tables: &[Items<u32>], levels: &[Items<u32>]) -> bool
    ensures { result ≡ is_binding database.now tables.now levels.now }
{
    if tables.len() != levels.len() {
        return false;
    }
    for (tables, rows) in tables.iter().zip(levels) {
        if !are_rows(database, tables.as_slice(), rows.as_slice()) {
            return false;
        }
    }
    true
}

/// Whether the places are those of rows of all entries of the one level but one.
pub(crate) fn is_binding_without(
    database: &Database,
    tables: &[u32],
    entry: u32,
    levels: &[Items<u32>],
) -> bool
    ensures { result ≡ is_binding database.now (remove tables.now entry ∷ []) levels.now }
{
    match levels {
        [rows] => are_rows_without(database, tables, entry, rows.as_slice()),
        _ => false,
    }
}

fn are_same_rows(rows: &[u32], others: &[u32]) -> bool
    ensures { result ≡ are_same_rows rows.now others.now }
{
    rows == others
}

/// Whether they have the same places but for that of one entry.
fn are_same_without(entry: u32, rows: &[u32], others: &[u32]) -> bool
    ensures { result ≡ are_same_rows (remove rows.now entry) (remove others.now entry) }
{
    let entry = entry as usize;
    if !are_same_rows(front(rows, entry), front(others, entry)) {
        return false;
    }
    are_same_rows(behind(rows, entry + 1), behind(others, entry + 1))
}

/// Whether they have the same places, level by level.
pub(crate) fn is_same_binding(binding: &[Items<u32>], other: &[Items<u32>]) -> bool
    ensures { result ≡ is_same_binding binding.now other.now }
{
    if binding.len() != other.len() {
        return false;
    }
    for (rows, others) in binding.iter().zip(other) {
        if !are_same_rows(rows.as_slice(), others.as_slice()) {
            return false;
        }
    }
    true
}

/// Whether they have the same places in all levels but the last, and others there.
pub(crate) fn differ_in_last_level(binding: &[Items<u32>], other: &[Items<u32>]) -> bool
    ensures { result ≡ differ_in_last_level binding.now other.now }
{
    let Some((rows, outer)) = binding.split_last() else {
        return false;
    };
    let Some((others, other_outer)) = other.split_last() else {
        return false;
    };
    if !is_same_binding(outer, other_outer) {
        return false;
    }
    !are_same_rows(rows.as_slice(), others.as_slice())
}

/// The places of the main entries.
fn main_rows(binding: &[Items<u32>]) -> &[u32]
    ensures { result.now ≡ main_rows binding.now }
{
    match binding.first() {
        Some(rows) => rows.as_slice(),
        None => &[],
    }
}

/// Whether they have the same places but for one main entry, and others.
pub(crate) fn differ_in_entry(entry: u32, binding: &[Items<u32>], other: &[Items<u32>]) -> bool
    ensures { result ≡ differ_in_entry entry binding.now other.now }
{
    let rows = main_rows(binding);
    let others = main_rows(other);
    are_same_without(entry, rows, others) && !are_same_rows(rows, others)
}

/// The places of all main entries, from those of the others and that of one.
pub(crate) fn with_row(
    alloc: Global,
    entry: u32,
    row: usize,
    binding: &[Items<u32>],
) -> Result<Vec<usize>, NoMemory>
    ensures { IfOk result (λ rows. rows.items ∷ [] ≡ with_row entry row binding.now) }
{
    let others = main_rows(binding);
    let mut rows = Vec::new(alloc);
    for other in front(others, entry as usize) {
        rows.push(*other as usize)?;
    }
    rows.push(row)?;
    for other in behind(others, entry as usize) {
        rows.push(*other as usize)?;
    }
    Ok(rows)
}

/// The place of a main entry; 0 where it has none.
fn row_of(binding: &[Items<u32>], entry: u32) -> u32
    ensures { result ≡ unwrap_or (at_entry binding.now 0 entry) 0 }
{
    match main_rows(binding).get(entry as usize) {
        Some(row) => *row,
        None => 0,
    }
}

/// Whether two main entries have one place.
pub(crate) fn is_same_row(binding: &[Items<u32>], entry: u32, other: u32) -> bool
    ensures { result ≡ is_same_row binding.now entry other }
{
    row_of(binding, entry) == row_of(binding, other)
}
