//! Row terms by their tables, and lists of them.
ghost use Rattle.std.specs.Prelude.{◌≡◌, ◌≤◌, ◌-◌, ◌^◌, [], ◌∷◌, ◌++◌, length, map, min, IfOk, OnOk};
ghost use Rattle.std.specs.List.{filter, flat_map};
ghost use Rattle.lint_core.specs.Database.{below};
ghost use Rattle.sorted_skolem.specs.Terms.{is_of_table, terms_of, term_lists};
ghost use Rattle.instantiate.specs.inner.Steps.{step_of, index_along};

use lint_base::{Items, NoMemory};
use sorted_skolem::RowTerm;
use std::alloc::Global;

/// What a row term adds to the place of a list of row terms in the lists of its tables: its own
/// place among the terms of its table, and how many these are.
#[derive(Clone, Copy)]
pub(crate) struct Step {
    pub(crate) place: u64,
    pub(crate) size: u64,
}

/// How many of the row terms before `end` are of the table.
fn count_of_table(terms: &[RowTerm], end: usize, table: u32) -> u64
    requires { end ≤ length terms.now }
    ensures { result ≡ length (filter (is_of_table terms.now table) (below end)) }
{
    let mut count = 0;
    for number in 0..end {
        if terms[number].table == table {
            count += 1;
        }
    }
    count
}

/// The row terms of the table.
fn terms_of(alloc: Global, terms: &[RowTerm], table: u32) -> Result<Items<u32>, NoMemory>
    requires { length terms.now ≤ 512 }
    ensures { IfOk result (λ rows. rows ≡ terms_of terms.now table) }
{
    let mut rows = Items::new(alloc);
    for number in 0..terms.len() {
        if terms[number].table == table {
            rows.push(number as u32)?;
        }
    }
    Ok(rows)
}

/// The step of each row term.
pub(crate) fn steps(alloc: Global, terms: &[RowTerm]) -> Result<Items<Step>, NoMemory>
    ensures { IfOk result (λ steps. steps ≡ map (step_of terms.now) (below (length terms.now))) }
{
    let mut steps = Items::new(alloc);
    for number in 0..terms.len() {
        let table = terms[number].table;
        steps.push(Step {
            place: count_of_table(terms, number, table),
            size: count_of_table(terms, terms.len(), table),
        })?;
    }
    Ok(steps)
}

/// The place of the row terms in the lists of their tables; the greatest `u64` where it is
/// greater.
pub(crate) fn index_of(steps: &[Step], rows: &[u32]) -> u64
    ensures { result ≡ min (index_along steps.now 0 rows.now) (2 ^ 64 - 1) }
{
    let mut index: u64 = 0;
    for row in rows {
        index = match steps.get(*row as usize) {
            Some(step) => index.saturating_mul(step.size).saturating_add(step.place),
            None => 0,
        };
    }
    index
}

/// How many lists of row terms the tables have; the greatest `u64` where there are more.
pub(crate) fn count_lists(terms: &[RowTerm], tables: &[u32]) -> u64
    ensures { result ≡ min (length (term_lists terms.now tables.now)) (2 ^ 64 - 1) }
{
    let mut count: u64 = 1;
    for table in tables {
        count = count.saturating_mul(count_of_table(terms, terms.len(), *table));
    }
    count
}

fn copied(alloc: Global, rows: &[u32]) -> Result<Items<u32>, NoMemory>
    ensures { IfOk result (λ copy. copy ≡ rows.now) }
{
    let mut copy = Items::new(alloc);
    for row in rows {
        copy.push(*row)?;
    }
    Ok(copy)
}

/// Adds the list with each of the rows at its end.
fn add_extended(
    alloc: Global,
    list: &[u32],
    rows: &[u32],
    all: &mut Items<Items<u32>>,
) -> Result<(), NoMemory>
    ensures { OnOk result (all.new ≡ all.old ++ map (λ row. list.now ++ row ∷ []) rows.now) }
{
    for row in rows {
        let mut longer = copied(alloc, list)?;
        longer.push(*row)?;
        all.push(longer)?;
    }
    Ok(())
}

/// Each list with each of the rows at its end.
fn extended(
    alloc: Global,
    lists: &[Items<u32>],
    rows: &[u32],
) -> Result<Items<Items<u32>>, NoMemory>
    ensures { IfOk result (λ all. all
        ≡ flat_map (λ list. map (λ row. list ++ row ∷ []) rows.now) lists.now) }
{
    let mut all = Items::new(alloc);
    for list in lists {
        add_extended(alloc, list.as_slice(), rows, &mut all)?;
    }
    Ok(all)
}

/// All lists of one row term for each of the tables.
pub(crate) fn term_lists(
    alloc: Global,
    terms: &[RowTerm],
    tables: &[u32],
) -> Result<Items<Items<u32>>, NoMemory>
    requires { length terms.now ≤ 512 }
    ensures { IfOk result (λ lists. lists ≡ term_lists terms.now tables.now) }
{
    let mut lists = Items::new(alloc);
    lists.push(Items::new(alloc))?;
    for table in tables {
        let rows = terms_of(alloc, terms, *table)?;
        lists = extended(alloc, lists.as_slice(), rows.as_slice())?;
    }
    Ok(lists)
}
