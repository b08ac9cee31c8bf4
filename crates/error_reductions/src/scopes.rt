//! Scopes: which variable stands for which entry.
ghost use Rattle.std.specs.Prelude.{◌≡◌, ◌<◌, ◌≤◌, ◌+◌, ◌^◌, ◌∷◌, ◌++◌, [], length, IfOk, OnOk};
ghost use Rattle.lint_core.specs.Asked.{main_entries};
ghost use Rattle.lint_core.specs.Fits.{main_tables, tables_of};
ghost use Rattle.question_truths.specs.Room.{entries_in};
ghost use Rattle.sort_formula.specs.Sides.{all_of, from_number, numbered_from};

use lint_base::{Items, NoMemory};
use lint_core::{Query, Scope};
use std::alloc::Global;

/// So many variables from this one on.
#[tactic(auto, using(crate::proofs::Variables::one_number_more))]
pub(crate) fn from_number(alloc: Global, first: u32, count: u32) -> Result<Items<u32>, NoMemory>
    requires { first + count < 2 ^ 32 }
    ensures { IfOk result (λ variables. variables ≡ from_number first count) }
{
    let mut variables = Items::new(alloc);
    for number in 0..count {
        variables.push(first + number)?;
    }
    Ok(variables)
}

/// One variable for each entry of each level, in order, from this one on.
pub(crate) fn numbered(
    alloc: Global,
    tables: &[Items<u32>],
    first: u32,
) -> Result<Items<Items<u32>>, NoMemory>
    requires { first + entries_in tables.now < 2 ^ 32 }
    ensures { IfOk result (λ levels. levels ≡ numbered_from first tables.now) }
{
    let mut levels = Items::new(alloc);
    let mut next = first;
    for level in tables {
        let count = level.as_slice().len() as u32;
        levels.push(from_number(alloc, next, count)?)?;
        next += count;
    }
    Ok(levels)
}

/// How many entries there are in all levels.
pub(crate) fn count_entries(tables: &[Items<u32>]) -> u32
    requires { entries_in tables.now < 2 ^ 32 }
    ensures { result ≡ entries_in tables.now }
{
    let mut count = 0;
    for level in tables {
        count += level.as_slice().len() as u32;
    }
    count
}

pub(crate) fn push_numbers(list: &mut Items<u32>, numbers: &[u32]) -> Result<(), NoMemory>
    ensures { OnOk result (list.new ≡ list.old ++ numbers.now) }
{
    for number in numbers {
        list.push(*number)?;
    }
    Ok(())
}

pub(crate) fn copy_levels(
    alloc: Global,
    levels: &[Items<u32>],
) -> Result<Items<Items<u32>>, NoMemory>
    ensures { IfOk result (λ copies. copies ≡ levels.now) }
{
    let mut copies = Items::new(alloc);
    for level in levels {
        let mut copy = Items::new(alloc);
        push_numbers(&mut copy, level.as_slice())?;
        copies.push(copy)?;
    }
    Ok(copies)
}

/// The tables of all levels, one after the other.
pub(crate) fn all_tables(alloc: Global, levels: &[Items<u32>]) -> Result<Items<u32>, NoMemory>
    ensures { IfOk result (λ tables. tables ≡ all_of levels.now) }
{
    let mut tables = Items::new(alloc);
    for level in levels {
        push_numbers(&mut tables, level.as_slice())?;
    }
    Ok(tables)
}

/// The tables of the main entries.
pub(crate) fn own_tables(alloc: Global, query: &Query) -> Result<Items<u32>, NoMemory>
    ensures { IfOk result (λ tables. tables ≡ tables_of (main_entries query.now)) }
{
    let mut tables = Items::new(alloc);
    for entry in query.block.entries.as_slice() {
        tables.push(entry.table)?;
    }
    Ok(tables)
}

/// How many main entries there are.
pub(crate) fn entry_count(query: &Query) -> u32
    requires { length (main_entries query.now) ≤ 16 }
    ensures entries { result ≡ length (main_entries query.now) }
    ensures tables { result ≡ length (tables_of (main_entries query.now)) }
{
    query.block.entries.as_slice().len() as u32
}

fn only(alloc: Global, level: Items<u32>) -> Result<Items<Items<u32>>, NoMemory>
    ensures { IfOk result (λ levels. levels ≡ level ∷ []) }
{
    let mut levels = Items::new(alloc);
    levels.push(level)?;
    Ok(levels)
}

/// The tables of the main entries, as the one level that there is.
pub(crate) fn main_tables(alloc: Global, query: &Query) -> Result<Items<Items<u32>>, NoMemory>
    ensures { IfOk result (λ tables. tables ≡ main_tables query.now) }
{
    let own = own_tables(alloc, query)?;
    only(alloc, own)
}

/// The scope in which the main entries have these variables, below so many quantifiers.
pub(crate) fn main_scope(
    alloc: Global,
    query: &Query,
    variables: Items<u32>,
    depth: u32,
) -> Result<Scope, NoMemory>
    ensures { IfOk result (λ scope. scope ≡ record {
      levels = variables ∷ [];
      tables = tables_of (main_entries query.now) ∷ [];
      depth = depth;
    }) }
{
    let own = own_tables(alloc, query)?;
    Ok(Scope {
        levels: only(alloc, variables)?,
        tables: only(alloc, own)?,
        depth,
    })
}
