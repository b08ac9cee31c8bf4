//! The levels that a condition stands in, linked from the inside out.
ghost use Rattle.std.specs.Prelude.{◌≡◌, ◌<◌, ◌+◌, length, IfOk, IfErr, slice_get};
ghost use Rattle.lint_core.specs.Fits.{at_entry};
ghost use Rattle.lint_core.specs.Fits.{tables_of};
ghost use Rattle.sql_meaning.specs.inner.Standing.{tables_of_levels, binding_of_levels};

use lint_base::Items;
use lint_core::{Entry, number_at};

/// The FROM lists of some levels, with a row place for each entry.
#[derive(Drop)]
pub(crate) enum Levels<'a> {
    /// The tables and the row places of the outer levels, the outermost first.
    Given {
        tables: &'a [Items<u32>],
        rows: &'a [Items<u32>],
    },
    /// One more FROM list, inside other levels.
    Inside {
        entries: &'a [Entry],
        rows: &'a [usize],
        outer: &'a Levels<'a>,
    },
}

/// The row place of an entry of a level, as `number_at`.
fn row_in(levels: &[Items<u32>], level: u32, entry: u32) -> Result<Option<usize>, usize>
    ensures there { IfOk result (λ found.
        (level < length levels.now) × (found ≡ at_entry levels.now level entry)) }
    ensures further { IfErr result (λ more. more + length levels.now ≡ level) }
{
    match number_at(levels, level, entry) {
        Ok(Some(row)) => Ok(Some(row as usize)),
        Ok(None) => Ok(None),
        Err(further) => Err(further),
    }
}

fn row_of(rows: &[usize], entry: u32) -> Option<usize>
    ensures { result ≡ slice_get rows.now entry }
{
    match rows.get(entry as usize) {
        Some(row) => Some(*row),
        None => None,
    }
}

impl Levels<'_> {
    fn look_up_table(&self, level: u32, entry: u32) -> Result<Option<u32>, usize>
        ensures there { IfOk result (λ found.
            (level < length (tables_of_levels self.now))
            × (found ≡ at_entry (tables_of_levels self.now) level entry)) }
        ensures further { IfErr result (λ more.
            more + length (tables_of_levels self.now) ≡ level) }
    {
        match self {
            Levels::Given { tables, .. } => number_at(tables, level, entry),
            Levels::Inside { entries, outer, .. } => match outer.look_up_table(level, entry) {
                Ok(found) => Ok(found),
                Err(0) => Ok(Entry::table_of(entries, entry)),
                Err(further) => Err(further - 1),
            },
        }
    }

    fn look_up_row(&self, level: u32, entry: u32) -> Result<Option<usize>, usize>
        ensures there { IfOk result (λ found.
            (level < length (binding_of_levels self.now))
            × (found ≡ at_entry (binding_of_levels self.now) level entry)) }
        ensures further { IfErr result (λ more.
            more + length (binding_of_levels self.now) ≡ level) }
    {
        match self {
            Levels::Given { rows, .. } => row_in(rows, level, entry),
            Levels::Inside { rows, outer, .. } => match outer.look_up_row(level, entry) {
                Ok(found) => Ok(found),
                Err(0) => Ok(row_of(rows, entry)),
                Err(further) => Err(further - 1),
            },
        }
    }

    /// The table of an entry of a level.
    pub(crate) fn table_at(&self, level: u32, entry: u32) -> Option<u32>
        ensures { result ≡ at_entry (tables_of_levels self.now) level entry }
    {
        match self.look_up_table(level, entry) {
            Ok(found) => found,
            Err(_) => None,
        }
    }

    /// The row place of an entry of a level.
    pub(crate) fn row_at(&self, level: u32, entry: u32) -> Option<usize>
        ensures { result ≡ at_entry (binding_of_levels self.now) level entry }
    {
        match self.look_up_row(level, entry) {
            Ok(found) => found,
            Err(_) => None,
        }
    }
}
