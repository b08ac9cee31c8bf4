//! Where a condition stands: the levels around it, each with the entries of its FROM list.
ghost use Rattle.std.specs.Prelude.{◌≡◌, ◌<◌, ◌+◌, length, IfOk, IfErr, slice_get};
ghost use Rattle.lint_core.specs.Fits.{at_entry, tables_of};
ghost use Rattle.lint_core.specs.Levels.{tables_of_levels};

use crate::condition::Entry;
use lint_base::Items;

/// The row variable and the table of each entry of each level, the main query's level first, and
/// the number of quantifiers outside. The variables are below it; those of a subquery's entries
/// follow from it on.
#[derive(Drop)]
pub struct Scope {
    pub levels: Items<Items<u32>>,
    pub tables: Items<Items<u32>>,
    pub depth: u32,
}

/// The levels that a condition stands in, linked from the inside out.
#[derive(Drop)]
pub enum Levels<'a> {
    /// No level.
    Outside,
    /// The tables of these levels, the outermost first.
    Given(&'a [Items<u32>]),
    /// The row of this table that a CHECK speaks of.
    Row(u32),
    /// A FROM list, inside other levels.
    Inside {
        entries: &'a [Entry],
        outer: &'a Levels<'a>,
    },
}

impl Entry {
    /// The table of the entry of this number, if the list has it.
    pub fn table_of(entries: &[Entry], entry: u32) -> Option<u32>
        ensures { result ≡ slice_get (tables_of entries.now) entry }
    {
        match entries.get(entry as usize) {
            Some(found) => Some(found.table),
            None => None,
        }
    }
}

/// The number of an entry of a level, if the level has it; where there is no such level, how many
/// levels further in it would be.
pub fn number_at(levels: &[Items<u32>], level: u32, entry: u32) -> Result<Option<u32>, usize>
    ensures there { IfOk result (λ found. (level < length levels.now)
        × (found ≡ at_entry levels.now level entry)) }
    ensures further { IfErr result (λ more. more + length levels.now ≡ level) }
{
    match levels.get(level as usize) {
        Some(entries) => Ok(entries.as_slice().get(entry as usize).copied()),
        None => Err(level as usize - levels.len()),
    }
}

impl Levels<'_> {
    /// The table of an entry of a level, if that level has it; where there is no such level, how
    /// many levels further in it would be.
    fn look_up(&self, level: u32, entry: u32) -> Result<Option<u32>, usize>
        ensures there { IfOk result (λ found. (level < length (tables_of_levels self.now))
            × (found ≡ at_entry (tables_of_levels self.now) level entry)) }
        ensures further { IfErr result
            (λ more. more + length (tables_of_levels self.now) ≡ level) }
    {
        match self {
            Levels::Outside => Err(level as usize),
            Levels::Given(tables) => number_at(tables, level, entry),
            Levels::Row(table) => match level {
                0 => Ok((entry == 0).then_some(*table)),
                _ => Err(level as usize - 1),
            },
            Levels::Inside { entries, outer } => match outer.look_up(level, entry) {
                Ok(found) => Ok(found),
                Err(0) => Ok(Entry::table_of(entries, entry)),
                Err(further) => Err(further - 1),
            },
        }
    }

    /// The table of an entry of a level, the outermost level being 0; `None` where there is no
    /// such entry.
    pub fn table_at(&self, level: u32, entry: u32) -> Option<u32>
        ensures { result ≡ at_entry (tables_of_levels self.now) level entry }
    {
        match self.look_up(level, entry) {
            Ok(found) => found,
            Err(_) => None,
        }
    }
}
