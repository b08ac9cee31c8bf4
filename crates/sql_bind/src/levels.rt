//! The FROM lists that a name is looked for in.
ghost use Rattle.std.specs.Prelude.{◌≡◌, ◌∷◌, ◌<◌, ◌+◌, ◌-◌, IfOk, IfErr, length, take, drop};
ghost use Rattle.lint_core.specs.Fits.{tables_of, at_entry};
ghost use Rattle.sql_bind.specs.Names.{level_tables, whole_level};
ghost use Rattle.sql_bind.specs.inner.Levels.{levels_seen};

use crate::bound::next;
use lint_base::NoMemory;
use lint_core::Entry;

/// The FROM lists around a condition, from the inside out. Of a list the entries from `first` to
/// before `end` are seen.
#[derive(Drop)]
pub(crate) enum Levels<'a> {
    Outside,
    Inside {
        entries: &'a [Entry],
        first: usize,
        end: usize,
        outer: &'a Levels<'a>,
    },
}

/// The entries from a number to before an end.
pub(crate) fn seen(entries: &[Entry], first: usize, end: usize) -> &[Entry]
    ensures { result.now ≡ take (end - first) (drop first entries.now) }
{
    let from = first.min(entries.len());
    let rest = &entries[from..];
    let count = end.saturating_sub(first).min(rest.len());
    &rest[..count]
}

impl<'a> Levels<'a> {
    /// A FROM list, all of whose entries are seen, inside others.
    pub(crate) fn whole(entries: &'a [Entry], outer: &'a Levels<'a>) -> Levels<'a>
        ensures { levels_seen result ≡ whole_level entries.now ∷ levels_seen outer.now }
    {
        Levels::Inside {
            entries,
            first: 0,
            end: entries.len(),
            outer,
        }
    }
}

impl Levels<'_> {
    /// How many levels there are.
    pub(crate) fn depth(&self) -> Result<u32, NoMemory>
        ensures { IfOk result (λ depth. depth ≡ length (levels_seen self.now)) }
    {
        match self {
            Levels::Outside => Ok(0),
            Levels::Inside { outer, .. } => next(outer.depth()?),
        }
    }

    /// The table of an entry of a level, if that level has it; where there is no such level, how
    /// many levels further in it would be.
    fn look_up(&self, level: u32, entry: u32) -> Result<Option<u32>, u32>
        ensures there { IfOk result
            (λ found. (level < length (level_tables (levels_seen self.now)))
            × (found ≡ at_entry (level_tables (levels_seen self.now)) level entry)) }
        ensures further { IfErr result
            (λ more. more + length (level_tables (levels_seen self.now)) ≡ level) }
    {
        match self {
            Levels::Outside => Err(level),
            Levels::Inside { entries, outer, .. } => match outer.look_up(level, entry) {
                Ok(found) => Ok(found),
                Err(0) => Ok(Entry::table_of(entries, entry)),
                Err(further) => Err(further - 1),
            },
        }
    }

    /// The table of an entry of a level.
    pub(crate) fn table_at(&self, level: u32, entry: u32) -> Option<u32>
        ensures { result ≡ at_entry (level_tables (levels_seen self.now)) level entry }
    {
        match self.look_up(level, entry) {
            Ok(found) => found,
            Err(_) => None,
        }
    }
}
