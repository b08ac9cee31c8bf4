//! A scope, to which the FROM lists of subqueries are added. The entries of each have the next row
//! variables.
ghost use Rattle.std.specs.Prelude.{◌≡◌, ◌<◌, ◌+◌, ◌^◌, length, unwrap_or, IfOk, IfErr, slice_get};
ghost use Rattle.lint_core.specs.Fits.{at_entry, tables_of};
ghost use Rattle.sort_formula.specs.Sides.{from_number};
ghost use Rattle.sort_formula.specs.Translation.{inside};
ghost use Rattle.truth_formula.specs.inner.Standing.{numbered, scope_of};

use lint_core::{Entry, Levels, Scope, number_at};

/// The variables of a scope's levels, and of the FROM lists inside.
#[derive(Drop)]
pub(crate) enum Variables<'a> {
    Given(&'a Scope),
    /// One more FROM list, inside other levels.
    Inside {
        entries: &'a [Entry],
        outer: &'a Variables<'a>,
    },
}

/// Where a condition stands: the tables and the variables of its levels.
#[derive(Drop)]
pub(crate) struct Standing<'a> {
    pub(crate) tables: Levels<'a>,
    variables: Variables<'a>,
}

/// The variable of an entry, where the first one has this number.
fn variable_of(entries: &[Entry], first: u32, entry: u32) -> Option<u32>
    requires { first + length entries.now < 2 ^ 32 }
    ensures { result ≡ slice_get (from_number first (length (tables_of entries.now))) entry }
{
    if (entry as usize) < entries.len() {
        Some(first + entry)
    } else {
        None
    }
}

impl Variables<'_> {
    /// How many quantifiers are outside.
    fn depth(&self) -> u32
        requires { (numbered self.now).depth < 2 ^ 32 }
        ensures { result ≡ (numbered self.now).depth }
    {
        match self {
            Variables::Given(scope) => scope.depth,
            Variables::Inside { entries, outer } => outer.depth() + entries.len() as u32,
        }
    }

    /// The variable of an entry of a level, if the level has it; where there is no such level, how
    /// many levels further in it would be.
    fn look_up(&self, level: u32, entry: u32) -> Result<Option<u32>, usize>
        requires { (numbered self.now).depth < 2 ^ 32 }
        ensures there { IfOk result (λ found. (level < length (numbered self.now).levels)
            × (found ≡ at_entry (numbered self.now).levels level entry)) }
        ensures further { IfErr result (λ more. more + length (numbered self.now).levels ≡ level) }
    {
        match self {
            Variables::Given(scope) => number_at(scope.levels.as_slice(), level, entry),
            Variables::Inside { entries, outer } => match outer.look_up(level, entry) {
                Ok(found) => Ok(found),
                Err(0) => Ok(variable_of(entries, outer.depth(), entry)),
                Err(further) => Err(further - 1),
            },
        }
    }
}

impl<'a> Standing<'a> {
    pub(crate) fn new(scope: &'a Scope) -> Standing<'a>
        ensures { scope_of result ≡ scope.now }
    {
        Standing {
            tables: Levels::Given(scope.tables.as_slice()),
            variables: Variables::Given(scope),
        }
    }

    /// One more FROM list inside.
    pub(crate) fn inside(&'a self, entries: &'a [Entry]) -> Standing<'a>
        ensures { scope_of result ≡ inside (scope_of self.now) (tables_of entries.now) }
    {
        Standing {
            tables: Levels::Inside {
                entries,
                outer: &self.tables,
            },
            variables: Variables::Inside {
                entries,
                outer: &self.variables,
            },
        }
    }
}

impl Standing<'_> {
    /// The variable of an entry of a level; 0 where there is no such entry.
    pub(crate) fn variable_at(&self, level: u32, entry: u32) -> u32
        requires { (scope_of self.now).depth < 2 ^ 32 }
        ensures { result ≡ unwrap_or (at_entry (scope_of self.now).levels level entry) 0 }
    {
        match self.variables.look_up(level, entry) {
            Ok(Some(variable)) => variable,
            _ => 0,
        }
    }
}
