//! What the clauses of the questions are made of.
ghost use Rattle.std.specs.Prelude.{◌≡◌, ◌∷◌, ◌++◌, [], map, not, Ok, IfOk, slice_get};
ghost use Rattle.std.specs.List.{filter};
ghost use Rattle.std.specs.Option.{option_map_or};
ghost use Rattle.lint_core.specs.declared.condition.Block.{out-Block};
ghost use Rattle.lint_core.specs.declared.database.Value.TheVariants.{Null};
ghost use Rattle.lint_core.specs.Asked.{main_condition, main_entries};
ghost use Rattle.lint_core.specs.Comparison.{are_not_distinct};
ghost use Rattle.lint_core.specs.Condition.{truth, term_value};
ghost use Rattle.lint_core.specs.Fits.{main_tables, tables_of};
ghost use Rattle.lint_core.specs.Naming.{names};
ghost use Rattle.lint_core.specs.Question.{all_true, are_true_with, table_of};
ghost use Rattle.lint_core.specs.Truth.{is_true};
ghost use Rattle.sql_meaning.specs.Behind.{behind};
ghost use Rattle.sql_meaning.specs.inner.Plan.{are_same_values, none_fits};
ghost use Rattle.sql_meaning.specs.inner.Seen.{value_of};
ghost use Rattle.sql_meaning.specs.inner.Standing.{tables_of_levels, binding_of_levels};
ghost use Rattle.sql_meaning.specs.Stops.{Gives};

use crate::evaluation::{evaluate, row_count};
use crate::levels::Levels;
use crate::points::with_row;
use crate::stop::TruthStop;
use crate::value::{Seen, compare, term_value};
use lint_base::{Items, NoMemory};
use lint_core::{Binding, Cond, Database, Entry, Item, Query, Term, Truth, Value};
use lint_tables::Op;
use std::alloc::Global;

/// A query over a database, with the tables of its main entries.
#[derive(Clone, Copy)]
pub(crate) struct Main<'a> {
    pub alloc: Global,
    pub database: &'a Database,
    pub query: &'a Query,
    pub tables: &'a [Items<u32>],
}

/// The tables of the main entries, as the one level that there is.
pub(crate) fn main_tables(alloc: Global, query: &Query) -> Result<Items<Items<u32>>, NoMemory>
    ensures { IfOk result (λ tables. tables ≡ main_tables query.now) }
{
    let mut level = Items::new(alloc);
    for entry in query.block.entries.as_slice() {
        level.push(entry.table)?;
    }
    let mut tables = Items::new(alloc);
    tables.push(level)?;
    Ok(tables)
}

/// A value as an evaluation sees it.
pub(crate) fn seen(value: &Value) -> Seen<'_>
    ensures { value_of result ≡ value.now }
{
    match value {
        Value::Null => Seen::Null,
        Value::Int(number) => Seen::Number(i128::from(*number)),
        Value::Text(text) => Seen::Text(text),
    }
}

fn is_true(truth: Truth) -> bool
    ensures { result ≡ is_true truth }
{
    match truth {
        Truth::True => true,
        Truth::Unknown | Truth::False => false,
    }
}

/// Whether the values are equal, or both NULL.
pub(crate) fn are_not_distinct(left: &Seen, right: &Seen) -> bool
    ensures { result ≡ are_not_distinct (value_of left.now) (value_of right.now) }
{
    match left {
        Seen::Null => right.is_null(),
        Seen::Number(_) | Seen::Text(_) => is_true(compare(Op::Eq, left, right)),
    }
}

/// The value of a term at a binding of these tables.
pub(crate) fn value_at<'a>(
    database: &'a Database,
    term: &'a Term,
    tables: &[Items<u32>],
    binding: &Binding,
) -> Seen<'a>
    ensures { value_of result ≡ term_value database.now tables.now binding.now.levels term.now }
{
    let levels = Levels::Given {
        tables,
        rows: binding.levels.as_slice(),
    };
    term_value(database, term, &levels)
}

/// Whether the items have values that are not distinct at two bindings of these tables.
pub(crate) fn are_same_items(
    database: &Database,
    items: &[Item],
    tables: &[Items<u32>],
    one: &Binding,
    two: &Binding,
) -> bool
    ensures { result
        ≡ are_same_values database.now tables.now one.now.levels two.now.levels items.now }
{
    for item in items {
        let here = value_at(database, &item.term, tables, one);
        let there = value_at(database, &item.term, tables, two);
        if !are_not_distinct(&here, &there) {
            return false;
        }
    }
    true
}

/// The value of the item of this number; NULL where there is none.
pub(crate) fn item_value<'a>(
    database: &'a Database,
    items: &'a [Item],
    item: u32,
    tables: &[Items<u32>],
    binding: &Binding,
) -> Seen<'a>
    ensures { value_of result ≡ option_map_or
        (λ i. term_value database.now tables.now binding.now.levels i.term)
        (slice_get items.now item) Null }
{
    match items.get(item as usize) {
        Some(item) => value_at(database, &item.term, tables, binding),
        None => Seen::Null,
    }
}

fn is_true_in(
    alloc: Global,
    database: &Database,
    cond: &Cond,
    levels: &Levels,
) -> Result<bool, TruthStop>
    ensures { Gives (all_true
        (truth database.now cond.now (tables_of_levels levels.now) (binding_of_levels levels.now)
        ∷ [])) result }
{
    match evaluate(alloc, database, cond, levels) {
        Ok(truth) => Ok(is_true(truth)),
        Err(stop) => Err(stop),
    }
}

/// Whether a condition is true at a binding of these tables.
pub(crate) fn is_true_at(
    alloc: Global,
    database: &Database,
    cond: &Cond,
    tables: &[Items<u32>],
    one: &Binding,
) -> Result<bool, TruthStop>
    ensures { Gives
        (all_true (truth database.now cond.now tables.now one.now.levels ∷ [])) result }
{
    let levels = Levels::Given {
        tables,
        rows: one.levels.as_slice(),
    };
    is_true_in(alloc, database, cond, &levels)
}

/// Whether a condition is true at two bindings of these tables. It is evaluated at both.
pub(crate) fn are_true_at(
    alloc: Global,
    database: &Database,
    cond: &Cond,
    tables: &[Items<u32>],
    one: &Binding,
    two: &Binding,
) -> Result<bool, TruthStop>
    ensures { Gives (all_true
        (truth database.now cond.now tables.now one.now.levels
        ∷ truth database.now cond.now tables.now two.now.levels ∷ [])) result }
{
    let first = is_true_at(alloc, database, cond, tables, one)?;
    let second = is_true_at(alloc, database, cond, tables, two)?;
    Ok(first && second)
}

/// Whether all conditions are true. All are evaluated.
fn all_true_in(
    alloc: Global,
    database: &Database,
    conds: &[&Cond],
    levels: &Levels,
) -> Result<bool, TruthStop>
    ensures { Gives (all_true (map
        (λ c. truth database.now c (tables_of_levels levels.now) (binding_of_levels levels.now))
        (behind conds.now))) result }
{
    let mut all = true;
    for cond in conds {
        let holds = is_true_in(alloc, database, cond, levels)?;
        all = all && holds;
    }
    Ok(all)
}

/// Alike, in the level of these entries inside others.
fn all_true_inside(
    alloc: Global,
    database: &Database,
    conds: &[&Cond],
    entries: &[Entry],
    rows: &[usize],
    outer: &Levels,
) -> Result<bool, TruthStop>
    ensures { Gives (all_true (map
        (λ c. truth database.now c
        (tables_of_levels outer.now ++ tables_of entries.now ∷ [])
        (binding_of_levels outer.now ++ rows.now ∷ []))
        (behind conds.now))) result }
{
    let levels = Levels::Inside {
        entries,
        rows,
        outer: &*outer,
    };
    all_true_in(alloc, database, conds, &levels)
}

/// The conditions that name a main entry.
pub(crate) fn naming<'a>(
    alloc: Global,
    conds: &[&'a Cond],
    entry: u32,
) -> Result<Vec<&'a Cond>, NoMemory>
    ensures { IfOk result (λ found. behind found.items ≡ filter (names entry) (behind conds.now)) }
{
    let mut found = Vec::new(alloc);
    for cond in conds {
        if cond.names(entry) {
            found.push(*cond)?;
        }
    }
    Ok(found)
}

/// The conditions that do not.
pub(crate) fn not_naming<'a>(
    alloc: Global,
    conds: &[&'a Cond],
    entry: u32,
) -> Result<Vec<&'a Cond>, NoMemory>
    ensures { IfOk result (λ found.
        behind found.items ≡ filter (λ c. not (names entry c)) (behind conds.now)) }
{
    let mut found = Vec::new(alloc);
    for cond in conds {
        if !cond.names(entry) {
            found.push(*cond)?;
        }
    }
    Ok(found)
}

impl Main<'_> {
    /// Whether the conditions are true where the entry has this row, and the other entries theirs.
    pub(crate) fn are_true_with(
        &self,
        entry: u32,
        others: &Binding,
        row: usize,
        conds: &[&Cond],
    ) -> Result<bool, TruthStop>
        ensures { Gives (are_true_with self.now.database.now self.now.query.now
            entry others.now row (behind conds.now)) result }
    {
        let rows = with_row(self.alloc, entry, row, others.levels.as_slice())?;
        let outside = Levels::Given {
            tables: &[],
            rows: &[],
        };
        let entries = self.query.block.entries.as_slice();
        all_true_inside(
            self.alloc,
            self.database,
            conds,
            entries,
            rows.as_slice(),
            &outside,
        )
    }

    /// The table of a main entry; 0 where there is no such entry.
    fn table_of(&self, entry: u32) -> u32
        ensures { result ≡ table_of self.now.database.now self.now.query.now entry }
    {
        match self.query.block.entries.as_slice().get(entry as usize) {
            Some(entry) => entry.table,
            None => 0,
        }
    }

    /// Whether the conditions are all true at no row of the entry. They are evaluated at each.
    pub(crate) fn none_fits(
        &self,
        entry: u32,
        others: &Binding,
        conds: &[&Cond],
    ) -> Result<bool, TruthStop>
        ensures { Gives (none_fits self.now.database.now self.now.query.now
            entry others.now (behind conds.now)) result }
    {
        let mut some = false;
        for row in 0..row_count(self.database, self.table_of(entry)) {
            let fits = self.are_true_with(entry, others, row, conds)?;
            some = some || fits;
        }
        Ok(!some)
    }
}
