//! The value of an item at a binding.
ghost use Rattle.std.specs.Prelude.{◌≡◌, ◌∷◌, [], true, IfOk};
ghost use Rattle.lint_core.specs.Condition.{cell_value, term_value};
ghost use Rattle.lint_core.specs.Fits.{at_entry, is_plain, tables_of};
ghost use Rattle.lint_core.specs.Question.{value_of_item};
ghost use Rattle.lint_engine.specs.inner.Plain.{are_plain, value_seen};

use lint_base::NoMemory;
use lint_core::{Binding, Database, Entry, Query, Term, Value};
use std::alloc::Global;

/// The row that the binding has for an entry of the main query.
fn row_of(binding: &Binding, entry: u32) -> Option<u32>
    ensures { result ≡ at_entry binding.now.levels 0 entry }
{
    match binding.levels.as_slice().first() {
        Some(rows) => rows.as_slice().get(entry as usize).copied(),
        None => None,
    }
}

/// What stands in a column of that row, if it is there.
fn cell<'a>(
    database: &'a Database,
    entries: &[Entry],
    binding: &Binding,
    entry: u32,
    column: u32,
) -> Option<&'a Value>
    ensures { value_seen result ≡ cell_value database.now (tables_of entries.now ∷ [])
        binding.now.levels 0 entry column }
{
    let table = Entry::table_of(entries, entry)?;
    let row = row_of(binding, entry)?;
    let rows = database.tables.as_slice().get(table as usize)?;
    rows.as_slice()
        .get(row as usize)?
        .values
        .as_slice()
        .get(column as usize)
}

fn copied(alloc: Global, value: Option<&Value>) -> Result<Value, NoMemory>
    ensures { IfOk result (λ copy. copy ≡ value_seen value.entry) }
{
    match value {
        Some(value) => value.copy(alloc),
        None => Ok(Value::Null),
    }
}

/// The value of a term to which nothing is added.
fn plain_value(
    alloc: Global,
    database: &Database,
    entries: &[Entry],
    binding: &Binding,
    term: &Term,
) -> Result<Value, NoMemory>
    requires { is_plain term.now ≡ true }
    ensures { IfOk result (λ value. value
        ≡ term_value database.now (tables_of entries.now ∷ []) binding.now.levels term.now) }
{
    match term {
        Term::Cell {
            level,
            entry,
            column,
            ..
        } => {
            if *level > 0 {
                return Ok(Value::Null);
            }
            copied(alloc, cell(database, entries, binding, *entry, *column))
        }
        Term::Number { value, .. } => Ok(Value::Int(*value)),
        Term::Text(text) => Ok(Value::Text(text.copy(alloc)?)),
        Term::Null => Ok(Value::Null),
    }
}

/// The value of the item of this number; NULL where there is none.
pub(crate) fn value_of_item(
    alloc: Global,
    database: &Database,
    query: &Query,
    binding: &Binding,
    item: u32,
) -> Result<Value, NoMemory>
    requires { are_plain query.now ≡ true }
    ensures { IfOk result (λ value. value
        ≡ value_of_item database.now query.now binding.now item) }
{
    match query.items.as_slice().get(item as usize) {
        Some(item) => {
            let entries = query.block.entries.as_slice();
            plain_value(alloc, database, entries, binding, &item.term)
        }
        None => Ok(Value::Null),
    }
}
