//! What is answered of sentences.
ghost use Rattle.std.specs.Prelude.{◌≡◌, [], true};
ghost use Rattle.std.specs.List.{list_all};
ghost use Rattle.sort_formula.specs.Sentences.{formula_fits};

use lint_base::NoMemory;
use lint_core::{Database, Schema, Value};
use lint_engine::{Settled, ask_sentence};
use sort_formula::{Atom, Formula, Sentence, Side, exists};
use std::alloc::Global;

/// That some row of the table has a number in this column, and at most this one.
fn some_row(
    alloc: Global,
    table: u32,
    column: u32,
    most: i128,
) -> Result<Option<Sentence>, NoMemory> {
    let at_most = Atom::Le {
        left: Side::Cell { row: 0, column },
        right: Side::Zero,
        most,
    };
    Ok(Sentence::new(exists(alloc, table, Formula::Atom(at_most))?))
}

fn all_fit(schema: &Schema, parts: &[Sentence]) -> bool
    ensures { result ≡ list_all (λ s. formula_fits schema.now s []) parts.now }
{
    parts.iter().all(|s| s.fits(schema))
}

/// The number in a cell, if there is one.
fn number_in(database: &Database, table: u32, row: u32, column: u32) -> Option<i64> {
    let rows = database.tables.as_slice().get(table as usize)?;
    let cells = rows.as_slice().get(row as usize)?.values.as_slice();
    match cells.get(column as usize) {
        Some(Value::Int(number)) => Some(*number),
        _ => None,
    }
}

/// What is answered of the one part that some row of the table has at most this number in this
/// column.
pub(crate) fn settled(
    alloc: Global,
    schema: &Schema,
    table: u32,
    column: u32,
    most: i128,
) -> Result<String, NoMemory> {
    let Some(sentence) = some_row(alloc, table, column, most)? else {
        return Ok(String::from_str(alloc, "no sentence")?);
    };
    let parts = [sentence];
    if !all_fit(schema, &parts) {
        return Ok(String::from_str(alloc, "no such table or column")?);
    }
    shown(
        alloc,
        ask_sentence(alloc, schema, &parts, 200_000)?,
        table,
        column,
    )
}

/// An answer; of a database the part, how many rows, and the number in this column of the first.
fn shown(alloc: Global, settled: Settled, table: u32, column: u32) -> Result<String, NoMemory> {
    match settled {
        Settled::Never(_) => Ok(String::from_str(alloc, "never")?),
        Settled::Sometimes {
            database,
            part,
            rows,
        } => {
            let row = rows.as_slice().first().copied().unwrap_or(u32::MAX);
            let number = number_in(&database, table, row, column).unwrap_or(0);
            let count = rows.as_slice().len();
            Ok(format!(in alloc; "part {part}, {count} row, {number} there")?)
        }
        _ => Ok(String::from_str(alloc, "not settled")?),
    }
}
