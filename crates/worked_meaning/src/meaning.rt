//! What conditions and constraints mean, in databases of a text. What is judged are copies, so
//! that these are made too.
ghost use Rattle.std.specs.Prelude.{◌≡◌};
ghost use Rattle.lint_core.specs.DatabaseFits.{has_few_rows};

use crate::bindings::binding;
use case_pages::{database, said};
use lint_base::{Items, NoMemory};
use lint_core::{Database, Query, Schema, Truth};
use sql_meaning::{TruthStop, meets};
use std::alloc::Global;

/// The tables of the entries of the main FROM list, as one level.
fn main_tables(alloc: Global, query: &Query) -> Result<Items<Items<u32>>, NoMemory> {
    let mut numbers = Items::new(alloc);
    for entry in query.block.entries.as_slice() {
        numbers.push(entry.table)?;
    }
    let mut tables = Items::new(alloc);
    tables.push(numbers)?;
    Ok(tables)
}

/// Why something has no truth: the place of the scalar subquery that gives two rows.
pub(crate) fn shown_stop(alloc: Global, stop: TruthStop) -> Result<String, NoMemory> {
    match stop {
        TruthStop::TwoRows { span } => {
            Ok(format!(in alloc; "two rows at {}..{}", span.from, span.to)?)
        }
        TruthStop::NoMemory => Err(NoMemory),
    }
}

/// A copy of the database of a text.
pub(crate) fn database_copy(alloc: Global, rows: &str) -> Result<Database, NoMemory> {
    let given = database(alloc, rows)?;
    given.copy(alloc)
}

/// The truth of the query's condition in a database, at the binding of a text.
fn truth_at(
    alloc: Global,
    schema: &Schema,
    query: &Query,
    database: &Database,
    at: &str,
) -> Result<Truth, TruthStop> {
    let tables = main_tables(alloc, query)?;
    let at = binding(alloc, at)?;
    sql_meaning::truth(alloc, schema, database, &query.block.cond, &tables, &at)
}

/// The truth of the query's condition. The text is `ROWS at BINDING`.
pub(crate) fn truth(
    alloc: Global,
    schema: &Schema,
    query: &Query,
    text: &str,
) -> Result<String, NoMemory> {
    let Some((rows, at)) = text.split_once(" at ") else {
        return said(alloc, "no binding");
    };
    let query = query.copy(alloc)?;
    let database = database_copy(alloc, rows)?;
    match truth_at(alloc, schema, &query, &database, at) {
        Ok(truth) => Ok(format!(in alloc; "{truth:?}")?),
        Err(stop) => shown_stop(alloc, stop),
    }
}

fn has_few_rows(database: &Database) -> bool
    ensures { result ≡ has_few_rows database.now }
{
    database
        .tables
        .as_slice()
        .iter()
        .all(|rows| rows.as_slice().len() < 0x1_0000_0000)
}

/// The first violation of the schema in the rows of the text.
pub(crate) fn violation(alloc: Global, schema: &Schema, text: &str) -> Result<String, NoMemory> {
    let database = database_copy(alloc, text)?;
    if !database.fits(schema) || !has_few_rows(&database) {
        return said(alloc, "rows of another schema");
    }
    match meets(alloc, schema, &database)? {
        Some(violation) => Ok(format!(in alloc; "{violation:?}")?),
        None => said(alloc, "none"),
    }
}
