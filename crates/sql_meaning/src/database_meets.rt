//! Whether a database meets a schema.
ghost use Rattle.std.specs.Prelude.{◌≡◌, ◌≤◌, ◌<◌, ◌^◌, true, IfOk, length, slice_get, is_none, List};
ghost use Rattle.lint_core.specs.declared.database.Database.{Database};
ghost use Rattle.lint_core.specs.declared.schema.Table.{Table};
ghost use Rattle.lint_core.specs.DatabaseFits.{database_fits, has_few_rows};
ghost use Rattle.lint_core.specs.Meets.{meets};
ghost use Rattle.lint_core.specs.Schema.{is_schema};
ghost use Rattle.sql_meaning.specs.Violations.{numbered, outside, nulls, twice, false_checks, dangling, table_violations, violations, first_violation};

use crate::violation::{first_dangling, first_false, first_null, first_outside, first_twice};
use lint_base::NoMemory;
use lint_core::{Column, Cond, Database, ForeignKey, Key, Schema, Table, Violation};
use std::alloc::Global;

fn outside_a_column(database: &Database, table: u32, columns: &[Column]) -> Option<Violation>
    requires few { has_few_rows database.now ≡ true }
    requires columns { length columns.now < 2 ^ 32 }
    ensures { result ≡ slice_get (numbered (outside database.now table) 0 columns.now) 0 }
{
    for (number, column) in columns.iter().enumerate() {
        if let Some(found) = first_outside(database, table, number as u32, column) {
            return Some(found);
        }
    }
    None
}

fn null_in_a_column(database: &Database, table: u32, columns: &[Column]) -> Option<Violation>
    requires few { has_few_rows database.now ≡ true }
    requires columns { length columns.now < 2 ^ 32 }
    ensures { result ≡ slice_get (numbered (nulls database.now table) 0 columns.now) 0 }
{
    for (number, column) in columns.iter().enumerate() {
        if let Some(found) = first_null(database, table, number as u32, column) {
            return Some(found);
        }
    }
    None
}

fn twice_in_a_key(database: &Database, table: u32, keys: &[Key]) -> Option<Violation>
    requires few { has_few_rows database.now ≡ true }
    requires keys { length keys.now < 2 ^ 32 }
    ensures { result ≡ slice_get (numbered (twice database.now table) 0 keys.now) 0 }
{
    for (number, key) in keys.iter().enumerate() {
        if let Some(found) = first_twice(database, table, number as u32, key) {
            return Some(found);
        }
    }
    None
}

fn false_check(
    alloc: Global,
    database: &Database,
    table: u32,
    checks: &[Cond],
) -> Result<Option<Violation>, NoMemory>
    requires few { has_few_rows database.now ≡ true }
    requires checks { length checks.now < 2 ^ 32 }
    ensures { IfOk result (λ found.
        found ≡ slice_get (numbered (false_checks database.now table) 0 checks.now) 0) }
{
    for (number, check) in checks.iter().enumerate() {
        if let Some(found) = first_false(alloc, database, table, number as u32, check)? {
            return Ok(Some(found));
        }
    }
    Ok(None)
}

fn dangling_key(database: &Database, table: u32, keys: &[ForeignKey]) -> Option<Violation>
    requires few { has_few_rows database.now ≡ true }
    requires keys { length keys.now < 2 ^ 32 }
    ensures { result ≡ slice_get (numbered (dangling database.now table) 0 keys.now) 0 }
{
    for (number, key) in keys.iter().enumerate() {
        if let Some(found) = first_dangling(database, table, number as u32, key) {
            return Some(found);
        }
    }
    None
}

/// The first violation in a table of this number.
fn violation_of_table(
    alloc: Global,
    database: &Database,
    number: u32,
    table: &Table,
) -> Result<Option<Violation>, NoMemory>
    requires few { has_few_rows database.now ≡ true }
    requires columns { length table.now.columns < 2 ^ 32 }
    requires keys { length table.now.keys < 2 ^ 32 }
    requires checks { length table.now.checks < 2 ^ 32 }
    requires foreign { length table.now.foreign < 2 ^ 32 }
    ensures { IfOk result (λ found.
        found ≡ slice_get (table_violations database.now number table.now) 0) }
{
    let columns = table.columns.as_slice();
    let mut found = outside_a_column(database, number, columns);
    if found.is_none() {
        found = null_in_a_column(database, number, columns);
    }
    if found.is_none() {
        found = twice_in_a_key(database, number, table.keys.as_slice());
    }
    if found.is_none() {
        found = false_check(alloc, database, number, table.checks.as_slice())?;
    }
    if found.is_none() {
        found = dangling_key(database, number, table.foreign.as_slice());
    }
    Ok(found)
}

/// The first violation in the tables of a schema.
fn violation_of_tables(
    alloc: Global,
    database: &Database,
    tables: &[Table],
) -> Result<Option<Violation>, NoMemory>
    requires few { has_few_rows database.now ≡ true }
    requires schema { is_schema tables.now ≡ true }
    ensures { IfOk result (λ found. found ≡ first_violation tables.now database.now) }
{
    for (number, table) in tables.iter().enumerate() {
        if let Some(found) = violation_of_table(alloc, database, number as u32, table)? {
            return Ok(Some(found));
        }
    }
    Ok(None)
}

/// The first place at which a database that fits a schema does not meet it: by table; then values
/// outside their domains, NULLs in columns that are NOT NULL, two rows with one key, false CHECKs
/// and rows whose foreign key refers to nothing; each by column, key or CHECK, and then by row.
/// `None` exactly where the database meets the schema.
#[tactic(auto, using(crate::proofs::ViolationsMet::none_violated))]
pub fn meets(
    alloc: Global,
    schema: &Schema,
    database: &Database,
) -> Result<Option<Violation>, NoMemory>
    requires fits { database_fits schema.now database.now ≡ true }
    requires few { has_few_rows database.now ≡ true }
    ensures first { IfOk result (λ found. found ≡ first_violation schema.now database.now) }
    ensures met { IfOk result (λ found. is_none found ≡ meets schema.now database.now) }
{
    violation_of_tables(alloc, database, schema.tables().as_slice())
}

/// A database that fits a schema meets it exactly where it has no violation. The function does
/// nothing: its contract is a law about the definitions.
pub fn violations_are_failures()
    ensures { (schema : List Table) (database : Database) → database_fits schema database ≡ true
        → is_none (first_violation schema database) ≡ meets schema database }
{}
