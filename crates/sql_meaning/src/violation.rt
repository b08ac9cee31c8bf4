//! The first row of a table at which one column, key, CHECK or foreign key is violated.
ghost use Rattle.std.specs.Prelude.{◌≡◌, true, false, not, ◌∷◌, [], length, IfSome, IfNone, IfOk, slice_get};
ghost use Rattle.std.specs.List.{list_all, list_any, filter, zip};
ghost use Rattle.lint_core.specs.Comparison.{is_same_text, are_equal, is_null};
ghost use Rattle.lint_core.specs.Condition.{is_false_at};
ghost use Rattle.lint_core.specs.Database.{rows_of, places_of};
ghost use Rattle.lint_core.specs.DatabaseFits.{has_few_rows};
ghost use Rattle.lint_core.specs.Domain.{is_in_domain};
ghost use Rattle.lint_core.specs.Meets.{value_in, agree};
ghost use Rattle.lint_core.specs.declared.database.Value.TheVariants.{Null};
ghost use Rattle.sql_meaning.specs.Violations.{place, row_numbers, is_twin, refers_to_nothing, outside, nulls, twice, false_checks, dangling};

use crate::evaluation::evaluate;
use crate::levels::Levels;
use crate::stop::TruthStop;
use lint_base::{Items, NoMemory, Str};
use lint_core::{Column, Cond, Database, Domain, ForeignKey, Key, Truth, Value, Violation};
use std::alloc::Global;

/// A row of the database: its table, and its place in it.
#[derive(Clone, Copy)]
struct Spot {
    table: u32,
    row: u32,
}

/// How many rows the table of this number has.
fn row_count(database: &Database, table: u32) -> u32
    requires { has_few_rows database.now ≡ true }
    ensures { result ≡ length (rows_of database.now table) }
{
    match database.tables.as_slice().get(table as usize) {
        Some(rows) => rows.as_slice().len() as u32,
        None => 0,
    }
}

/// The value of a column in a row, if it is there.
fn value_at<'d>(database: &'d Database, spot: Spot, column: u32) -> Option<&'d Value>
    ensures some { IfSome result (λ value.
        value_in database.now (place database.now spot.table spot.row) column ≡ value.now) }
    ensures none { IfNone result
        (value_in database.now (place database.now spot.table spot.row) column ≡ Null) }
{
    let Some(rows) = database.tables.as_slice().get(spot.table as usize) else {
        return None;
    };
    let Some(row) = rows.as_slice().get(spot.row as usize) else {
        return None;
    };
    row.values.as_slice().get(column as usize)
}

fn is_null_at(database: &Database, spot: Spot, column: u32) -> bool
    ensures { result
        ≡ is_null (value_in database.now (place database.now spot.table spot.row) column) }
{
    matches!(value_at(database, spot, column), None | Some(Value::Null))
}

fn is_same_text(one: &Str, other: &Str) -> bool
    ensures { result ≡ is_same_text one.now other.now }
{
    one.as_str() == other.as_str()
}

fn are_equal(one: &Value, other: &Value) -> bool
    ensures { result ≡ are_equal one.now other.now }
{
    match (one, other) {
        (Value::Int(one), Value::Int(other)) => *one == *other,
        (Value::Text(one), Value::Text(other)) => is_same_text(one, other),
        _ => false,
    }
}

fn are_equal_at(
    database: &Database,
    spot: Spot,
    column: u32,
    other: Spot,
    other_column: u32,
) -> bool
    ensures { result ≡ are_equal
        (value_in database.now (place database.now spot.table spot.row) column)
        (value_in database.now (place database.now other.table other.row) other_column) }
{
    match (
        value_at(database, spot, column),
        value_at(database, other, other_column),
    ) {
        (Some(value), Some(other)) => are_equal(value, other),
        _ => false,
    }
}

fn pairs_agree(
    database: &Database,
    spot: Spot,
    columns: &[u32],
    other: Spot,
    others: &[u32],
) -> bool
    ensures { result ≡ list_all
        (λ pair. are_equal
        (value_in database.now (place database.now spot.table spot.row) pair.0)
        (value_in database.now (place database.now other.table other.row) pair.1))
        (zip columns.now others.now) }
{
    columns.iter().zip(others).all(|(column, other_column)| are_equal_at(
        database,
        spot,
        *column,
        other,
        *other_column,
    ))
}

/// Whether two rows have equal values, and so no NULL, in each pair of columns.
#[tactic(auto, using(crate::proofs::ViolationsFound::agree_paired))]
fn agree(database: &Database, spot: Spot, columns: &[u32], other: Spot, others: &[u32]) -> bool
    ensures { result ≡ agree database.now
        (place database.now spot.table spot.row) columns.now
        (place database.now other.table other.row) others.now }
{
    columns.len() == others.len() && pairs_agree(database, spot, columns, other, others)
}

fn is_in_domain(domain: Domain, value: &Value) -> bool
    ensures { result ≡ is_in_domain domain value.now }
{
    match (domain, value) {
        (_, Value::Null) | (Domain::Text { .. }, Value::Text(_)) => true,
        (
            Domain::Number {
                least,
                greatest,
                ..
            },
            Value::Int(number),
        ) => { least <= *number && *number <= greatest }
        _ => false,
    }
}

fn is_in_domain_at(database: &Database, domain: Domain, spot: Spot, column: u32) -> bool
    ensures { result
        ≡ is_in_domain domain
        (value_in database.now (place database.now spot.table spot.row) column) }
{
    match value_at(database, spot, column) {
        Some(value) => is_in_domain(domain, value),
        None => true,
    }
}

/// The first value outside the column's domain.
pub(crate) fn first_outside(
    database: &Database,
    table: u32,
    number: u32,
    column: &Column,
) -> Option<Violation>
    requires { has_few_rows database.now ≡ true }
    ensures { result ≡ slice_get (outside database.now table number column.now) 0 }
{
    for row in 0..row_count(database, table) {
        if !is_in_domain_at(database, column.domain, Spot { table, row }, number) {
            return Some(Violation::Domain {
                table,
                row,
                column: number,
            });
        }
    }
    None
}

/// The first NULL in a column that is NOT NULL.
pub(crate) fn first_null(
    database: &Database,
    table: u32,
    number: u32,
    column: &Column,
) -> Option<Violation>
    requires { has_few_rows database.now ≡ true }
    ensures { result ≡ slice_get (nulls database.now table number column.now) 0 }
{
    for row in 0..row_count(database, table) {
        if column.not_null && is_null_at(database, Spot { table, row }, number) {
            return Some(Violation::Null {
                table,
                row,
                column: number,
            });
        }
    }
    None
}

/// Whether the other row is a later one that agrees in the key's columns.
fn is_twin(database: &Database, table: u32, key: &Key, row: u32, other: u32) -> bool
    ensures { result ≡ is_twin database.now table key.now row other }
{
    let columns = key.columns.as_slice();
    row < other
        && agree(
            database,
            Spot { table, row },
            columns,
            Spot { table, row: other },
            columns,
        )
}

/// The first later row that agrees with a row in the key's columns.
fn twin_of(database: &Database, table: u32, key: &Key, row: u32) -> Option<u32>
    requires { has_few_rows database.now ≡ true }
    ensures { result ≡ slice_get
        (filter (is_twin database.now table key.now row) (row_numbers database.now table)) 0 }
{
    for other in 0..row_count(database, table) {
        if is_twin(database, table, key, row, other) {
            return Some(other);
        }
    }
    None
}

/// The first two rows with one key.
pub(crate) fn first_twice(
    database: &Database,
    table: u32,
    number: u32,
    key: &Key,
) -> Option<Violation>
    requires { has_few_rows database.now ≡ true }
    ensures { result ≡ slice_get (twice database.now table number key.now) 0 }
{
    for row in 0..row_count(database, table) {
        if let Some(other) = twin_of(database, table, key, row) {
            return Some(Violation::Twice {
                table,
                key: number,
                row,
                other,
            });
        }
    }
    None
}

fn alone(alloc: Global, number: u32) -> Result<Items<u32>, NoMemory>
    ensures { IfOk result (λ list. list ≡ number ∷ []) }
{
    Ok(Items::from_vec(Vec::from_slice(alloc, &[number])?))
}

/// Whether a CHECK is false at a row. It has no truth where a scalar subquery gives two rows, and
/// is then not false.
#[tactic(auto, using(crate::proofs::Standing::tables_given, crate::proofs::Standing::binding_given))]
fn is_false_at(
    alloc: Global,
    database: &Database,
    check: &Cond,
    table: u32,
    row: u32,
) -> Result<bool, NoMemory>
    ensures { IfOk result (λ is.
        is ≡ is_false_at database.now check.now ((table ∷ []) ∷ []) ((row ∷ []) ∷ [])) }
{
    let tables = [alone(alloc, table)?];
    let rows = [alone(alloc, row)?];
    let levels = Levels::Given {
        tables: &tables,
        rows: &rows,
    };
    match evaluate(alloc, database, check, &levels) {
        Ok(truth) => Ok(truth == Truth::False),
        Err(TruthStop::TwoRows { .. }) => Ok(false),
        Err(TruthStop::NoMemory) => Err(NoMemory),
    }
}

/// The first row at which a CHECK is false.
pub(crate) fn first_false(
    alloc: Global,
    database: &Database,
    table: u32,
    number: u32,
    check: &Cond,
) -> Result<Option<Violation>, NoMemory>
    requires { has_few_rows database.now ≡ true }
    ensures { IfOk result (λ found.
        found ≡ slice_get (false_checks database.now table number check.now) 0) }
{
    for row in 0..row_count(database, table) {
        if is_false_at(alloc, database, check, table, row)? {
            return Ok(Some(Violation::Check {
                table,
                check: number,
                row,
            }));
        }
    }
    Ok(None)
}

/// Whether some column of the row is NULL.
fn some_null(database: &Database, spot: Spot, columns: &[u32]) -> bool
    ensures { result ≡ list_any
        (λ column. is_null (value_in database.now (place database.now spot.table spot.row) column))
        columns.now }
{
    columns
        .iter()
        .any(|column| is_null_at(database, spot, *column))
}

/// Whether some row of the target agrees with the row in the paired columns.
fn some_target(database: &Database, spot: Spot, key: &ForeignKey) -> bool
    requires { has_few_rows database.now ≡ true }
    ensures { result ≡ list_any
        (λ target. agree database.now (place database.now spot.table spot.row) key.now.columns
        target key.now.target_columns)
        (places_of database.now key.now.target) }
{
    for row in 0..row_count(database, key.target) {
        let target = Spot {
            table: key.target,
            row,
        };
        if agree(
            database,
            spot,
            key.columns.as_slice(),
            target,
            key.target_columns.as_slice(),
        ) {
            return true;
        }
    }
    false
}

fn refers_to_nothing(database: &Database, table: u32, key: &ForeignKey, row: u32) -> bool
    requires { has_few_rows database.now ≡ true }
    ensures { result ≡ refers_to_nothing database.now table key.now row }
{
    let spot = Spot { table, row };
    !some_null(database, spot, key.columns.as_slice()) && !some_target(database, spot, key)
}

/// The first row whose foreign key refers to no row.
pub(crate) fn first_dangling(
    database: &Database,
    table: u32,
    number: u32,
    key: &ForeignKey,
) -> Option<Violation>
    requires { has_few_rows database.now ≡ true }
    ensures { result ≡ slice_get (dangling database.now table number key.now) 0 }
{
    for row in 0..row_count(database, table) {
        if refers_to_nothing(database, table, key, row) {
            return Some(Violation::Dangling {
                table,
                key: number,
                row,
            });
        }
    }
    None
}
