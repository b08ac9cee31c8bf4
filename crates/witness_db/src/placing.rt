//! The rows that the row terms of a full case make, and the place of each row term among them.
ghost use Rattle.std.specs.Prelude.{◌≡◌, ◌≤◌, ◌<◌, ◌^◌, List, All, length, map, nat_eq, slice_get, false, IfOk};
ghost use Rattle.std.specs.Option.{option_map_or};
ghost use Rattle.lint_core.specs.declared.schema.Table.{Table};
ghost use Rattle.lint_core.specs.Database.{below};
ghost use Rattle.sort_formula.specs.Nodes.{nodes};
ghost use Rattle.ground_theory.specs.Assignments.{are_one, cells_at};
ghost use Rattle.instantiate.specs.Cases.{IsProblem, is_present};
ghost use Rattle.witness_db.specs.inner.Placing.{is_chosen_at, is_there, first_of, first_at, leads, rank, place_at, row_of, rows_in};

use ground_theory::Assignment;
use instantiate::{Problem, maker_numbers};
use lint_base::{Items, NoMemory};
use lint_core::{Row, Value};
use std::alloc::Global;

/// Whether a way of the clause is chosen.
fn is_chosen(choices: &[Option<u32>], clause: u32) -> bool
    ensures { result ≡ is_chosen_at choices.now clause }
{
    match choices.get(clause as usize) {
        Some(choice) => choice.is_some(),
        None => false,
    }
}

fn are_chosen(
    alloc: Global,
    choices: &[Option<u32>],
    clauses: &[u32],
) -> Result<Items<bool>, NoMemory>
    ensures { IfOk result (λ chosen. chosen ≡ map (is_chosen_at choices.now) clauses.now) }
{
    let mut chosen = Items::new(alloc);
    for clause in clauses {
        chosen.push(is_chosen(choices, *clause))?;
    }
    Ok(chosen)
}

/// Of each row term, whether it is present: whether the Exists that asks for it is taken.
pub(crate) fn presence(
    alloc: Global,
    problem: &Problem,
    choices: &[Option<u32>],
) -> Result<Items<bool>, NoMemory>
    requires problem { (schema : List Table) × IsProblem schema problem.now }
    requires few { length problem.now.rows.terms ≤ 512 }
    requires clauses { length problem.now.clauses ≤ 400000 }
    requires nodes { All (λ s. nodes s < 2 ^ 32) problem.now.sentences }
    ensures { IfOk result (λ present. present
        ≡ map (is_present problem.now choices.now) (below (length problem.now.rows.terms))) }
{
    let makers = maker_numbers(alloc, problem)?;
    are_chosen(alloc, choices, makers.as_slice())
}

fn is_there(present: &[bool], row: usize) -> bool
    ensures { result ≡ is_there present.now row }
{
    match present.get(row) {
        Some(there) => *there,
        None => false,
    }
}

/// Whether the two row terms are of one class.
fn are_one(assignment: &Assignment, row: usize, other: usize) -> bool
    ensures { result ≡ are_one assignment.now row other }
{
    let classes = assignment.same.as_slice();
    let Some(class) = classes.get(row) else {
        return false;
    };
    match classes.get(other) {
        Some(second) => class == second,
        None => false,
    }
}

/// The first row term present of the row term's class, from those before it.
fn first_of(present: &[bool], assignment: &Assignment, row: usize) -> usize
    ensures first { result ≡ first_of (is_there present.now) (are_one assignment.now) row }
    ensures within { result ≤ row }
{
    for other in 0..row {
        if is_there(present, other) && are_one(assignment, row, other) {
            return other;
        }
    }
    row
}

fn first_at(present: &[bool], assignment: &Assignment, row: usize) -> Option<u32>
    requires { row < 2 ^ 32 }
    ensures { result ≡ first_at (is_there present.now) (are_one assignment.now) row }
{
    if is_there(present, row) {
        Some(first_of(present, assignment, row) as u32)
    } else {
        None
    }
}

/// Of each row term present the first one of its class.
pub(crate) fn firsts(
    alloc: Global,
    present: &[bool],
    assignment: &Assignment,
) -> Result<Items<Option<u32>>, NoMemory>
    requires { length present.now ≤ 512 }
    ensures { IfOk result (λ firsts. firsts
        ≡ map (first_at (is_there present.now) (are_one assignment.now))
        (below (length present.now))) }
{
    let mut firsts = Items::new(alloc);
    for row in 0..present.len() {
        firsts.push(first_at(present, assignment, row))?;
    }
    Ok(firsts)
}

fn is_of_table(tables: &[u32], table: u32, row: usize) -> bool
    ensures { result ≡ option_map_or (λ t. nat_eq t table) (slice_get tables.now row) false }
{
    match tables.get(row) {
        Some(own) => *own == table,
        None => false,
    }
}

fn is_first(firsts: &[Option<u32>], row: usize) -> bool
    ensures { result ≡ option_map_or (λ o. option_map_or (λ first. nat_eq first row) o false)
        (slice_get firsts.now row) false }
{
    match firsts.get(row) {
        Some(Some(first)) => *first as usize == row,
        _ => false,
    }
}

/// Whether the row term is of the table, and the first one of its class.
fn leads(tables: &[u32], firsts: &[Option<u32>], table: u32, row: usize) -> bool
    ensures { result ≡ leads tables.now firsts.now table row }
{
    is_of_table(tables, table, row) && is_first(firsts, row)
}

/// How many such row terms stand before the end.
fn rank(tables: &[u32], firsts: &[Option<u32>], table: u32, end: u32) -> u32
    ensures { result ≡ rank tables.now firsts.now table end }
{
    let mut count = 0;
    for row in 0..end {
        if leads(tables, firsts, table, row as usize) {
            count += 1;
        }
    }
    count
}

/// The place of a row term's class among the rows of its table.
fn place_at(tables: &[u32], firsts: &[Option<u32>], row: usize) -> Option<u32>
    ensures { result ≡ place_at tables.now firsts.now row }
{
    let table = *tables.get(row)?;
    match firsts.get(row) {
        Some(Some(first)) => Some(rank(tables, firsts, table, *first)),
        _ => None,
    }
}

/// The place of each row term.
pub(crate) fn places_of(
    alloc: Global,
    tables: &[u32],
    firsts: &[Option<u32>],
) -> Result<Items<Option<u32>>, NoMemory>
    ensures { IfOk result (λ places. places
        ≡ map (place_at tables.now firsts.now) (below (length tables.now))) }
{
    let mut places = Items::new(alloc);
    for row in 0..tables.len() {
        places.push(place_at(tables, firsts, row))?;
    }
    Ok(places)
}

fn copied(alloc: Global, values: &[Value]) -> Result<Items<Value>, NoMemory>
    ensures { IfOk result (λ copy. copy ≡ values.now) }
{
    let mut copy = Items::new(alloc);
    for value in values {
        copy.push(value.copy(alloc)?)?;
    }
    Ok(copy)
}

/// The row with the cells of a row term.
fn row_of(alloc: Global, assignment: &Assignment, row: usize) -> Result<Row, NoMemory>
    ensures { IfOk result (λ made. made ≡ row_of assignment.now row) }
{
    let values = match assignment.cells.as_slice().get(row) {
        Some(cells) => copied(alloc, cells.as_slice())?,
        None => Items::new(alloc),
    };
    Ok(Row { values })
}

/// The rows of a table: one for each class of its row terms present.
fn rows_in(
    alloc: Global,
    tables: &[u32],
    firsts: &[Option<u32>],
    assignment: &Assignment,
    table: u32,
) -> Result<Items<Row>, NoMemory>
    ensures { IfOk result (λ rows. rows
        ≡ rows_in tables.now firsts.now assignment.now table) }
{
    let mut rows = Items::new(alloc);
    for row in 0..tables.len() {
        if leads(tables, firsts, table, row) {
            rows.push(row_of(alloc, assignment, row)?)?;
        }
    }
    Ok(rows)
}

/// The rows of each of so many tables.
pub(crate) fn rows_by_table(
    alloc: Global,
    tables: &[u32],
    firsts: &[Option<u32>],
    assignment: &Assignment,
    count: u32,
) -> Result<Items<Items<Row>>, NoMemory>
    ensures { IfOk result (λ rows. rows
        ≡ map (rows_in tables.now firsts.now assignment.now) (below count)) }
{
    let mut rows = Items::new(alloc);
    for table in 0..count {
        rows.push(rows_in(alloc, tables, firsts, assignment, table)?)?;
    }
    Ok(rows)
}
