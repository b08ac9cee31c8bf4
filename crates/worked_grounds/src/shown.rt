//! How orders, row terms and clauses are written.
ghost use Rattle.std.specs.Prelude.{◌≤◌, length};

use case_pages::{push_atom, said};
use ground_theory::{Clause, Guard, Literal};
use insert_lines::push_name;
use instantiate::Problem;
use lint_base::NoMemory;
use lint_core::Schema;
use sorted_skolem::RowTerm;
use std::alloc::{AllocError, Global};

// ---- tables

/// Adds the name of a table of the schema.
fn push_table(out: &mut String, schema: &Schema, table: u32) -> Result<(), AllocError> {
    match schema.tables().as_slice().get(table as usize) {
        Some(table) => push_name(out, &table.name),
        None => out.push_str("no table"),
    }
}

/// Adds the names of tables, each behind a comma where something stands before it.
fn push_tables(out: &mut String, schema: &Schema, tables: &[u32]) -> Result<(), AllocError> {
    for table in tables {
        if !out.is_empty() {
            out.push_str(", ")?;
        }
        push_table(out, schema, *table)?;
    }
    Ok(())
}

/// The place of the least number; 0 where there is none.
fn place_of_least(numbers: &[u32]) -> usize
    ensures { result ≤ length numbers.now }
{
    let least = numbers.iter().copied().min().unwrap_or(0);
    numbers.iter().position(|n| *n == least).unwrap_or(0)
}

/// The tables of a cycle, from the least on.
pub(crate) fn cycle(alloc: Global, schema: &Schema, tables: &[u32]) -> Result<String, NoMemory> {
    let (before, from) = tables.split_at(place_of_least(tables));
    let mut names = String::new(alloc);
    push_tables(&mut names, schema, from)?;
    push_tables(&mut names, schema, before)?;
    Ok(format!(in alloc; "cycle {}", names.as_str())?)
}

/// The order of the tables of a problem, and how many row terms and clauses it has.
pub(crate) fn summary(
    alloc: Global,
    schema: &Schema,
    problem: &Problem,
) -> Result<String, NoMemory> {
    let mut out = String::new(alloc);
    push_tables(&mut out, schema, problem.order.tables.as_slice())?;
    let rows = problem.rows.terms.as_slice().len();
    let nodes = problem.clauses.as_slice().len();
    write!(out, ": rows {rows}, nodes {nodes}")?;
    Ok(out)
}

/// The number of a text; one that nothing has, where it is none.
fn number(text: &str) -> usize {
    text.parse::<usize>().unwrap_or(usize::MAX)
}

// ---- row terms

fn push_term(out: &mut String, schema: &Schema, term: &RowTerm) -> Result<(), AllocError> {
    push_table(out, schema, term.table)?;
    write!(out, " {}.{}", term.sentence, term.node)?;
    for (place, row) in term.rows.as_slice().iter().enumerate() {
        out.push_str(if place == 0 { " at " } else { ", " })?;
        write!(out, "{row}")?;
    }
    Ok(())
}

/// A row term of a problem.
pub(crate) fn row(
    alloc: Global,
    schema: &Schema,
    problem: &Problem,
    text: &str,
) -> Result<String, NoMemory> {
    let terms = problem.rows.terms.as_slice();
    let Some(term) = terms.get(number(text)) else {
        return said(alloc, "no such row");
    };
    let mut out = String::new(alloc);
    push_term(&mut out, schema, term)?;
    Ok(out)
}

// ---- clauses

fn push_guards(out: &mut String, guards: &[Guard]) -> Result<(), AllocError> {
    if guards.is_empty() {
        return out.push_str("always");
    }
    for (place, guard) in guards.iter().enumerate() {
        if place > 0 {
            out.push_str(", ")?;
        }
        write!(out, "{}.{}", guard.clause, guard.way)?;
    }
    Ok(())
}

fn push_way(out: &mut String, way: &Option<Literal>) -> Result<(), AllocError> {
    match way {
        Some(literal) => push_atom(out, &literal.atom),
        None => out.push('-'),
    }
}

fn push_ways(out: &mut String, ways: &[Option<Literal>]) -> Result<(), AllocError> {
    if ways.is_empty() {
        return out.push_str("none");
    }
    for (place, way) in ways.iter().enumerate() {
        if place > 0 {
            out.push_str(" or ")?;
        }
        push_way(out, way)?;
    }
    Ok(())
}

fn push_clause(out: &mut String, clause: &Clause) -> Result<(), AllocError> {
    push_guards(out, clause.guards.as_slice())?;
    out.push_str(": ")?;
    push_ways(out, clause.ways.as_slice())
}

/// Clauses with semicolons between them.
fn listed(alloc: Global, clauses: &[Clause]) -> Result<String, NoMemory> {
    let mut out = String::new(alloc);
    for (place, clause) in clauses.iter().enumerate() {
        if place > 0 {
            out.push_str("; ")?;
        }
        push_clause(&mut out, clause)?;
    }
    Ok(out)
}

/// The clause of a problem whose number is the text, or those from a number to another.
pub(crate) fn clauses(alloc: Global, problem: &Problem, text: &str) -> Result<String, NoMemory> {
    let (first, last) = text.split_once(' ').unwrap_or((text, text));
    let clauses = problem.clauses.as_slice();
    match clauses.get(number(first)..=number(last)) {
        Some(clauses) => listed(alloc, clauses),
        None => said(alloc, "no such clauses"),
    }
}
