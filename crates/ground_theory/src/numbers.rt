//! The bounds that literals ask for: each that a literal states, the domain of each class's cell,
//! and that the cells of rows of one class are equal.
ghost use Rattle.std.specs.Prelude.{◌≡◌, ◌≤◌, ◌<◌, ◌++◌, IfOk, OnOk, length, slice_get, MatchOption, ⊤};
ghost use Rattle.ground_theory.specs.Assignments.{domains_at};
ghost use Rattle.ground_theory.specs.inner.Sums.{told, variable_of, bound_stated, range_of, ranges};
ghost use Rattle.ground_theory.specs.inner.Sums.{same_between, join_stated};
ghost use Rattle.ground_theory.specs.inner.Sums.{low_stated, high_stated, equal_stated, after};
ghost use Rattle.ground_theory.specs.inner.Sums.{AreFew, IsInRoom, AreInRoom, AreKnown};
ghost use Rattle.ground_theory.specs.inner.Sums.{HaveRoom, HasBothRows, HaveColumns};

use crate::joining::Join;
use crate::literal::Frame;
use crate::numbering::{Cell, Numbering};
use crate::sifting::Bound;
use diff_bounds::Edge;
use lint_base::NoMemory;
use lint_core::{Domain, SumEdge};
use std::alloc::Global;

/// An edge of a certificate, and the bound between variables that it states.
#[derive(Clone, Copy)]
pub(crate) struct Stated {
    pub(crate) origin: SumEdge,
    pub(crate) edge: Edge,
}

/// The bounds of literals.
pub(crate) fn bound_edges(
    alloc: Global,
    numbering: &Numbering,
    bounds: &[Bound],
) -> Result<Vec<Stated>, NoMemory>
    requires few { AreFew numbering.now.places.items }
    requires room { AreInRoom numbering.now.places.items bounds.now }
    ensures { IfOk result (λ list. list.items
        ≡ told (bound_stated numbering.now.places.items) 0 bounds.now) }
{
    let mut list = Vec::new(alloc);
    for bound in bounds {
        list.push(Stated {
            origin: SumEdge::Fact(bound.fact),
            edge: Edge {
                left: variable(numbering, bound.left),
                right: variable(numbering, bound.right),
                most: bound.most,
            },
        })?;
    }
    Ok(list)
}

/// The variable of a cell; that of zero where there is none.
fn variable(numbering: &Numbering, cell: Option<Cell>) -> u32
    requires few { AreFew numbering.now.places.items }
    requires room { IsInRoom numbering.now.places.items cell }
    ensures { result ≡ variable_of numbering.now.places.items cell }
{
    match cell {
        Some(cell) => after(numbering.number(cell.row, cell.column)),
        None => 0,
    }
}

/// The domains of the cells that name their classes.
pub(crate) fn range_edges(
    alloc: Global,
    frame: &Frame,
    labels: &[u32],
    cells: &[Cell],
) -> Result<Vec<Stated>, NoMemory>
    requires few { length cells.now ≤ 32768 }
    requires rows { AreKnown (length labels.now) cells.now }
    ensures { IfOk result (λ list. list.items
        ≡ told (range_of frame.now labels.now) 0 cells.now) }
{
    let mut list = Vec::new(alloc);
    for (number, cell) in cells.iter().enumerate() {
        if labels[cell.row as usize] == cell.row {
            let domain = domain(frame, cell.row, cell.column);
            add_range(&mut list, *cell, number as u32 + 1, domain)?;
        }
    }
    Ok(list)
}

/// Adds both bounds of a number cell.
fn add_range(
    list: &mut Vec<Stated>,
    cell: Cell,
    variable: u32,
    domain: Option<Domain>,
) -> Result<(), NoMemory>
    ensures { OnOk result (list.new.items ≡ list.old.items ++ ranges cell variable domain) }
{
    if let Some(
        Domain::Number {
            least,
            greatest,
            ..
        },
    ) = domain
    {
        list.push(low(cell, variable, least))?;
        list.push(high(cell, variable, greatest))?;
    }
    Ok(())
}

fn low(cell: Cell, variable: u32, least: i64) -> Stated
    ensures { result ≡ low_stated cell variable least }
{
    Stated {
        origin: SumEdge::Low {
            row: cell.row,
            column: cell.column,
        },
        edge: Edge {
            left: 0,
            right: variable,
            most: -i128::from(least),
        },
    }
}

fn high(cell: Cell, variable: u32, greatest: i64) -> Stated
    ensures { result ≡ high_stated cell variable greatest }
{
    Stated {
        origin: SumEdge::High {
            row: cell.row,
            column: cell.column,
        },
        edge: Edge {
            left: variable,
            right: 0,
            most: i128::from(greatest),
        },
    }
}

/// That the cells of rows of one class are equal.
pub(crate) fn same_edges(
    alloc: Global,
    frame: &Frame,
    joins: &[Join],
    numbering: &Numbering,
) -> Result<Vec<Stated>, NoMemory>
    requires few { AreFew numbering.now.places.items }
    requires joins { HaveRoom numbering.now.places.items joins.now }
    requires columns { HaveColumns frame.now }
    ensures { IfOk result (λ list. list.items
        ≡ told (join_stated frame.now numbering.now.places.items) 0 joins.now) }
{
    let mut list = Vec::new(alloc);
    for join in joins {
        add_join(&mut list, frame, *join, numbering)?;
    }
    Ok(list)
}

/// Adds that the cells of two rows are equal.
fn add_join(
    list: &mut Vec<Stated>,
    frame: &Frame,
    join: Join,
    numbering: &Numbering,
) -> Result<(), NoMemory>
    requires few { AreFew numbering.now.places.items }
    requires room { HasBothRows numbering.now.places.items join }
    requires columns { HaveColumns frame.now }
    ensures { OnOk result (list.new.items
        ≡ list.old.items ++ join_stated frame.now numbering.now.places.items 0 join) }
{
    for (column, domain) in domains(frame, join.row).iter().enumerate() {
        if let Domain::Number { .. } = domain {
            let column = column as u32;
            let left = numbering.number(join.row, column);
            let right = numbering.number(join.other, column);
            add_same(list, join, column, left, right)?;
        }
    }
    Ok(())
}

/// Adds that two cells are equal, where both have a variable.
fn add_same(
    list: &mut Vec<Stated>,
    join: Join,
    column: u32,
    left: Option<u32>,
    right: Option<u32>,
) -> Result<(), NoMemory>
    requires left { MatchOption left ⊤ (λ n. n < 32768) }
    requires right { MatchOption right ⊤ (λ n. n < 32768) }
    ensures { OnOk result (list.new.items ≡ list.old.items ++ same_between join column left right) }
{
    if let (Some(left), Some(right)) = (left, right) {
        let fact = join.fact;
        list.push(equal(SumEdge::Same { fact, column }, left + 1, right + 1))?;
        list.push(equal(SumEdge::Back { fact, column }, right + 1, left + 1))?;
    }
    Ok(())
}

fn equal(origin: SumEdge, left: u32, right: u32) -> Stated
    ensures { result ≡ equal_stated origin left right }
{
    Stated {
        origin,
        edge: Edge {
            left,
            right,
            most: 0,
        },
    }
}

/// The variable behind that of zero.
fn after(number: Option<u32>) -> u32
    requires { MatchOption number ⊤ (λ n. n < 32768) }
    ensures { result ≡ after number }
{
    match number {
        Some(number) => number + 1,
        None => 0,
    }
}

/// The domain of a row term's column.
pub(crate) fn domain(frame: &Frame, row: u32, column: u32) -> Option<Domain>
    ensures { result ≡ slice_get (domains_at frame.now row) column }
{
    domains(frame, row).get(column as usize).copied()
}

/// The domains of a row term's columns.
pub(crate) fn domains(frame: &Frame, row: u32) -> &[Domain]
    ensures { result.now ≡ domains_at frame.now row }
{
    match frame.tables.as_slice().get(row as usize) {
        Some(table) => match frame.domains.as_slice().get(*table as usize) {
            Some(domains) => domains.as_slice(),
            None => &[],
        },
        None => &[],
    }
}
