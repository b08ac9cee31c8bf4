//! What literals say, by kind.
ghost use Rattle.std.specs.Prelude.{◌≡◌, ◌≤◌, ◌++◌, IfOk, OnOk, length};
ghost use Rattle.ground_theory.specs.inner.Sifting.{gathered, same_of, other_of, null_of, firm_of};
ghost use Rattle.ground_theory.specs.inner.Sifting.{bound_of, cell_of, firm_side};

use crate::joining::Join;
use crate::literal::Literal;
use crate::numbering::{Cell, Named};
use lint_base::NoMemory;
use sort_formula::{Atom, Side};
use std::alloc::Global;

/// A literal that bounds a difference. A side without a cell is zero.
#[derive(Clone, Copy)]
pub(crate) struct Bound {
    pub(crate) fact: u32,
    pub(crate) left: Option<Cell>,
    pub(crate) right: Option<Cell>,
    pub(crate) most: i128,
}

/// Rows that are one, and that are not; cells that are NULL, and that are not; bounds.
#[derive(Drop)]
pub(crate) struct Sifted {
    pub(crate) sames: Vec<Join>,
    pub(crate) others: Vec<Join>,
    pub(crate) nulls: Vec<Named>,
    pub(crate) firms: Vec<Named>,
    pub(crate) bounds: Vec<Bound>,
}

/// The literals by kind, each with its number.
pub(crate) fn sift(alloc: Global, literals: &[Literal]) -> Result<Sifted, NoMemory>
    requires { length literals.now ≤ 400000 }
    ensures sames { IfOk result (λ s. s.sames.items ≡ gathered same_of 0 literals.now) }
    ensures others { IfOk result (λ s. s.others.items ≡ gathered other_of 0 literals.now) }
    ensures nulls { IfOk result (λ s. s.nulls.items ≡ gathered null_of 0 literals.now) }
    ensures firms { IfOk result (λ s. s.firms.items ≡ gathered firm_of 0 literals.now) }
    ensures bounds { IfOk result (λ s. s.bounds.items ≡ gathered bound_of 0 literals.now) }
{
    let mut sifted = Sifted {
        sames: Vec::new(alloc),
        others: Vec::new(alloc),
        nulls: Vec::new(alloc),
        firms: Vec::new(alloc),
        bounds: Vec::new(alloc),
    };
    for (number, literal) in literals.iter().enumerate() {
        sifted.add(number as u32, &literal.atom)?;
    }
    Ok(sifted)
}

impl Sifted {
    /// Adds what an atom says.
    fn add(&mut self, fact: u32, atom: &Atom) -> Result<(), NoMemory>
        ensures sames { OnOk result (self.new.sames.items
            ≡ self.old.sames.items ++ same_of fact atom.now) }
        ensures others { OnOk result (self.new.others.items
            ≡ self.old.others.items ++ other_of fact atom.now) }
        ensures nulls { OnOk result (self.new.nulls.items
            ≡ self.old.nulls.items ++ null_of fact atom.now) }
        ensures firms { OnOk result (self.new.firms.items
            ≡ self.old.firms.items ++ firm_of fact atom.now) }
        ensures bounds { OnOk result (self.new.bounds.items
            ≡ self.old.bounds.items ++ bound_of fact atom.now) }
    {
        match atom {
            Atom::Same { row, other } => self.sames.push(join(fact, *row, *other))?,
            Atom::Other { row, other } => self.others.push(join(fact, *row, *other))?,
            Atom::IsNull { row, column } => self.nulls.push(named(fact, *row, *column))?,
            Atom::NotNull { row, column } => self.firms.push(named(fact, *row, *column))?,
            Atom::Le { left, right, most } => {
                self.bounds.push(Bound {
                    fact,
                    left: cell(left),
                    right: cell(right),
                    most: *most,
                })?;
                add_sides(&mut self.firms, fact, left, right)?;
            }
            Atom::TextEq { left, right } | Atom::TextNe { left, right } => {
                add_sides(&mut self.firms, fact, left, right)?
            }
        }
        Ok(())
    }
}

/// Adds the cells of the sides of a comparison.
fn add_sides(firms: &mut Vec<Named>, fact: u32, left: &Side, right: &Side) -> Result<(), NoMemory>
    ensures { OnOk result (firms.new.items
        ≡ firms.old.items ++ (firm_side fact left.now ++ firm_side fact right.now)) }
{
    add_side(firms, fact, left)?;
    add_side(firms, fact, right)
}

/// Adds the cell of a side, if it is one.
fn add_side(firms: &mut Vec<Named>, fact: u32, side: &Side) -> Result<(), NoMemory>
    ensures { OnOk result (firms.new.items ≡ firms.old.items ++ firm_side fact side.now) }
{
    if let Side::Cell { row, column } = side {
        firms.push(named(fact, *row, *column))?;
    }
    Ok(())
}

/// The cell of a side, if it is one.
pub(crate) fn cell(side: &Side) -> Option<Cell>
    ensures { result ≡ cell_of side.now }
{
    match side {
        Side::Cell { row, column } => Some(Cell {
            row: *row,
            column: *column,
        }),
        Side::Zero | Side::Text(_) => None,
    }
}

fn join(fact: u32, row: u32, other: u32) -> Join
    ensures { result ≡ record { fact = fact; row = row; other = other } }
{
    Join { fact, row, other }
}

fn named(fact: u32, row: u32, column: u32) -> Named
    ensures { result ≡ record { fact = fact; row = row; column = column } }
{
    Named { fact, row, column }
}
