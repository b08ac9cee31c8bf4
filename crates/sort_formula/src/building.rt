//! Builders of formulas: what two cells are to each other, and quantifiers.
ghost use Rattle.std.specs.Prelude.{◌≡◌, ◌++◌, IfOk, OnOk};
ghost use Rattle.sort_formula.specs.Cells.{different_cells, equal_cells, le, not_distinct_cells};
ghost use Rattle.sort_formula.specs.Translation.{exist_rows, for_all_rows};
ghost use Rattle.sort_formula.specs.declared.formula.Atom.TheVariants as atom;
ghost use Rattle.sort_formula.specs.declared.formula.Formula.TheVariants as f;
ghost use Rattle.sort_formula.specs.declared.formula.Side.TheVariants as side;

use crate::formula::{Atom, Formula, Side};
use lint_base::{Items, NoMemory};
use sqlite_items::Boxed;
use std::alloc::Global;

/// A column in the row of a variable.
#[derive(Clone, Copy, Debug)]
pub struct Cell {
    pub row: u32,
    pub column: u32,
}

impl Cell {
    /// `IS NULL` of the cell (ISO/IEC 9075:1992, 8.6).
    pub fn is_null(self) -> Formula
        ensures { result ≡ f.Atom (atom.IsNull self.row self.column) }
    {
        Formula::Atom(Atom::IsNull {
            row: self.row,
            column: self.column,
        })
    }

    /// `IS NOT NULL` of the cell.
    pub fn not_null(self) -> Formula
        ensures { result ≡ f.Atom (atom.NotNull self.row self.column) }
    {
        Formula::Atom(Atom::NotNull {
            row: self.row,
            column: self.column,
        })
    }

    /// The cell as a side of a comparison.
    pub fn side(self) -> Side
        ensures { result ≡ side.Cell self.row self.column }
    {
        Side::Cell {
            row: self.row,
            column: self.column,
        }
    }

    /// Its number minus that of the other is at most this.
    fn is_within(self, other: Cell, most: i128) -> Formula
        ensures { result
            ≡ le (side.Cell self.row self.column) (side.Cell other.row other.column) most }
    {
        Formula::Atom(Atom::Le {
            left: self.side(),
            right: other.side(),
            most,
        })
    }

    /// Adds the ways in which two cells differ, both texts or both numbers. `NoMemory` where there
    /// is no memory.
    pub fn push_different(
        self,
        other: Cell,
        texts: bool,
        ways: &mut Items<Formula>,
    ) -> Result<(), NoMemory>
        ensures { OnOk result (ways.new ≡ ways.old
            ++ different_cells texts (side.Cell self.row self.column)
            (side.Cell other.row other.column)) }
    {
        if texts {
            return ways.push(Formula::Atom(Atom::TextNe {
                left: self.side(),
                right: other.side(),
            }));
        }
        ways.push(self.is_within(other, -1))?;
        ways.push(other.is_within(self, -1))
    }

    /// Adds that two cells are equal, both texts or both numbers. `NoMemory` where there is no
    /// memory.
    pub fn push_equal(
        self,
        alloc: Global,
        other: Cell,
        texts: bool,
        parts: &mut Items<Formula>,
    ) -> Result<(), NoMemory>
        ensures { OnOk result (parts.new ≡ parts.old
            ++ equal_cells texts (side.Cell self.row self.column)
            (side.Cell other.row other.column)) }
    {
        if texts {
            return parts.push(Formula::Atom(Atom::TextEq {
                left: self.side(),
                right: other.side(),
            }));
        }
        let mut bounds = Items::new(alloc);
        bounds.push(self.is_within(other, 0))?;
        bounds.push(other.is_within(self, 0))?;
        parts.push(Formula::And(bounds))
    }

    /// That two cells are not distinct, both texts or both numbers: both are NULL, or they are
    /// equal. `NoMemory` where there is no memory for it.
    pub fn not_distinct(self, alloc: Global, other: Cell, texts: bool) -> Result<Formula, NoMemory>
        ensures { IfOk result (λ formula. formula
            ≡ not_distinct_cells texts
            (f.Atom (atom.IsNull self.row self.column))
            (f.Atom (atom.IsNull other.row other.column))
            (side.Cell self.row self.column)
            (side.Cell other.row other.column)) }
    {
        let mut nulls = Items::new(alloc);
        nulls.push(self.is_null())?;
        nulls.push(other.is_null())?;
        let mut ways = Items::new(alloc);
        ways.push(Formula::And(nulls))?;
        self.push_equal(alloc, other, texts, &mut ways)?;
        Ok(Formula::Or(ways))
    }
}

/// Some row of the table satisfies the body. `NoMemory` where there is no memory for it.
pub fn exists(alloc: Global, table: u32, body: Formula) -> Result<Formula, NoMemory>
    ensures { IfOk result (λ formula. formula ≡ f.Exists table body) }
{
    Ok(Formula::Exists {
        table,
        body: Boxed::new(alloc, body)?,
    })
}

/// Each row of the table satisfies the body. `NoMemory` where there is no memory for it.
pub fn for_all(alloc: Global, table: u32, body: Formula) -> Result<Formula, NoMemory>
    ensures { IfOk result (λ formula. formula ≡ f.Forall table body) }
{
    Ok(Formula::Forall {
        table,
        body: Boxed::new(alloc, body)?,
    })
}

/// Some rows of the tables satisfy the body: one quantifier for each table, in order. `NoMemory`
/// where there is no memory for them.
pub fn exist_rows(alloc: Global, tables: &[u32], body: Formula) -> Result<Formula, NoMemory>
    ensures { IfOk result (λ formula. formula ≡ exist_rows tables.now body) }
{
    let mut formula = body;
    for table in tables.iter().rev() {
        formula = exists(alloc, *table, formula)?;
    }
    Ok(formula)
}

/// All rows of the tables satisfy the body: one quantifier for each table, in order. `NoMemory`
/// where there is no memory for them.
pub fn for_all_rows(alloc: Global, tables: &[u32], body: Formula) -> Result<Formula, NoMemory>
    ensures { IfOk result (λ formula. formula ≡ for_all_rows tables.now body) }
{
    let mut formula = body;
    for table in tables.iter().rev() {
        formula = for_all(alloc, *table, formula)?;
    }
    Ok(formula)
}
