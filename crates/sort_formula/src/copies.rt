//! Copies of sides, atoms and formulas. A copy is equal to its source; `NoMemory` comes where
//! memory for it runs out, and leaves the source as it is.
ghost use Rattle.std.specs.Prelude.{◌≡◌, IfOk};

use crate::formula::{Atom, Formula, Side};
use lint_base::{Items, NoMemory};
use sqlite_items::Boxed;
use std::alloc::Global;

impl Side {
    pub(crate) fn copy(&self, alloc: Global) -> Result<Side, NoMemory>
        ensures { IfOk result (λ copy. copy ≡ self.now) }
    {
        match self {
            Side::Cell { row, column } => Ok(Side::Cell {
                row: *row,
                column: *column,
            }),
            Side::Zero => Ok(Side::Zero),
            Side::Text(text) => Ok(Side::Text(text.copy(alloc)?)),
        }
    }
}

impl Atom {
    /// The same atom. `NoMemory` where there is no memory for its texts.
    pub fn copy(&self, alloc: Global) -> Result<Atom, NoMemory>
        ensures { IfOk result (λ copy. copy ≡ self.now) }
    {
        match self {
            Atom::Le { left, right, most } => Ok(Atom::Le {
                left: left.copy(alloc)?,
                right: right.copy(alloc)?,
                most: *most,
            }),
            Atom::TextEq { left, right } => Ok(Atom::TextEq {
                left: left.copy(alloc)?,
                right: right.copy(alloc)?,
            }),
            Atom::TextNe { left, right } => Ok(Atom::TextNe {
                left: left.copy(alloc)?,
                right: right.copy(alloc)?,
            }),
            Atom::IsNull { row, column } => Ok(Atom::IsNull {
                row: *row,
                column: *column,
            }),
            Atom::NotNull { row, column } => Ok(Atom::NotNull {
                row: *row,
                column: *column,
            }),
            Atom::Same { row, other } => Ok(Atom::Same {
                row: *row,
                other: *other,
            }),
            Atom::Other { row, other } => Ok(Atom::Other {
                row: *row,
                other: *other,
            }),
        }
    }
}

impl Formula {
    /// The same formula. `NoMemory` where there is no memory for all of it.
    #[cycle(copy)]
    pub fn copy(&self, alloc: Global) -> Result<Formula, NoMemory>
        ensures { IfOk result (λ copy. copy ≡ self.now) }
    {
        match self {
            Formula::Atom(atom) => Ok(Formula::Atom(atom.copy(alloc)?)),
            Formula::And(parts) => Ok(Formula::And(copy_parts(alloc, parts.as_slice())?)),
            Formula::Or(parts) => Ok(Formula::Or(copy_parts(alloc, parts.as_slice())?)),
            Formula::Exists { table, body } => Ok(Formula::Exists {
                table: *table,
                body: Boxed::new(alloc, body.get().copy(alloc)?)?,
            }),
            Formula::Forall { table, body } => Ok(Formula::Forall {
                table: *table,
                body: Boxed::new(alloc, body.get().copy(alloc)?)?,
            }),
        }
    }
}

#[cycle(copy)]
fn copy_parts(alloc: Global, parts: &[Formula]) -> Result<Items<Formula>, NoMemory>
    ensures { IfOk result (λ copies. copies ≡ parts.now) }
{
    let mut copies = Items::new(alloc);
    for part in parts {
        copies.push(part.copy(alloc)?)?;
    }
    Ok(copies)
}
