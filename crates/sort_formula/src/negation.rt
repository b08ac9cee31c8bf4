//! The negation of a formula.
ghost use Rattle.std.specs.Prelude.{◌≡◌, ◌++◌, map, IfOk, OnOk};
ghost use Rattle.sort_formula.specs.Negated.{null_of, fails, negated_atom, negated};

use crate::formula::{Atom, Formula, Side};
use lint_base::{Items, NoMemory};
use sqlite_items::Boxed;
use std::alloc::Global;

fn push_null(parts: &mut Items<Formula>, side: &Side) -> Result<(), NoMemory>
    ensures { OnOk result (parts.new ≡ parts.old ++ null_of side.now) }
{
    match side {
        Side::Cell { row, column } => parts.push(Formula::Atom(Atom::IsNull {
            row: *row,
            column: *column,
        })),
        Side::Zero | Side::Text(_) => Ok(()),
    }
}

/// A side is NULL, or the opposite holds.
fn fails(alloc: Global, left: &Side, right: &Side, opposite: Atom) -> Result<Formula, NoMemory>
    ensures { IfOk result (λ f. f ≡ fails left.now right.now opposite) }
{
    let mut parts = Items::new(alloc);
    push_null(&mut parts, left)?;
    push_null(&mut parts, right)?;
    parts.push(Formula::Atom(opposite))?;
    Ok(Formula::Or(parts))
}

fn negate_atom(alloc: Global, atom: &Atom) -> Result<Formula, NoMemory>
    ensures { IfOk result (λ f. f ≡ negated_atom atom.now) }
{
    let opposite = match atom {
        Atom::Le { left, right, most } => {
            let more = Atom::Le {
                left: right.copy(alloc)?,
                right: left.copy(alloc)?,
                most: -1 - *most,
            };
            return fails(alloc, left, right, more);
        }
        Atom::TextEq { left, right } => {
            let other = Atom::TextNe {
                left: left.copy(alloc)?,
                right: right.copy(alloc)?,
            };
            return fails(alloc, left, right, other);
        }
        Atom::TextNe { left, right } => {
            let same = Atom::TextEq {
                left: left.copy(alloc)?,
                right: right.copy(alloc)?,
            };
            return fails(alloc, left, right, same);
        }
        Atom::IsNull { row, column } => Atom::NotNull {
            row: *row,
            column: *column,
        },
        Atom::NotNull { row, column } => Atom::IsNull {
            row: *row,
            column: *column,
        },
        Atom::Same { row, other } => Atom::Other {
            row: *row,
            other: *other,
        },
        Atom::Other { row, other } => Atom::Same {
            row: *row,
            other: *other,
        },
    };
    Ok(Formula::Atom(opposite))
}

/// The negation of the formula: And and Or change places, Exists and Forall, and in the atoms
/// IsNull and NotNull, Same and Other; a comparison becomes an Or of IsNull for each cell in it
/// and of the opposite comparison. `NoMemory` where there is no memory for all of it.
#[cycle(negate)]
pub fn negate(alloc: Global, formula: &Formula) -> Result<Formula, NoMemory>
    ensures { IfOk result (λ f. f ≡ negated formula.now) }
{
    match formula {
        Formula::Atom(atom) => negate_atom(alloc, atom),
        Formula::And(parts) => Ok(Formula::Or(negate_parts(alloc, parts.as_slice())?)),
        Formula::Or(parts) => Ok(Formula::And(negate_parts(alloc, parts.as_slice())?)),
        Formula::Exists { table, body } => Ok(Formula::Forall {
            table: *table,
            body: Boxed::new(alloc, negate(alloc, body.get())?)?,
        }),
        Formula::Forall { table, body } => Ok(Formula::Exists {
            table: *table,
            body: Boxed::new(alloc, negate(alloc, body.get())?)?,
        }),
    }
}

#[cycle(negate)]
fn negate_parts(alloc: Global, parts: &[Formula]) -> Result<Items<Formula>, NoMemory>
    ensures { IfOk result (λ fs. fs ≡ map negated parts.now) }
{
    let mut negations = Items::new(alloc);
    for part in parts {
        negations.push(negate(alloc, part)?)?;
    }
    Ok(negations)
}
