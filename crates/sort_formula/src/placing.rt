//! A formula in another place.
ghost use Rattle.std.specs.Prelude.{◌≡◌, ◌+◌, ◌-◌, ◌<◌, ◌^◌, true, length, map, nat_lt, IfOk};
ghost use Rattle.std.specs.List.{list_all};
ghost use Rattle.sort_formula.specs.Nodes.{quantifiers};
ghost use Rattle.sort_formula.specs.Placed.{placed_row, placed_side, placed_atom, placed};
ghost use Rattle.sort_formula.specs.Variables.{side_is_below, atom_is_below, is_numbered_from, is_below};

use crate::formula::{Atom, Formula, Side};
use lint_base::{Items, NoMemory};
use sqlite_items::Boxed;
use std::alloc::Global;

fn place_row(row: u32, numbers: &[u32], depth: u32) -> u32
    requires { depth + (row - length numbers.now) < 2 ^ 32 }
    ensures { result ≡ placed_row numbers.now depth row }
{
    match numbers.get(row as usize) {
        Some(number) => *number,
        None => depth + (row as usize - numbers.len()) as u32,
    }
}

fn place_side(alloc: Global, side: &Side, numbers: &[u32], depth: u32) -> Result<Side, NoMemory>
    requires { side_is_below (length numbers.now + (2 ^ 32 - depth)) side.now ≡ true }
    ensures { IfOk result (λ s. s ≡ placed_side numbers.now depth side.now) }
{
    match side {
        Side::Cell { row, column } => Ok(Side::Cell {
            row: place_row(*row, numbers, depth),
            column: *column,
        }),
        Side::Zero => Ok(Side::Zero),
        Side::Text(text) => Ok(Side::Text(text.copy(alloc)?)),
    }
}

fn place_atom(alloc: Global, atom: &Atom, numbers: &[u32], depth: u32) -> Result<Atom, NoMemory>
    requires { atom_is_below (length numbers.now + (2 ^ 32 - depth)) atom.now ≡ true }
    ensures { IfOk result (λ a. a ≡ placed_atom numbers.now depth atom.now) }
{
    match atom {
        Atom::Le { left, right, most } => Ok(Atom::Le {
            left: place_side(alloc, left, numbers, depth)?,
            right: place_side(alloc, right, numbers, depth)?,
            most: *most,
        }),
        Atom::TextEq { left, right } => Ok(Atom::TextEq {
            left: place_side(alloc, left, numbers, depth)?,
            right: place_side(alloc, right, numbers, depth)?,
        }),
        Atom::TextNe { left, right } => Ok(Atom::TextNe {
            left: place_side(alloc, left, numbers, depth)?,
            right: place_side(alloc, right, numbers, depth)?,
        }),
        Atom::IsNull { row, column } => Ok(Atom::IsNull {
            row: place_row(*row, numbers, depth),
            column: *column,
        }),
        Atom::NotNull { row, column } => Ok(Atom::NotNull {
            row: place_row(*row, numbers, depth),
            column: *column,
        }),
        Atom::Same { row, other } => Ok(Atom::Same {
            row: place_row(*row, numbers, depth),
            other: place_row(*other, numbers, depth),
        }),
        Atom::Other { row, other } => Ok(Atom::Other {
            row: place_row(*row, numbers, depth),
            other: place_row(*other, numbers, depth),
        }),
    }
}

#[cycle(place)]
fn place_formula(
    alloc: Global,
    formula: &Formula,
    numbers: &[u32],
    depth: u32,
) -> Result<Formula, NoMemory>
    requires { is_below (length numbers.now + (2 ^ 32 - depth)) formula.now ≡ true }
    ensures { IfOk result (λ f. f ≡ placed numbers.now depth formula.now) }
{
    match formula {
        Formula::Atom(atom) => Ok(Formula::Atom(place_atom(alloc, atom, numbers, depth)?)),
        Formula::And(parts) => Ok(Formula::And(place_parts(
            alloc,
            parts.as_slice(),
            numbers,
            depth,
        )?)),
        Formula::Or(parts) => Ok(Formula::Or(place_parts(
            alloc,
            parts.as_slice(),
            numbers,
            depth,
        )?)),
        Formula::Exists { table, body } => Ok(Formula::Exists {
            table: *table,
            body: Boxed::new(alloc, place_formula(alloc, body.get(), numbers, depth)?)?,
        }),
        Formula::Forall { table, body } => Ok(Formula::Forall {
            table: *table,
            body: Boxed::new(alloc, place_formula(alloc, body.get(), numbers, depth)?)?,
        }),
    }
}

#[cycle(place)]
fn place_parts(
    alloc: Global,
    parts: &[Formula],
    numbers: &[u32],
    depth: u32,
) -> Result<Items<Formula>, NoMemory>
    requires { list_all (is_below (length numbers.now + (2 ^ 32 - depth))) parts.now ≡ true }
    ensures { IfOk result (λ fs. fs ≡ map (placed numbers.now depth) parts.now) }
{
    let mut copies = Items::new(alloc);
    for part in parts {
        copies.push(place_formula(alloc, part, numbers, depth)?)?;
    }
    Ok(copies)
}

/// The formula in another place: a variable outside it has its number in `map`, which has one for
/// each quantifier outside the formula, and the formula's own quantifiers are counted from `depth`
/// on. `NoMemory` where there is no memory for all of it.
pub fn place(alloc: Global, formula: &Formula, map: &[u32], depth: u32) -> Result<Formula, NoMemory>
    requires variables { is_numbered_from (length map.now) formula.now ≡ true }
    requires depth { depth + quantifiers formula.now < 2 ^ 32 }
    ensures { IfOk result (λ f. f ≡ placed map.now depth formula.now) }
{
    place_formula(alloc, formula, map, depth)
}
