//! NOT NULL and keys as sentences.
ghost use Rattle.std.specs.Prelude.{◌≡◌, ◌++◌, ◌∷◌, [], IfOk, OnOk};
ghost use Rattle.std.specs.List.{flat_map};
ghost use Rattle.sort_formula.specs.Axioms.{key_axiom, key_column, not_null_axiom};
ghost use Rattle.sort_formula.specs.declared.formula.Atom.TheVariants as atom;
ghost use Rattle.sort_formula.specs.declared.formula.Formula.TheVariants as f;
ghost use Rattle.constraint_axioms.specs.Spoken.{spoken};

use crate::axiom::Axiom;
use crate::kinds::holds_texts;
use crate::sentences::plain;
use lint_base::{Items, NoMemory};
use lint_core::{Key, Table};
use sort_formula::{Atom, Cell, Formula, for_all};
use std::alloc::Global;

/// No row of the table has a NULL in the column.
pub(crate) fn not_null_axiom(
    alloc: Global,
    number: u32,
    table: &Table,
    column: u32,
) -> Result<Axiom, NoMemory>
    ensures { IfOk result (λ stated. spoken stated ≡ not_null_axiom [] number table.now column) }
{
    let filled = Cell { row: 0, column }.not_null();
    Ok(plain(for_all(alloc, number, filled)?))
}

fn push_column(ways: &mut Items<Formula>, table: &Table, column: u32) -> Result<(), NoMemory>
    ensures { OnOk result (ways.new ≡ ways.old ++ key_column [] 0 table.now column) }
{
    let one = Cell { row: 0, column };
    let other = Cell { row: 1, column };
    ways.push(one.is_null())?;
    ways.push(other.is_null())?;
    one.push_different(other, holds_texts(table, column), ways)
}

/// Two rows are one, or differ in the key, or have a NULL there.
fn one_or_apart(alloc: Global, table: &Table, key: &Key) -> Result<Formula, NoMemory>
    ensures { IfOk result
        (λ formula. formula ≡ f.Or
        (f.Atom (atom.Same 0 1) ∷ flat_map (key_column [] 0 table.now) key.now.columns)) }
{
    let mut ways = Items::new(alloc);
    ways.push(Formula::Atom(Atom::Same { row: 0, other: 1 }))?;
    for column in key.columns.as_slice() {
        push_column(&mut ways, table, *column)?;
    }
    Ok(Formula::Or(ways))
}

/// Any two rows of the table are one, or differ in the key, or have a NULL there.
pub(crate) fn key_axiom(
    alloc: Global,
    number: u32,
    table: &Table,
    key: &Key,
) -> Result<Axiom, NoMemory>
    ensures { IfOk result (λ stated. spoken stated ≡ key_axiom [] number table.now key.now) }
{
    let inner = for_all(alloc, number, one_or_apart(alloc, table, key)?)?;
    Ok(plain(for_all(alloc, number, inner)?))
}
