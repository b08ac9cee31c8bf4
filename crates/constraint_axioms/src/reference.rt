//! Foreign keys as sentences.
ghost use Rattle.std.specs.Prelude.{◌≡◌, ◌++◌, ◌∷◌, [], map, Some, IfOk, OnOk};
ghost use Rattle.std.specs.List.{flat_map, zip};
ghost use Rattle.sort_formula.specs.Axioms.{foreign_sentence, pair_equal};
ghost use Rattle.sort_formula.specs.declared.formula.Atom.TheVariants as atom;
ghost use Rattle.sort_formula.specs.declared.formula.Formula.TheVariants as f;
ghost use Rattle.constraint_axioms.specs.Spoken.{spoken};

use crate::axiom::Axiom;
use crate::kinds::holds_texts;
use crate::sentences::sentence_of;
use lint_base::{Items, NoMemory};
use lint_core::{ForeignKey, KeyName, Table};
use sort_formula::{Cell, Formula, exists, for_all};
use std::alloc::Global;

fn push_nulls(ways: &mut Items<Formula>, columns: &[u32]) -> Result<(), NoMemory>
    ensures { OnOk result
        (ways.new ≡ ways.old ++ map (λ column. f.Atom (atom.IsNull 0 column)) columns.now) }
{
    for column in columns {
        let own = Cell {
            row: 0,
            column: *column,
        };
        ways.push(own.is_null())?;
    }
    Ok(())
}

/// The row and that of the target are equal in all pairs of columns.
fn are_equal(alloc: Global, table: &Table, key: &ForeignKey) -> Result<Formula, NoMemory>
    ensures { IfOk result
        (λ formula. formula ≡ f.And
        (flat_map (pair_equal [] 0 table.now) (zip key.now.columns key.now.target_columns))) }
{
    let mut parts = Items::new(alloc);
    for (column, target) in key
        .columns
        .as_slice()
        .iter()
        .zip(key.target_columns.as_slice())
    {
        let own = Cell {
            row: 0,
            column: *column,
        };
        let other = Cell {
            row: 1,
            column: *target,
        };
        own.push_equal(alloc, other, holds_texts(table, *column), &mut parts)?;
    }
    Ok(Formula::And(parts))
}

/// Each row of the table has a NULL among its own columns, or some row of the target equals it.
fn foreign_sentence(
    alloc: Global,
    number: u32,
    table: &Table,
    key: &ForeignKey,
) -> Result<Formula, NoMemory>
    ensures { IfOk result (λ formula. formula ≡ foreign_sentence [] number table.now key.now) }
{
    let mut ways = Items::new(alloc);
    push_nulls(&mut ways, key.columns.as_slice())?;
    ways.push(exists(alloc, key.target, are_equal(alloc, table, key)?)?)?;
    for_all(alloc, number, Formula::Or(ways))
}

/// The foreign key of this index as a sentence, under its name.
pub(crate) fn foreign_axiom(
    alloc: Global,
    name: KeyName,
    table: &Table,
    key: &ForeignKey,
) -> Result<Axiom, NoMemory>
    ensures { IfOk result
        (λ stated. spoken stated
        ≡ record { sentence = foreign_sentence [] name.table table.now key.now; key = Some name }) }
{
    let formula = foreign_sentence(alloc, name.table, table, key)?;
    Ok(Axiom {
        sentence: sentence_of(formula),
        key: Some(name),
    })
}
