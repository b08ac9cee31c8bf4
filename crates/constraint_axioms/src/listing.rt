//! The axioms of all tables, in order.
ghost use Rattle.std.specs.Prelude.{◌≡◌, ◌≤◌, ◌++◌, [], length, map, true, IfOk, OnOk};
ghost use Rattle.std.specs.List.{list_all};
ghost use Rattle.lint_core.specs.Fits.{check_fits};
ghost use Rattle.lint_core.specs.Schema.{is_table};
ghost use Rattle.sort_formula.specs.Axioms.{axioms, check_axiom, foreign_axioms, key_axiom, not_null_axioms, table_axioms};
ghost use Rattle.sort_formula.specs.Sentences.{formula_fits};
ghost use Rattle.constraint_axioms.specs.declared.axiom.Axiom.{Axiom as Made};
ghost use Rattle.constraint_axioms.specs.Spoken.{spoken};

use crate::axiom::Axiom;
use crate::condition::check_axiom;
use crate::reference::foreign_axiom;
use crate::uniqueness::{key_axiom, not_null_axiom};
use lint_base::NoMemory;
use lint_core::{KeyName, Schema, Table};
use std::alloc::Global;
use truth_laws::axioms_fit;

fn push_not_nulls(
    alloc: Global,
    axioms: &mut Vec<Axiom>,
    number: u32,
    table: &Table,
) -> Result<(), NoMemory>
    requires { length table.now.columns ≤ 64 }
    ensures { OnOk result
        (map spoken axioms.new.items ≡ map spoken axioms.old.items
        ++ not_null_axioms [] number table.now 0 table.now.columns) }
{
    for (index, column) in table.columns.as_slice().iter().enumerate() {
        if column.not_null {
            axioms.push(not_null_axiom(alloc, number, table, index as u32)?)?;
        }
    }
    Ok(())
}

fn push_keys(
    alloc: Global,
    axioms: &mut Vec<Axiom>,
    number: u32,
    table: &Table,
) -> Result<(), NoMemory>
    ensures { OnOk result
        (map spoken axioms.new.items ≡ map spoken axioms.old.items
        ++ map (key_axiom [] number table.now) table.now.keys) }
{
    for key in table.keys.as_slice() {
        axioms.push(key_axiom(alloc, number, table, key)?)?;
    }
    Ok(())
}

fn push_checks(
    alloc: Global,
    axioms: &mut Vec<Axiom>,
    schema: &Schema,
    number: u32,
    table: &Table,
) -> Result<(), NoMemory>
    requires { list_all (check_fits schema.now number) table.now.checks ≡ true }
    ensures { OnOk result
        (map spoken axioms.new.items ≡ map spoken axioms.old.items
        ++ map (check_axiom schema.now number table.now) table.now.checks) }
{
    for check in table.checks.as_slice() {
        axioms.push(check_axiom(alloc, schema, number, check)?)?;
    }
    Ok(())
}

fn push_foreign_keys(
    alloc: Global,
    axioms: &mut Vec<Axiom>,
    number: u32,
    table: &Table,
) -> Result<(), NoMemory>
    requires { length table.now.foreign ≤ 1000 }
    ensures { OnOk result
        (map spoken axioms.new.items ≡ map spoken axioms.old.items
        ++ foreign_axioms [] number table.now 0 table.now.foreign) }
{
    for (index, key) in table.foreign.as_slice().iter().enumerate() {
        let name = KeyName {
            table: number,
            index: index as u32,
        };
        axioms.push(foreign_axiom(alloc, name, table, key)?)?;
    }
    Ok(())
}

fn push_table(
    alloc: Global,
    axioms: &mut Vec<Axiom>,
    schema: &Schema,
    number: u32,
    table: &Table,
) -> Result<(), NoMemory>
    requires { is_table schema.now number table.now ≡ true }
    ensures { OnOk result
        (map spoken axioms.new.items ≡ map spoken axioms.old.items
        ++ table_axioms schema.now number table.now) }
{
    push_not_nulls(alloc, axioms, number, table)?;
    push_keys(alloc, axioms, number, table)?;
    push_checks(alloc, axioms, schema, number, table)?;
    push_foreign_keys(alloc, axioms, number, table)
}

fn all_axioms(alloc: Global, schema: &Schema) -> Result<Vec<Axiom>, NoMemory>
    ensures { IfOk result (λ list. map spoken list.items ≡ axioms schema.now) }
{
    let mut axioms = Vec::new(alloc);
    for (number, table) in schema.tables().as_slice().iter().enumerate() {
        push_table(alloc, &mut axioms, schema, number as u32, table)?;
    }
    Ok(axioms)
}

/// The constraints of the schema as sentences, which hold together exactly in the databases that
/// meet it: table by table, the NOT NULL columns, the keys, the CHECKs and the foreign keys, each
/// in order (ISO/IEC 9075:1992, 4.10). Each fits the schema. `NoMemory` where there is no memory
/// for them.
pub fn axioms(alloc: Global, schema: &Schema) -> Result<Vec<Axiom>, NoMemory>
    ensures listed { IfOk result (λ list. map spoken list.items ≡ axioms schema.now) }
    ensures fits { IfOk result
        (λ list. list_all (λ (a : Made). formula_fits schema.now a.sentence []) list.items
        ≡ true) }
{
    axioms_fit();
    // (a schema is right, as its tables say)
    schema.tables();
    all_axioms(alloc, schema)
}
