//! The first pass over a schema: its tables with their columns.
ghost use Rattle.std.specs.Prelude.{◌≡◌, [], IfOk};
ghost use Rattle.sql_bind.specs.Bound.{Gives};
ghost use Rattle.sql_bind.specs.Names.{table_place};
ghost use Rattle.sql_bind.specs.Columns.{bind_outlines};
ghost use Rattle.sql_bind.specs.inner.Passes.{new_outline, outline_step};

use crate::bound::{refused, too_many};
use crate::columns::bind_columns;
use crate::names::NameTable;
use lint_base::{Fault, Items, Str, TextStop};
use lint_core::Table;
use sql_tree::CreateTable;
use std::alloc::Global;
use std::marker::Model;

/// Tables with different names, in order, with their columns and without their constraints.
#[derive(Drop)]
pub(crate) struct Outlines<'t> {
    names: NameTable<'t>,
    tables: Items<Table>,
}

impl<'t> Model for Outlines<'t> {
    ghost use Rattle.std.specs.Prelude.{◌≡◌, List, map};
    ghost use Rattle.lint_core.specs.declared.schema.Table.{Table};
    ghost use Rattle.std.specs.Coded.{codes};
    ghost use Rattle.lint_core.specs.contracts.condition.Cond as cond;

    ghost Value = { List Table };

    ghost view = { λ s. s.tables };

    ghost invariant = { λ s. s.names ≡ map (λ (t : Table). t.name) s.tables };

    // a code for each condition tells two lists of tables apart
    ghost coded = { Prim.hlevel (codes, cond.the_row.coded) };
}

/// A table with its columns.
#[tactic(auto, unfolding(crate::specs::Bound::and_then))]
fn new_outline(alloc: Global, tree: &CreateTable) -> Result<Table, TextStop>
    ensures bound { Gives (new_outline tree.now) result }
    ensures named { IfOk result (λ table. table.name ≡ tree.now.name.text) }
{
    let columns = bind_columns(alloc, tree.elements.as_slice())?;
    Ok(Table {
        name: tree.name.text.copy(alloc)?,
        columns,
        keys: Items::new(alloc),
        checks: Items::new(alloc),
        foreign: Items::new(alloc),
    })
}

impl<'t> Outlines<'t> {
    fn new(alloc: Global) -> Outlines<'t>
        ensures { result ≡ [] }
    {
        Outlines {
            names: NameTable::new(alloc),
            tables: Items::new(alloc),
        }
    }

    /// These and the table of one more declaration.
    fn with(self, alloc: Global, tree: &'t CreateTable) -> Result<Outlines<'t>, TextStop>
        ensures { Gives (outline_step self.entry tree.now) result }
    {
        let Outlines {
            mut names,
            mut tables,
        } = self;
        if !names.add(&tree.name.text)? {
            return Err(refused(Fault::DuplicateName, tree.name.span));
        }
        if tables.as_slice().len() >= 200 {
            return Err(too_many(201, tree.name.span));
        }
        let table = new_outline(alloc, tree)?;
        tables.push(table)?;
        Ok(Outlines { names, tables })
    }

    /// The tables in order.
    pub(crate) fn tables(&self) -> &[Table]
        ensures { result.now ≡ self.now }
    {
        self.tables.as_slice()
    }

    /// The number of the table of a name.
    pub(crate) fn place(&self, name: &Str) -> Option<usize>
        ensures { result ≡ table_place self.now name.now }
    {
        self.names.place(name)
    }
}

/// The tables of a schema.
pub(crate) fn bind_outlines<'t>(
    alloc: Global,
    trees: &'t [CreateTable],
) -> Result<Outlines<'t>, TextStop>
    ensures { Gives (bind_outlines [] trees.now) result }
{
    let mut outlines = Outlines::new(alloc);
    for tree in trees {
        outlines = outlines.with(alloc, tree)?;
    }
    Ok(outlines)
}
