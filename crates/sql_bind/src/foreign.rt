//! Foreign keys.
ghost use Rattle.std.specs.Prelude.{◌≡◌, ◌≤◌, Some, slice_get, length, min, IfOk, IfSome, IfNone};
ghost use Rattle.std.specs.List.{list_all, zip};
ghost use Rattle.lint_core.specs.Kind.{column_kind, are_of_one_kind};
ghost use Rattle.lint_core.specs.Schema.{are_paired};
ghost use Rattle.sql_bind.specs.Bound.{Gives};
ghost use Rattle.sql_bind.specs.Names.{table_place};
ghost use Rattle.sql_bind.specs.Schemas.{named_columns, with_target, bind_foreign};
ghost use Rattle.sql_bind.specs.inner.Passes.{all_keys, targets_named, is_named_key, referred};

use crate::bound::{counted, refused};
use crate::keys::{NamedKeys, bind_names};
use crate::outlines::Outlines;
use crate::terms::column_place;
use lint_base::{Fault, Items, NoMemory, Span, TextStop};
use lint_core::{Column, ForeignKey, Kind, Table};
use sql_tree::{CreateTable, NameTree};
use std::alloc::Global;

/// The declarations of a schema, the tables with their columns that they declare, and the keys of
/// each table that they name.
#[derive(Drop)]
pub(crate) struct Declared<'t> {
    pub(crate) outlines: &'t Outlines<'t>,
    pub(crate) trees: &'t [CreateTable],
    pub(crate) keys: &'t [NamedKeys],
}

/// The table whose rules are bound.
#[derive(Drop)]
pub(crate) struct Home<'t> {
    pub(crate) declared: &'t Declared<'t>,
    pub(crate) table: &'t Table,
    pub(crate) name: &'t NameTree,
    pub(crate) number: u32,
}

/// A table that a foreign key refers to.
#[derive(Drop)]
struct Target<'t> {
    number: usize,
    table: &'t Table,
    keys: &'t NamedKeys,
}

/// The columns of these names, if each is there.
#[tactic(auto, using(crate::proofs::Targets::named_start))]
fn named_columns(
    alloc: Global,
    columns: &[Column],
    names: &[NameTree],
) -> Result<Option<Items<u32>>, NoMemory>
    ensures { IfOk result (λ places. places ≡ named_columns columns.now names.now) }
{
    let mut places = Items::new(alloc);
    for name in names {
        let Some(place) = column_place(columns, &name.text) else {
            return Ok(None);
        };
        let number = counted(place)?;
        places.push(number)?;
    }
    Ok(Some(places))
}

/// The columns that a foreign key refers to: those of its list, or of the primary key where there
/// is none.
#[tactic(auto, using(crate::proofs::Targets::target_list))]
fn target_columns(
    alloc: Global,
    target: &Target,
    names: &[NameTree],
) -> Result<Option<Items<u32>>, NoMemory>
    ensures { IfOk result
        (λ targets. targets ≡ targets_named target.now.keys.now.primary target.now.table.now.columns names.now) }
{
    if !names.is_empty() {
        return named_columns(alloc, target.table.columns.as_slice(), names);
    }
    match &target.keys.primary {
        Some(key) => Ok(Some(Items::from_vec(Vec::from_slice(alloc, key.as_slice())?))),
        None => Ok(None),
    }
}

fn pairs_go_together(table: &Table, target: &Table, columns: &[u32], others: &[u32]) -> bool
    ensures { result ≡ list_all
        (λ pair. are_of_one_kind (column_kind table.now pair.0) (column_kind target.now pair.1))
        (zip columns.now others.now) }
{
    columns.iter().zip(others).all(|(c, o)| Kind::are_of_one_kind(
        table.column_kind(*c),
        target.column_kind(*o),
    ))
}

fn are_paired(table: &Table, target: &Table, columns: &[u32], others: &[u32]) -> bool
    ensures { result ≡ are_paired table.now target.now columns.now others.now }
{
    columns.len() == others.len() && pairs_go_together(table, target, columns, others)
}

/// The table of a number, with its keys.
fn target_at<'t>(tables: &'t [Table], keys: &'t [NamedKeys], number: usize) -> Option<Target<'t>>
    ensures none { IfNone result (min (length tables.now) (length keys.now) ≤ number) }
    ensures table { IfSome result (λ t. slice_get tables.now number ≡ Some t.table.now) }
    ensures keys { IfSome result (λ t. slice_get keys.now number ≡ Some t.keys.now) }
    ensures number { IfSome result (λ t. t.number ≡ number) }
{
    let Some(table) = tables.get(number) else {
        return None;
    };
    let Some(keys) = keys.get(number) else {
        return None;
    };
    Some(Target {
        number,
        table,
        keys,
    })
}

impl Target<'_> {
    /// Whether the target columns are, as a set, those of a key, and as many as the own columns.
    fn has_key(&self, columns: &[u32], targets: &[u32]) -> bool
        ensures { result ≡ is_named_key self.now.keys.now columns.now targets.now }
    {
        columns.len() == targets.len() && self.keys.has(targets)
    }
}

impl Home<'_> {
    /// The foreign key from these columns to those of a target.
    fn refer(
        &self,
        target: &Target,
        own: Items<u32>,
        targets: Option<Items<u32>>,
        at: Span,
    ) -> Result<ForeignKey, TextStop>
        ensures { Gives (referred self.now.table.now target.now.table.now target.now.keys.now target.now.number own at targets) result }
    {
        let Some(targets) = targets else {
            return Err(refused(Fault::NotAKey, at));
        };
        if !target.has_key(own.as_slice(), targets.as_slice()) {
            return Err(refused(Fault::NotAKey, at));
        }
        if !are_paired(self.table, target.table, own.as_slice(), targets.as_slice()) {
            return Err(refused(Fault::TypeMismatch, at));
        }
        Ok(ForeignKey {
            columns: own,
            target: counted(target.number)?,
            target_columns: targets,
        })
    }

    /// The foreign key from these columns to the table of a name.
    fn with_target(
        &self,
        alloc: Global,
        columns: Items<u32>,
        name: &NameTree,
        names: &[NameTree],
        at: Span,
    ) -> Result<ForeignKey, TextStop>
        requires keys { self.now.declared.now.keys.now
            ≡ all_keys self.now.declared.now.trees.now 0 self.now.declared.now.outlines.now }
        ensures { Gives (with_target self.now.declared.now.outlines.now self.now.declared.now.trees.now self.now.table.now self.now.name.now columns name.now names.now at (table_place self.now.declared.now.outlines.now name.now.text)) result }
    {
        let Some(place) = self.declared.outlines.place(&name.text) else {
            return Err(refused(Fault::UnknownTable, name.span));
        };
        let Some(target) = target_at(self.declared.outlines.tables(), self.declared.keys, place)
        else {
            return Err(refused(Fault::UnknownTable, name.span));
        };
        let targets = target_columns(alloc, &target, names)?;
        self.refer(&target, columns, targets, at)
    }

    /// A foreign key: its own columns, then its target, then the target's columns, then the kinds.
    #[tactic(auto, unfolding(crate::specs::Bound::and_then))]
    pub(crate) fn bind_foreign(
        &self,
        alloc: Global,
        own: &[NameTree],
        name: &NameTree,
        names: &[NameTree],
        at: Span,
    ) -> Result<ForeignKey, TextStop>
        requires keys { self.now.declared.now.keys.now
            ≡ all_keys self.now.declared.now.trees.now 0 self.now.declared.now.outlines.now }
        ensures { Gives (bind_foreign self.now.declared.now.outlines.now self.now.declared.now.trees.now self.now.table.now self.now.name.now own.now name.now names.now at) result }
    {
        let columns = bind_names(alloc, self.table.columns.as_slice(), own)?;
        self.with_target(alloc, columns, name, names, at)
    }
}
