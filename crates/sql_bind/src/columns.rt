//! The columns of a table.
ghost use Rattle.std.specs.Prelude.{◌≡◌, [], length, map, IfOk};
ghost use Rattle.std.specs.List.{list_any};
ghost use Rattle.std.specs.Str.{bytes_eq};
ghost use Rattle.sql_bind.specs.Bound.{Gives};
ghost use Rattle.sql_bind.specs.inner.Passes.{rules_in, new_column, column_step};
ghost use Rattle.sql_bind.specs.Columns.{rules_of, bind_type, is_not_null, is_primary_with, is_marked, bind_columns};

use crate::bound::{refused, too_many};
use crate::names::NameTable;
use crate::terms::is_same;
use lint_base::{Fault, Items, Str, TextStop};
use lint_core::{Column, Domain, Unit};
use sql_tree::{Element, NameTree, RuleTree, TypeTree};
use std::alloc::Global;
use std::marker::Model;

fn whole_numbers(least: i64, greatest: i64) -> Domain
    ensures { result ≡ Domain.Number least greatest Unit.Whole }
{
    Domain::Number {
        least,
        greatest,
        unit: Unit::Whole,
    }
}

fn bind_type(kind: &TypeTree) -> Result<Domain, TextStop>
    ensures { Gives (bind_type kind.now) result }
{
    match kind {
        TypeTree::Small => Ok(whole_numbers(-0x8000, 0x7fff)),
        TypeTree::Integer => Ok(whole_numbers(-0x8000_0000, 0x7fff_ffff)),
        TypeTree::Big => Ok(whole_numbers(i64::MIN, i64::MAX)),
        TypeTree::Text { length, span } => {
            if *length < 1 || *length > 65_535 {
                return Err(refused(Fault::BadLength, *span));
            }
            Ok(Domain::Text {
                length: *length as u32,
            })
        }
    }
}

fn is_not_null(rule: &RuleTree) -> bool
    ensures { result ≡ is_not_null rule.now }
{
    matches!(rule, RuleTree::NotNull)
}

fn have_name(names: &[NameTree], name: &Str) -> bool
    ensures { result ≡ list_any (λ n. bytes_eq n.text name.now) names.now }
{
    names.iter().any(|n| is_same(&n.text, name))
}

fn is_primary_with(rule: &RuleTree, name: &Str) -> bool
    ensures { result ≡ is_primary_with name.now rule.now }
{
    match rule {
        RuleTree::Primary { columns, .. } => have_name(columns.as_slice(), name),
        _ => false,
    }
}

fn has_not_null(rules: &[RuleTree]) -> bool
    ensures { result ≡ list_any is_not_null rules.now }
{
    rules.iter().any(is_not_null)
}

fn has_primary_with(rules: &[RuleTree], name: &Str) -> bool
    ensures { result ≡ list_any (is_primary_with name.now) rules.now }
{
    rules.iter().any(|r| is_primary_with(r, name))
}

fn element_has_primary_with(element: &Element, name: &Str) -> bool
    ensures { result ≡ list_any (is_primary_with name.now) (rules_in element.now) }
{
    match element {
        Element::Column { rules, .. } => has_primary_with(rules.as_slice(), name),
        Element::Rule(rule) => is_primary_with(rule, name),
    }
}

/// Whether a rule of a table, one at a column or one beside the columns, is a PRIMARY KEY with the
/// column.
fn declares_primary_with(elements: &[Element], name: &Str) -> bool
    ensures { result ≡ list_any
        (λ e. list_any (is_primary_with name.now) (rules_in e)) elements.now }
{
    elements.iter().any(|e| element_has_primary_with(e, name))
}

/// Whether a column with rules of its own, among the elements of its table, is not NULL.
fn is_marked(own: &[RuleTree], elements: &[Element], name: &Str) -> bool
    ensures { result ≡ is_marked own.now (rules_of elements.now) name.now }
{
    has_not_null(own) || declares_primary_with(elements, name)
}

/// A column of this name, new to its table, after so many.
#[tactic(auto, unfolding(crate::specs::Bound::and_then))]
fn new_column(
    alloc: Global,
    count: usize,
    name: &NameTree,
    kind: &TypeTree,
    not_null: bool,
) -> Result<Column, TextStop>
    ensures bound { Gives (new_column count name.now kind.now not_null) result }
    ensures named { IfOk result (λ column. column.name ≡ name.now.text) }
{
    let domain = bind_type(kind)?;
    if count >= 64 {
        return Err(too_many(65, name.span));
    }
    Ok(Column {
        name: name.text.copy(alloc)?,
        domain,
        not_null,
    })
}

/// Columns with different names, in order.
#[derive(Drop)]
struct NewColumns<'t> {
    names: NameTable<'t>,
    columns: Items<Column>,
}

impl<'t> Model for NewColumns<'t> {
    ghost use Rattle.std.specs.Prelude.{◌≡◌, List, map};
    ghost use Rattle.lint_core.specs.declared.schema.Column.{Column};

    ghost Value = { List Column };

    ghost view = { λ s. s.columns };

    ghost invariant = { λ s. s.names ≡ map (λ (c : Column). c.name) s.columns };
}

impl<'t> NewColumns<'t> {
    fn new(alloc: Global) -> NewColumns<'t>
        ensures { result ≡ [] }
    {
        NewColumns {
            names: NameTable::new(alloc),
            columns: Items::new(alloc),
        }
    }

    /// These and, where an element of the table is a column, that column.
    fn with(
        self,
        alloc: Global,
        elements: &[Element],
        element: &'t Element,
    ) -> Result<NewColumns<'t>, TextStop>
        ensures { Gives (column_step (rules_of elements.now) self.entry element.now) result }
    {
        let Element::Column { name, kind, rules } = element else {
            return Ok(self);
        };
        let NewColumns {
            mut names,
            mut columns,
        } = self;
        if !names.add(&name.text)? {
            return Err(refused(Fault::DuplicateName, name.span));
        }
        let not_null = is_marked(rules.as_slice(), elements, &name.text);
        let column = new_column(alloc, columns.as_slice().len(), name, kind, not_null)?;
        columns.push(column)?;
        Ok(NewColumns { names, columns })
    }

    fn into_items(self) -> Items<Column>
        ensures { result ≡ self.entry }
    {
        let NewColumns { names: _, columns } = self;
        columns
    }
}

/// The columns of a table.
pub(crate) fn bind_columns(alloc: Global, elements: &[Element]) -> Result<Items<Column>, TextStop>
    ensures { Gives (bind_columns (rules_of elements.now) [] elements.now) result }
{
    let mut columns = NewColumns::new(alloc);
    for element in elements {
        columns = columns.with(alloc, elements, element)?;
    }
    Ok(columns.into_items())
}
