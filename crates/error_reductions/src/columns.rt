//! Columns as formulas see them.
ghost use Rattle.std.specs.Prelude.{◌≡◌, List, true, false, unwrap_or, slice_get, IfSome, IfNone};
ghost use Rattle.std.specs.Option.{option_map_or};
ghost use Rattle.lint_core.specs.Asked.{is_written_column};
ghost use Rattle.lint_core.specs.Fits.{at_entry};
ghost use Rattle.lint_core.specs.Subqueries.{is_column};
ghost use Rattle.lint_core.specs.declared.schema.Table.{Table};
ghost use Rattle.sort_formula.specs.Counters.{item_term};
ghost use Rattle.sort_formula.specs.Sides.{is_null_formula, is_text_term};
ghost use Rattle.error_reductions.specs.inner.Columns.{IsColumn};

use lint_base::Items;
use lint_core::{Kind, Levels, Query, Schema, Scope, Term, number_at};
use sort_formula::{Cell, Formula};
use std::alloc::Global;

/// A column: its cell in the row of a variable, and whether it holds texts.
#[derive(Clone, Copy)]
pub(crate) struct Column {
    pub(crate) cell: Cell,
    pub(crate) texts: bool,
}

/// The variable of an entry of a level; 0 where there is no such entry.
fn variable_at(scope: &Scope, level: u32, entry: u32) -> u32
    ensures { result ≡ unwrap_or (at_entry scope.now.levels level entry) 0 }
{
    match number_at(scope.levels.as_slice(), level, entry) {
        Ok(Some(variable)) => variable,
        _ => 0,
    }
}

fn holds_texts(schema: &Schema, scope: &Scope, term: &Term) -> bool
    ensures { result ≡ is_text_term schema.now scope.now term.now }
{
    let levels = Levels::Given(scope.tables.as_slice());
    matches!(
        term.kind(schema.tables().as_slice(), &levels),
        Some(Kind::Text)
    )
}

/// The column that a term is, if it is one.
pub(crate) fn column_of(schema: &Schema, scope: &Scope, term: &Term) -> Option<Column>
    ensures some { IfSome result (λ column. IsColumn schema.now scope.now term.now column) }
    ensures none { IfNone result (is_column term.now ≡ false) }
{
    let texts = holds_texts(schema, scope, term);
    let Term::Cell {
        level,
        entry,
        column,
        ..
    } = term
    else {
        return None;
    };
    let cell = Cell {
        row: variable_at(scope, *level, *entry),
        column: *column,
    };
    Some(Column { cell, texts })
}

/// The column that an item is.
pub(crate) fn item_column(schema: &Schema, query: &Query, scope: &Scope, item: u32) -> Column
    requires { option_map_or is_written_column (slice_get query.now.items item) false ≡ true }
    ensures { IsColumn schema.now scope.now (item_term schema.now query.now item) result }
{
    let Some(found) = query.items.as_slice().get(item as usize) else {
        unreachable!()
    };
    match column_of(schema, scope, &found.term) {
        Some(column) => column,
        None => unreachable!(),
    }
}

/// The term is NULL.
pub(crate) fn is_null(alloc: Global, scope: &Scope, term: &Term) -> Formula
    ensures { (schema : List Table) → result ≡ is_null_formula schema scope.now term.now }
{
    match term {
        Term::Cell {
            level,
            entry,
            column,
            ..
        } => Cell {
            row: variable_at(scope, *level, *entry),
            column: *column,
        }
        .is_null(),
        Term::Number { .. } | Term::Text(_) => Formula::Or(Items::new(alloc)),
        Term::Null => Formula::And(Items::new(alloc)),
    }
}
