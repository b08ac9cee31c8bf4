//! When a formula fits a schema.
ghost use Rattle.std.specs.Prelude.{◌≡◌, ◌&&◌};
ghost use Rattle.std.specs.List.{list_all};
ghost use Rattle.std.specs.Option.{option_map_or};
ghost use Rattle.lint_core.specs.Kind.{is_text};
ghost use Rattle.sort_formula.specs.Sentences.{kind_at, is_number_kind, is_number_side, is_text_side, atom_fits, formula_fits};
ghost use Rattle.sort_formula.specs.inner.Standing.{tables_outside};

use crate::formula::{Atom, Formula, Side};
use crate::outside::Outside;
use lint_core::{Kind, Table};

/// The kind of a cell, if its variable is bound and its table and column exist.
fn kind_at(tables: &[Table], outside: &Outside, row: u32, column: u32) -> Option<Kind>
    ensures { result ≡ kind_at tables.now (tables_outside outside.now) row column }
{
    let table = outside.table_of(row)?;
    tables.get(table as usize)?.column_kind(column)
}

impl Side {
    fn is_number(&self, tables: &[Table], outside: &Outside) -> bool
        ensures { result ≡ is_number_side tables.now (tables_outside outside.now) self.now }
    {
        match self {
            Side::Cell { row, column } => matches!(
                kind_at(tables, outside, *row, *column),
                Some(Kind::Number(_))
            ),
            Side::Zero => true,
            Side::Text(_) => false,
        }
    }

    fn is_text(&self, tables: &[Table], outside: &Outside) -> bool
        ensures { result ≡ is_text_side tables.now (tables_outside outside.now) self.now }
    {
        match self {
            Side::Cell { row, column } => {
                matches!(kind_at(tables, outside, *row, *column), Some(Kind::Text))
            }
            Side::Zero => false,
            Side::Text(_) => true,
        }
    }
}

impl Atom {
    fn fits(&self, tables: &[Table], outside: &Outside) -> bool
        ensures { result ≡ atom_fits tables.now (tables_outside outside.now) self.now }
    {
        match self {
            Atom::Le { left, right, .. } => {
                left.is_number(tables, outside) && right.is_number(tables, outside)
            }
            Atom::TextEq { left, right } | Atom::TextNe { left, right } => {
                left.is_text(tables, outside) && right.is_text(tables, outside)
            }
            Atom::IsNull { row, column } | Atom::NotNull { row, column } => {
                kind_at(tables, outside, *row, *column).is_some()
            }
            Atom::Same { row, other } | Atom::Other { row, other } => {
                outside.has(*row) && outside.has(*other)
            }
        }
    }
}

impl Formula {
    #[cycle(fits)]
    pub(crate) fn fits(&self, tables: &[Table], outside: &Outside) -> bool
        ensures { result ≡ formula_fits tables.now self.now (tables_outside outside.now) }
    {
        match self {
            Formula::Atom(atom) => atom.fits(tables, outside),
            Formula::And(parts) | Formula::Or(parts) => all_fit(parts.as_slice(), tables, outside),
            Formula::Exists { table, body } | Formula::Forall { table, body } => {
                let inside = Outside::Quantifier {
                    table: *table,
                    outer: &*outside,
                };
                (*table as usize) < tables.len() && body.get().fits(tables, &inside)
            }
        }
    }
}

#[cycle(fits)]
fn all_fit(parts: &[Formula], tables: &[Table], outside: &Outside) -> bool
    ensures { result ≡ list_all
        (λ part. formula_fits tables.now part (tables_outside outside.now)) parts.now }
{
    for part in parts {
        if !part.fits(tables, outside) {
            return false;
        }
    }
    true
}
