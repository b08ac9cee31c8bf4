//! What the checker keeps of the branch in hand, and what its facts say of its rows.
ghost use Rattle.std.specs.Prelude.{◌≡◌, ◌^◌, true, IfSome, option_map, slice_get};
ghost use Rattle.sort_formula.specs.declared.formula.Formula.{out-Formula};
ghost use Rattle.sort_formula.specs.Bounds.{is_within, atom_is_within};
ghost use Rattle.sort_formula.specs.Facts.{side_at, atom_at, atom_in, atom_of, same_rows_of, domain_at, is_same_side};
ghost use Rattle.cert_checker.specs.inner.Seen.{side_of, atom_said, branch_of, IsModerate};

use lint_base::Str;
use lint_core::{Domain, Table};
use sort_formula::{Atom, Formula, Side};
use std::marker::Model;

/// A side of an atom of the branch's rows.
#[derive(Clone, Copy)]
pub(crate) enum End<'a> {
    Cell { row: usize, column: u32 },
    Zero,
    Text(&'a Str),
}

/// An atom of the branch's rows.
#[derive(Clone, Copy)]
pub(crate) enum Said<'a> {
    Le {
        left: End<'a>,
        right: End<'a>,
        most: i128,
    },
    TextEq {
        left: End<'a>,
        right: End<'a>,
    },
    TextNe {
        left: End<'a>,
        right: End<'a>,
    },
    IsNull {
        row: usize,
        column: u32,
    },
    NotNull {
        row: usize,
        column: u32,
    },
    Same {
        row: usize,
        other: usize,
    },
    Other {
        row: usize,
        other: usize,
    },
}

/// A fact: a formula with the number of a row of the branch for each of its free variables.
#[derive(Drop)]
pub(crate) struct Stated<'a> {
    formula: &'a Formula,
    rows: Vec<usize>,
}

impl<'a> Model for Stated<'a> {
    ghost use Rattle.std.specs.Prelude.{◌≡◌, ◌^◌, true};
    ghost use Rattle.std.specs.Coded.{codes};
    ghost use Rattle.sort_formula.specs.contracts.formula.Formula as tree;
    ghost use Rattle.sort_formula.specs.Bounds.{is_within};
    ghost use Rattle.sort_formula.specs.Facts.{Fact};

    ghost Value = { Fact };

    ghost view = { λ s. record { formula = s.formula.now; rows = s.rows.items } };

    ghost invariant = { λ s. is_within (2 ^ 66) s.formula.now ≡ true };

    // a code for each formula tells two of them apart
    ghost coded = { Prim.hlevel (codes, tree.the_row.coded) };
}

/// The branch in hand: its facts, and the table of each of its rows.
#[derive(Drop)]
pub(crate) struct Open<'a> {
    pub(crate) facts: Vec<Stated<'a>>,
    pub(crate) tables: Vec<u32>,
}

impl End<'_> {
    /// Whether both are the same cell, or 0, or the same text.
    pub(crate) fn is_same(&self, other: &End) -> bool
        ensures { result ≡ is_same_side (side_of self.now) (side_of other.now) }
    {
        match (self, other) {
            (
                End::Cell { row, column },
                End::Cell {
                    row: other,
                    column: second,
                },
            ) => *row == *other && *column == *second,
            (End::Zero, End::Zero) => true,
            (End::Text(text), End::Text(other)) => text.as_str() == other.as_str(),
            _ => false,
        }
    }
}

impl<'a> Stated<'a> {
    pub(crate) fn new(formula: &'a Formula, rows: Vec<usize>) -> Stated<'a>
        requires { is_within (2 ^ 66) formula.now ≡ true }
        ensures { result ≡ record { formula = formula.now; rows = rows.items } }
    {
        Stated { formula, rows }
    }

    pub(crate) fn formula(&self) -> &'a Formula
        ensures formula { result.now ≡ self.now.formula }
        ensures moderate { is_within (2 ^ 66) result.now ≡ true }
    {
        self.formula
    }

    /// The rows of the variables.
    pub(crate) fn rows(&self) -> &[usize]
        ensures { result.now ≡ self.now.rows }
    {
        self.rows.as_slice()
    }

    /// The row of a variable.
    fn row(&self, variable: u32) -> Option<usize>
        ensures { result ≡ slice_get self.now.rows variable }
    {
        self.rows().get(variable as usize).copied()
    }

    fn end(&self, side: &'a Side) -> Option<End<'a>>
        ensures { option_map side_of result ≡ side_at self.now.rows side.now }
    {
        match side {
            Side::Cell { row, column } => Some(End::Cell {
                row: self.row(*row)?,
                column: *column,
            }),
            Side::Zero => Some(End::Zero),
            Side::Text(text) => Some(End::Text(text)),
        }
    }

    /// The atom at the fact's rows.
    fn atom_at(&self, atom: &'a Atom) -> Option<Said<'a>>
        requires { atom_is_within (2 ^ 66) atom.now ≡ true }
        ensures said { option_map atom_said result ≡ atom_at self.now.rows atom.now }
        ensures moderate { IfSome result IsModerate }
    {
        Some(match atom {
            Atom::Le { left, right, most } => Said::Le {
                left: self.end(left)?,
                right: self.end(right)?,
                most: *most,
            },
            Atom::TextEq { left, right } => Said::TextEq {
                left: self.end(left)?,
                right: self.end(right)?,
            },
            Atom::TextNe { left, right } => Said::TextNe {
                left: self.end(left)?,
                right: self.end(right)?,
            },
            Atom::IsNull { row, column } => Said::IsNull {
                row: self.row(*row)?,
                column: *column,
            },
            Atom::NotNull { row, column } => Said::NotNull {
                row: self.row(*row)?,
                column: *column,
            },
            Atom::Same { row, other } => Said::Same {
                row: self.row(*row)?,
                other: self.row(*other)?,
            },
            Atom::Other { row, other } => Said::Other {
                row: self.row(*row)?,
                other: self.row(*other)?,
            },
        })
    }

    /// The atom that the fact is, if it is one.
    fn atom(&self) -> Option<Said<'a>>
        ensures said { option_map atom_said result
            ≡ atom_in self.now.rows (out-Formula self.now.formula) }
        ensures moderate { IfSome result IsModerate }
    {
        match self.formula() {
            Formula::Atom(atom) => self.atom_at(atom),
            Formula::And(_) | Formula::Or(_) => None,
            Formula::Exists { .. } | Formula::Forall { .. } => None,
        }
    }
}

impl<'a> Open<'a> {
    /// The atom that a fact of the branch is, if it is one.
    pub(crate) fn atom(&self, fact: u32) -> Option<Said<'a>>
        ensures said { option_map atom_said result ≡ atom_of (branch_of self.now) fact }
        ensures moderate { IfSome result IsModerate }
    {
        self.facts.get(fact as usize)?.atom()
    }

    /// The two rows that a fact says are one.
    pub(crate) fn same_rows(&self, fact: u32) -> Option<(usize, usize)>
        ensures { result ≡ same_rows_of (branch_of self.now) fact }
    {
        match self.atom(fact)? {
            Said::Same { row, other } => Some((row, other)),
            _ => None,
        }
    }

    /// The domain of a column of a row.
    pub(crate) fn domain(&self, tables: &[Table], row: usize, column: u32) -> Option<Domain>
        ensures { result ≡ domain_at tables.now (branch_of self.now) row column }
    {
        let table = *self.tables.get(row)?;
        let columns = tables.get(table as usize)?.columns.as_slice();
        Some(columns.get(column as usize)?.domain)
    }
}
