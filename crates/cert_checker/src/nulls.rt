//! Cells that are NULL and are not.
ghost use Rattle.std.specs.Prelude.{◌≡◌, false};
ghost use Rattle.std.specs.Option.{option_map_or};
ghost use Rattle.sort_formula.specs.Facts.{atom_of};
ghost use Rattle.sort_formula.specs.Chains.{is_cell, says_not_null, leads_to, is_null_clash};
ghost use Rattle.cert_checker.specs.inner.Seen.{side_of, atom_said, branch_of};

use crate::facts::{End, Open, Said};
use lint_core::SameEdge;

impl Said<'_> {
    /// Whether the atom has the cell, and holds only where it is not NULL.
    fn says_not_null(&self, row: usize, column: u32) -> bool
        ensures { result ≡ says_not_null row column (atom_said self.now) }
    {
        let cell = End::Cell { row, column };
        match self {
            Said::NotNull {
                row: other,
                column: second,
            } => row == *other && column == *second,
            Said::Le { left, right, .. }
            | Said::TextEq { left, right }
            | Said::TextNe { left, right } => left.is_same(&cell) || right.is_same(&cell),
            _ => false,
        }
    }
}

impl Open<'_> {
    /// Whether a fact says that the column's cell is not NULL in the row to which the path leads.
    fn is_not_null(&self, row: usize, column: u32, other: u32, path: &[SameEdge]) -> bool
        ensures { result ≡ option_map_or
            (λ a. leads_to (branch_of self.now) row path.now (λ end. says_not_null end column a))
            (atom_of (branch_of self.now) other) false }
    {
        match (self.atom(other), self.path_end(row, path)) {
            (Some(said), Some(end)) => said.says_not_null(end, column),
            _ => false,
        }
    }

    /// Whether the fact says that a cell is NULL, and the other fact that it is not, of a row
    /// which is the same by the path.
    pub(crate) fn is_null_clash(&self, fact: u32, other: u32, path: &[SameEdge]) -> bool
        ensures { result ≡ is_null_clash (branch_of self.now) fact other path.now }
    {
        match self.atom(fact) {
            Some(Said::IsNull { row, column }) => self.is_not_null(row, column, other, path),
            _ => false,
        }
    }
}
