//! Steps that close the branch in hand.
ghost use Rattle.std.specs.Prelude.{◌≡◌};
ghost use Rattle.cert_checker.specs.inner.Seen.{branch_of};
ghost use Rattle.cert_checker.specs.inner.Branches.{closes};

use crate::facts::Open;
use lint_core::{Step, Table};

impl Open<'_> {
    /// Whether the step closes the branch.
    pub(crate) fn is_closed_by(&self, tables: &[Table], step: &Step) -> bool
        ensures { result ≡ closes tables.now (branch_of self.now) step.now }
    {
        match step {
            Step::Sum { edges } => self.is_contradiction(tables, edges.as_slice()),
            Step::Text { last, edges } => self.is_text_clash(tables, *last, edges.as_slice()),
            Step::Null { fact, other, path } => {
                self.is_null_clash(*fact, *other, path.as_slice())
            }
            Step::Same { fact, path } => self.is_same_clash(*fact, path.as_slice()),
            _ => false,
        }
    }
}
