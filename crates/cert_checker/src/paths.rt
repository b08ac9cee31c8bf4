//! Paths between rows that are one, and rows that are one and are not.
ghost use Rattle.std.specs.Prelude.{◌≡◌, nat_eq};
ghost use Rattle.sort_formula.specs.Chains.{turned, path_end, leads_to, is_same_clash};
ghost use Rattle.cert_checker.specs.inner.Seen.{branch_of};

use crate::facts::{Open, Said};
use lint_core::SameEdge;

/// The rows, from the first to the second, or back.
fn turned(back: bool, rows: (usize, usize)) -> (usize, usize)
    ensures { result ≡ turned back rows }
{
    if back { (rows.1, rows.0) } else { rows }
}

impl Open<'_> {
    /// Where a path leads to from a row: each edge begins where the one before ends.
    pub(crate) fn path_end(&self, row: usize, path: &[SameEdge]) -> Option<usize>
        ensures { result ≡ path_end (branch_of self.now) row path.now }
    {
        let mut end = row;
        for edge in path {
            let (from, to) = turned(edge.back, self.same_rows(edge.fact)?);
            if end != from {
                return None;
            }
            end = to;
        }
        Some(end)
    }

    fn leads_to(&self, row: usize, path: &[SameEdge], to: usize) -> bool
        ensures { result ≡ leads_to (branch_of self.now) row path.now (nat_eq to) }
    {
        match self.path_end(row, path) {
            Some(end) => to == end,
            None => false,
        }
    }

    /// Whether the fact says that two rows are not one, and the path that they are.
    pub(crate) fn is_same_clash(&self, fact: u32, path: &[SameEdge]) -> bool
        ensures { result ≡ is_same_clash (branch_of self.now) fact path.now }
    {
        match self.atom(fact) {
            Some(Said::Other { row, other }) => self.leads_to(row, path, other),
            _ => false,
        }
    }
}
