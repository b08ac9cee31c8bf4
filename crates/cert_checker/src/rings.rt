//! Rings of inequalities that contradict each other.
ghost use Rattle.std.specs.Prelude.{◌≡◌, ◌≤◌, ◌∷◌, ◌&&◌, pos, int_lt, false, true, IfSome, length, if◌then◌else◌, option_map, option_and_then};
ghost use Rattle.std.specs.Option.{option_map_or};
ghost use Rattle.lint_core.specs.declared.certificate.SumEdge.TheVariants as edge;
ghost use Rattle.sort_formula.specs.Facts.{atom_of, domain_at};
ghost use Rattle.sort_formula.specs.Rings.{bound_in, low_bound, high_bound, may_follow, may_follow_round, is_guarded, bound_of, bounds_of, is_chain, sum_of, is_negative_ring, is_contradiction};
ghost use Rattle.sort_formula.specs.Sentences.{is_moderate};
ghost use Rattle.cert_checker.specs.inner.Seen.{side_of, branch_of};
ghost use Rattle.cert_checker.specs.inner.Inequalities.{bound_said, range_of, comes_back};

use crate::facts::{End, Open, Said};
use lint_core::{Domain, SumEdge, Table};

/// Left minus right is at most the bound.
#[derive(Clone, Copy)]
pub(crate) struct Inequality<'a> {
    left: End<'a>,
    right: End<'a>,
    most: i128,
}

const MOST_EDGES: usize = 32_769;

/// Whether the second edge may stand behind the first: a Low stands before a fact, and a High
/// behind one.
fn may_follow(edge: SumEdge, next: SumEdge) -> bool
    ensures { result ≡ may_follow edge next }
{
    let low_is_guarded = !matches!(edge, SumEdge::Low { .. }) || matches!(next, SumEdge::Fact(_));
    let high_is_guarded = !matches!(next, SumEdge::High { .. }) || matches!(edge, SumEdge::Fact(_));
    low_is_guarded && high_is_guarded
}

/// Whether each edge may stand behind the one before it, and the first behind the last.
fn may_follow_round(first: SumEdge, others: &[SumEdge]) -> bool
    ensures { result ≡ may_follow_round first (first ∷ others.now) }
{
    let mut last = first;
    for edge in others {
        if !may_follow(last, *edge) {
            return false;
        }
        last = *edge;
    }
    may_follow(last, first)
}

fn is_guarded(edges: &[SumEdge]) -> bool
    ensures { result ≡ is_guarded edges.now }
{
    match edges {
        [] => false,
        [first, others @ ..] => may_follow_round(*first, others),
    }
}

/// The least and the greatest value of a number column.
fn range(domain: Domain) -> Option<(i64, i64)>
    ensures { result ≡ range_of domain }
{
    match domain {
        Domain::Number {
            least,
            greatest,
            ..
        } => Some((least, greatest)),
        Domain::Text { .. } => None,
    }
}

impl<'a> Open<'a> {
    /// The inequality that a fact is.
    fn stated(&self, fact: u32) -> Option<Inequality<'a>>
        ensures stated { option_map bound_said result
            ≡ option_and_then bound_in (atom_of (branch_of self.now) fact) }
        ensures moderate { IfSome result (λ bound. is_moderate bound.most ≡ true) }
    {
        match self.atom(fact)? {
            Said::Le { left, right, most } => Some(Inequality { left, right, most }),
            _ => None,
        }
    }

    /// The cell is at least the least value of its domain.
    fn low(&self, tables: &[Table], row: usize, column: u32) -> Option<Inequality<'a>>
        ensures stated { option_map bound_said result
            ≡ option_and_then (low_bound row column)
            (domain_at tables.now (branch_of self.now) row column) }
        ensures moderate { IfSome result (λ bound. is_moderate bound.most ≡ true) }
    {
        let (least, _) = range(self.domain(tables, row, column)?)?;
        Some(Inequality {
            left: End::Zero,
            right: End::Cell { row, column },
            most: -i128::from(least),
        })
    }

    /// The cell is at most the greatest value of its domain.
    fn high(&self, tables: &[Table], row: usize, column: u32) -> Option<Inequality<'a>>
        ensures stated { option_map bound_said result
            ≡ option_and_then (high_bound row column)
            (domain_at tables.now (branch_of self.now) row column) }
        ensures moderate { IfSome result (λ bound. is_moderate bound.most ≡ true) }
    {
        let (_, greatest) = range(self.domain(tables, row, column)?)?;
        Some(Inequality {
            left: End::Cell { row, column },
            right: End::Zero,
            most: i128::from(greatest),
        })
    }

    /// The cells of a number column in the two rows that a fact says are one, from the first row
    /// to the second, or back.
    fn same(&self, tables: &[Table], fact: u32, column: u32, back: bool) -> Option<Inequality<'a>>
        ensures stated { option_map bound_said result
            ≡ bound_of tables.now (branch_of self.now)
            (if back then edge.Back fact column else edge.Same fact column) }
        ensures moderate { IfSome result (λ bound. is_moderate bound.most ≡ true) }
    {
        let (row, other) = self.same_rows(fact)?;
        range(self.domain(tables, row, column)?)?;
        let (from, to) = if back { (other, row) } else { (row, other) };
        Some(Inequality {
            left: End::Cell { row: from, column },
            right: End::Cell { row: to, column },
            most: 0,
        })
    }

    /// The inequality of an edge, if it states one.
    fn inequality(&self, tables: &[Table], edge: SumEdge) -> Option<Inequality<'a>>
        ensures stated { option_map bound_said result
            ≡ bound_of tables.now (branch_of self.now) edge }
        ensures moderate { IfSome result (λ bound. is_moderate bound.most ≡ true) }
    {
        match edge {
            SumEdge::Fact(fact) => self.stated(fact),
            SumEdge::Low { row, column } => self.low(tables, row as usize, column),
            SumEdge::High { row, column } => self.high(tables, row as usize, column),
            SumEdge::Same { fact, column } => self.same(tables, fact, column, false),
            SumEdge::Back { fact, column } => self.same(tables, fact, column, true),
        }
    }

    /// Whether the edges lead from a side back to it, and their bounds add up to less than 0.
    fn comes_back(&self, tables: &[Table], start: End<'a>, edges: &[SumEdge]) -> bool
        requires { length edges.now ≤ 32769 }
        ensures { result ≡ comes_back tables.now (branch_of self.now) (side_of start.entry)
            (side_of start.entry) (pos 0) edges.now }
    {
        let mut end = start;
        let mut sum: i128 = 0;
        for edge in edges {
            match self.inequality(tables, *edge) {
                Some(bound) if end.is_same(&bound.left) => {
                    end = bound.right;
                    sum += bound.most;
                }
                _ => return false,
            }
        }
        end.is_same(&start) && sum < 0
    }

    fn is_negative_ring(&self, tables: &[Table], edges: &[SumEdge]) -> bool
        requires { length edges.now ≤ 32769 }
        ensures { result ≡ option_map_or is_negative_ring
            (bounds_of tables.now (branch_of self.now) edges.now) false }
    {
        let [first, ..] = edges else {
            return false;
        };
        match self.inequality(tables, *first) {
            Some(bound) => self.comes_back(tables, bound.left, edges),
            None => false,
        }
    }

    /// Whether the inequalities of the edges contradict each other.
    pub(crate) fn is_contradiction(&self, tables: &[Table], edges: &[SumEdge]) -> bool
        ensures { result ≡ is_contradiction tables.now (branch_of self.now) edges.now }
    {
        edges.len() <= MOST_EDGES && is_guarded(edges) && self.is_negative_ring(tables, edges)
    }
}
