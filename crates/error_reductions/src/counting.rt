//! How many subqueries and predicates a condition has.
ghost use Rattle.std.specs.Prelude.{◌≡◌, ◌+◌, ◌-◌, ◌^◌, min, sum_by};
ghost use Rattle.lint_core.specs.declared.condition.Block.{out-Block};
ghost use Rattle.lint_core.specs.inner.Counts.{count_scalars, count_not_ins, count_predicates};

use lint_core::{Block, Cond, Term};

/// How many scalar subqueries, NOT IN subqueries that select a column, and predicates there are;
/// the greatest `u32` where there are more.
#[derive(Clone, Copy)]
pub(crate) struct Counts {
    pub(crate) scalars: u32,
    pub(crate) not_ins: u32,
    pub(crate) predicates: u32,
}

impl Counts {
    fn new(scalars: u32, not_ins: u32, predicates: u32) -> Counts
        ensures { result ≡ record {
          scalars = scalars;
          not_ins = not_ins;
          predicates = predicates;
        } }
    {
        Counts {
            scalars,
            not_ins,
            predicates,
        }
    }

    fn plus(self, other: Counts) -> Counts
        ensures scalars { result.scalars ≡ min (self.scalars + other.scalars) (2 ^ 32 - 1) }
        ensures not_ins { result.not_ins ≡ min (self.not_ins + other.not_ins) (2 ^ 32 - 1) }
        ensures predicates { result.predicates
            ≡ min (self.predicates + other.predicates) (2 ^ 32 - 1) }
    {
        Counts {
            scalars: self.scalars.saturating_add(other.scalars),
            not_ins: self.not_ins.saturating_add(other.not_ins),
            predicates: self.predicates.saturating_add(other.predicates),
        }
    }
}

/// Counts those of a condition, the ones in subqueries too.
#[cycle(count)]
pub(crate) fn count(cond: &Cond) -> Counts
    ensures scalars { result.scalars ≡ min (count_scalars cond.now) (2 ^ 32 - 1) }
    ensures not_ins { result.not_ins ≡ min (count_not_ins cond.now) (2 ^ 32 - 1) }
    ensures predicates { result.predicates ≡ min (count_predicates cond.now) (2 ^ 32 - 1) }
{
    match cond {
        Cond::True | Cond::False => Counts::new(0, 0, 0),
        Cond::And(parts) | Cond::Or(parts) => count_all(parts.as_slice()),
        Cond::Not(part) => count(part.get()),
        Cond::Compare { .. } | Cond::IsNull { .. } => Counts::new(0, 0, 1),
        Cond::Exists { block, .. } => count_inside(block.get()).plus(Counts::new(0, 0, 1)),
        Cond::In {
            block,
            item,
            negated,
            ..
        } => {
            let own = u32::from(*negated && matches!(item, Term::Cell { .. }));
            count_inside(block.get()).plus(Counts::new(0, own, 1))
        }
        // what stands inside a scalar subquery is no predicate
        Cond::Scalar { block, .. } => {
            let inside = count_inside(block.get());
            Counts::new(inside.scalars.saturating_add(1), inside.not_ins, 1)
        }
    }
}

#[cycle(count)]
fn count_all(conds: &[Cond]) -> Counts
    ensures scalars { result.scalars ≡ min (sum_by count_scalars conds.now) (2 ^ 32 - 1) }
    ensures not_ins { result.not_ins ≡ min (sum_by count_not_ins conds.now) (2 ^ 32 - 1) }
    ensures predicates { result.predicates
        ≡ min (sum_by count_predicates conds.now) (2 ^ 32 - 1) }
{
    let mut all = Counts::new(0, 0, 0);
    for cond in conds {
        all = all.plus(count(cond));
    }
    all
}

#[cycle(count)]
fn count_inside(block: &Block) -> Counts
    ensures scalars { result.scalars
        ≡ min (count_scalars (out-Block block.now).cond) (2 ^ 32 - 1) }
    ensures not_ins { result.not_ins
        ≡ min (count_not_ins (out-Block block.now).cond) (2 ^ 32 - 1) }
    ensures predicates { result.predicates
        ≡ min (count_predicates (out-Block block.now).cond) (2 ^ 32 - 1) }
{
    count(&block.cond)
}
