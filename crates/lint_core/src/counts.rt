//! Whether a condition has as many scalar subqueries, NOT IN subqueries or predicates as that
//! there is one of a number. Each walk takes one away of the number as it goes, so that no count
//! passes its type.
ghost use Rattle.std.specs.Prelude.{◌≡◌, IfSome, IfNone, ◌<◌, ◌+◌, sum_by, nat_lt};
ghost use Rattle.lint_core.specs.declared.condition.Block.{out-Block};
ghost use Rattle.lint_core.specs.inner.Counts.{count_scalars, count_not_ins, count_predicates};
ghost use Rattle.lint_core.specs.Subqueries.{is_column};

use crate::condition::{Block, Cond, Term};

impl Term {
    pub(crate) fn is_cell(&self) -> bool
        ensures { result ≡ is_column self.now }
    {
        matches!(self, Term::Cell { .. })
    }
}

impl Cond {
    /// What is left of a number after each scalar subquery took one away. `None` where there are
    /// more.
    #[cycle(scalars)]
    fn spend_scalars(&self, left: u32) -> Option<u32>
        ensures some { IfSome result (λ rest. rest + count_scalars self.now ≡ left) }
        ensures none { IfNone result (left < count_scalars self.now) }
    {
        match self {
            Cond::True | Cond::False | Cond::Compare { .. } | Cond::IsNull { .. } => Some(left),
            Cond::And(parts) | Cond::Or(parts) => spend_all_scalars(parts.as_slice(), left),
            Cond::Not(part) => part.get().spend_scalars(left),
            Cond::Exists { block, .. } | Cond::In { block, .. } => block.get().spend_scalars(left),
            Cond::Scalar { block, .. } => block.get().spend_scalars(left.checked_sub(1)?),
        }
    }
}

#[cycle(scalars)]
fn spend_all_scalars(conds: &[Cond], left: u32) -> Option<u32>
    ensures some { IfSome result (λ rest. rest + sum_by count_scalars conds.now ≡ left) }
    ensures none { IfNone result (left < sum_by count_scalars conds.now) }
{
    let mut rest = left;
    for cond in conds {
        rest = cond.spend_scalars(rest)?;
    }
    Some(rest)
}

impl Block {
    #[cycle(scalars)]
    fn spend_scalars(&self, left: u32) -> Option<u32>
        ensures some { IfSome result
            (λ rest. rest + count_scalars (out-Block self.now).cond ≡ left) }
        ensures none { IfNone result (left < count_scalars (out-Block self.now).cond) }
    {
        self.cond.spend_scalars(left)
    }
}

impl Cond {
    /// What is left of a number after each NOT IN subquery that selects a column took one away.
    /// `None` where there are more.
    #[cycle(not_ins)]
    fn spend_not_ins(&self, left: u32) -> Option<u32>
        ensures some { IfSome result (λ rest. rest + count_not_ins self.now ≡ left) }
        ensures none { IfNone result (left < count_not_ins self.now) }
    {
        match self {
            Cond::True | Cond::False | Cond::Compare { .. } | Cond::IsNull { .. } => Some(left),
            Cond::And(parts) | Cond::Or(parts) => spend_all_not_ins(parts.as_slice(), left),
            Cond::Not(part) => part.get().spend_not_ins(left),
            Cond::In {
                block,
                item,
                negated,
                ..
            } => {
                let own = u32::from(*negated && item.is_cell());
                block.get().spend_not_ins(left.checked_sub(own)?)
            }
            Cond::Exists { block, .. } | Cond::Scalar { block, .. } => {
                block.get().spend_not_ins(left)
            }
        }
    }
}

#[cycle(not_ins)]
fn spend_all_not_ins(conds: &[Cond], left: u32) -> Option<u32>
    ensures some { IfSome result (λ rest. rest + sum_by count_not_ins conds.now ≡ left) }
    ensures none { IfNone result (left < sum_by count_not_ins conds.now) }
{
    let mut rest = left;
    for cond in conds {
        rest = cond.spend_not_ins(rest)?;
    }
    Some(rest)
}

impl Block {
    #[cycle(not_ins)]
    fn spend_not_ins(&self, left: u32) -> Option<u32>
        ensures some { IfSome result
            (λ rest. rest + count_not_ins (out-Block self.now).cond ≡ left) }
        ensures none { IfNone result (left < count_not_ins (out-Block self.now).cond) }
    {
        self.cond.spend_not_ins(left)
    }
}

impl Cond {
    /// What is left of a number after each predicate took one away. `None` where there are more.
    #[cycle(predicates)]
    fn spend_predicates(&self, left: u32) -> Option<u32>
        ensures some { IfSome result (λ rest. rest + count_predicates self.now ≡ left) }
        ensures none { IfNone result (left < count_predicates self.now) }
    {
        match self {
            Cond::True | Cond::False => Some(left),
            Cond::And(parts) | Cond::Or(parts) => spend_all_predicates(parts.as_slice(), left),
            Cond::Not(part) => part.get().spend_predicates(left),
            Cond::Compare { .. } | Cond::IsNull { .. } | Cond::Scalar { .. } => left.checked_sub(1),
            Cond::Exists { block, .. } | Cond::In { block, .. } => {
                block.get().spend_predicates(left.checked_sub(1)?)
            }
        }
    }
}

#[cycle(predicates)]
fn spend_all_predicates(conds: &[Cond], left: u32) -> Option<u32>
    ensures some { IfSome result (λ rest. rest + sum_by count_predicates conds.now ≡ left) }
    ensures none { IfNone result (left < sum_by count_predicates conds.now) }
{
    let mut rest = left;
    for cond in conds {
        rest = cond.spend_predicates(rest)?;
    }
    Some(rest)
}

impl Block {
    #[cycle(predicates)]
    fn spend_predicates(&self, left: u32) -> Option<u32>
        ensures some { IfSome result
            (λ rest. rest + count_predicates (out-Block self.now).cond ≡ left) }
        ensures none { IfNone result (left < count_predicates (out-Block self.now).cond) }
    {
        self.cond.spend_predicates(left)
    }
}

impl Cond {
    /// Whether there is a scalar subquery of this number, from 0.
    pub(crate) fn has_scalar_at(&self, number: u32) -> bool
        ensures { result ≡ nat_lt number (count_scalars self.now) }
    {
        self.spend_scalars(number).is_none()
    }

    /// Whether there is a NOT IN subquery that selects a column of this number, from 0.
    pub(crate) fn has_not_in_at(&self, number: u32) -> bool
        ensures { result ≡ nat_lt number (count_not_ins self.now) }
    {
        self.spend_not_ins(number).is_none()
    }

    /// Whether there is a predicate of this number, from 0.
    pub(crate) fn has_predicate_at(&self, number: u32) -> bool
        ensures { result ≡ nat_lt number (count_predicates self.now) }
    {
        self.spend_predicates(number).is_none()
    }
}
