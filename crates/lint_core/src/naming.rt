//! Which entries of the main FROM list a condition names, and whether it has a scalar subquery.
ghost use Rattle.std.specs.Prelude.{◌≡◌};
ghost use Rattle.std.specs.List.{list_any};
ghost use Rattle.lint_core.specs.declared.condition.Block.{out-Block};
ghost use Rattle.lint_core.specs.Naming.{term_names, names, has_scalar};

use crate::condition::{Block, Cond, Term};

impl Term {
    /// Whether the term is a column of this entry of the main FROM list.
    pub(crate) fn names(&self, entry: u32) -> bool
        ensures { result ≡ term_names entry self.now }
    {
        match self {
            Term::Cell {
                level,
                entry: of_entry,
                ..
            } => *level == 0 && *of_entry == entry,
            _ => false,
        }
    }
}

impl Cond {
    /// Whether the condition names this entry of the main FROM list, from 0, also in its
    /// subqueries and in what they select. It takes no memory.
    #[cycle(names)]
    pub fn names(&self, entry: u32) -> bool
        ensures { result ≡ names entry self.now }
    {
        match self {
            Cond::True | Cond::False => false,
            Cond::And(parts) | Cond::Or(parts) => some_names(parts.as_slice(), entry),
            Cond::Not(part) => part.get().names(entry),
            Cond::Compare { left, right, .. } => left.names(entry) || right.names(entry),
            Cond::IsNull { term, .. } => term.names(entry),
            Cond::Exists { block, .. } => block.get().names(entry),
            Cond::In {
                term: left,
                block,
                item,
                ..
            }
            | Cond::Scalar {
                left,
                block,
                item,
                ..
            } => left.names(entry) || item.names(entry) || block.get().names(entry),
        }
    }
}

#[cycle(names)]
fn some_names(conds: &[Cond], entry: u32) -> bool
    ensures { result ≡ list_any (names entry) conds.now }
{
    for cond in conds {
        if cond.names(entry) {
            return true;
        }
    }
    false
}

impl Block {
    #[cycle(names)]
    fn names(&self, entry: u32) -> bool
        ensures { result ≡ names entry (out-Block self.now).cond }
    {
        self.cond.names(entry)
    }
}

impl Cond {
    /// Whether the condition has a scalar subquery, at any depth. It takes no memory.
    #[cycle(has_scalar)]
    pub fn has_scalar(&self) -> bool
        ensures { result ≡ has_scalar self.now }
    {
        match self {
            Cond::True | Cond::False | Cond::Compare { .. } | Cond::IsNull { .. } => false,
            Cond::And(parts) | Cond::Or(parts) => some_has_scalar(parts.as_slice()),
            Cond::Not(part) => part.get().has_scalar(),
            Cond::Exists { block, .. } | Cond::In { block, .. } => block.get().has_scalar(),
            Cond::Scalar { .. } => true,
        }
    }
}

#[cycle(has_scalar)]
fn some_has_scalar(conds: &[Cond]) -> bool
    ensures { result ≡ list_any has_scalar conds.now }
{
    for cond in conds {
        if cond.has_scalar() {
            return true;
        }
    }
    false
}

impl Block {
    #[cycle(has_scalar)]
    fn has_scalar(&self) -> bool
        ensures { result ≡ has_scalar (out-Block self.now).cond }
    {
        self.cond.has_scalar()
    }
}
