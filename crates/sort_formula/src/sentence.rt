//! Sentences: formulas in which each variable is bound.
ghost use Rattle.std.specs.Prelude.{◌≡◌, true, false, [], ◌+◌, ◌-◌, ◌^◌, min, sum, map, IfSome, IfNone};
ghost use Rattle.std.specs.List.{list_all};
ghost use Rattle.sort_formula.specs.Nodes.{nodes};
ghost use Rattle.sort_formula.specs.Sentences.{has_variable, is_moderate, atom_is_bound, is_bound, is_sentence, formula_fits};
ghost use Rattle.sort_formula.specs.inner.Standing.{tables_outside};

use crate::formula::{Atom, Formula, Side};
use crate::outside::Outside;
use lint_core::Schema;
use std::marker::Model;

/// A sentence: a formula in which each variable is bound, `Same` and `Other` join variables of one
/// table, and each bound of `Le` lies within plus or minus 2^66.
#[derive(Drop)]
pub struct Sentence {
    formula: Formula,
}

impl Model for Sentence {
    ghost use Rattle.std.specs.Prelude.{◌≡◌, true};
    ghost use Rattle.sort_formula.specs.declared.formula.Formula.{Formula};
    ghost use Rattle.sort_formula.specs.Sentences.{is_sentence};
    ghost use Rattle.std.specs.Coded.{codes};
    ghost use Rattle.sort_formula.specs.contracts.formula.Formula as tree;

    ghost Value = { Formula };

    ghost view = { λ s. s.formula };

    ghost invariant = { λ s. is_sentence s.formula ≡ true };

    // a code for each formula tells two of them apart
    ghost coded = { Prim.hlevel (codes, tree.the_row.coded) };
}

impl Sentence {
    /// The sentence of this formula. `None` exactly where a variable in it is not bound, `Same` or
    /// `Other` joins variables of two tables, or a bound of `Le` is below -2^66 or above 2^66. It
    /// takes no memory.
    pub fn new(formula: Formula) -> Option<Sentence>
        ensures some { IfSome result (λ s. (s ≡ formula) × (is_sentence formula ≡ true)) }
        ensures none { IfNone result (is_sentence formula ≡ false) }
    {
        if formula.is_bound(&Outside::Nothing) {
            Some(Sentence { formula })
        } else {
            None
        }
    }

    /// The formula.
    pub fn formula(&self) -> &Formula
        ensures formula { result.now ≡ self.now }
        ensures sentence { is_sentence self.now ≡ true }
    {
        &self.formula
    }

    /// Whether the sentence fits the schema: every table and column in it exists, `Le` compares
    /// number cells and 0, and `TextEq` and `TextNe` text cells and texts. It takes no memory.
    pub fn fits(&self, schema: &Schema) -> bool
        ensures { result ≡ formula_fits schema.now self.now [] }
    {
        self.formula
            .fits(schema.tables().as_slice(), &Outside::Nothing)
    }

    /// How many nodes the formula has: atoms, And, Or and quantifiers. The greatest `u64` where
    /// there are more.
    pub fn nodes(&self) -> u64
        ensures { result ≡ min (nodes self.now) (2 ^ 64 - 1) }
    {
        self.formula.nodes()
    }
}

const GREATEST_BOUND: i128 = 1 << 66;

fn is_moderate(most: i128) -> bool
    ensures { result ≡ is_moderate most }
{
    most >= -GREATEST_BOUND && most <= GREATEST_BOUND
}

impl Side {
    fn is_bound(&self, outside: &Outside) -> bool
        ensures { result ≡ has_variable (tables_outside outside.now) self.now }
    {
        match self {
            Side::Cell { row, .. } => outside.has(*row),
            Side::Zero | Side::Text(_) => true,
        }
    }
}

impl Atom {
    fn is_bound(&self, outside: &Outside) -> bool
        ensures { result ≡ atom_is_bound (tables_outside outside.now) self.now }
    {
        match self {
            Atom::Le { left, right, most } => {
                left.is_bound(outside) && right.is_bound(outside) && is_moderate(*most)
            }
            Atom::TextEq { left, right } | Atom::TextNe { left, right } => {
                left.is_bound(outside) && right.is_bound(outside)
            }
            Atom::IsNull { row, .. } | Atom::NotNull { row, .. } => outside.has(*row),
            Atom::Same { row, other } | Atom::Other { row, other } => {
                outside.has_as_one(*row, *other)
            }
        }
    }
}

impl Formula {
    #[cycle(bound)]
    fn is_bound(&self, outside: &Outside) -> bool
        ensures { result ≡ is_bound self.now (tables_outside outside.now) }
    {
        match self {
            Formula::Atom(atom) => atom.is_bound(outside),
            Formula::And(parts) | Formula::Or(parts) => all_bound(parts.as_slice(), outside),
            Formula::Exists { table, body } | Formula::Forall { table, body } => {
                body.get().is_bound(&Outside::Quantifier {
                    table: *table,
                    outer: &*outside,
                })
            }
        }
    }
}

#[cycle(bound)]
fn all_bound(parts: &[Formula], outside: &Outside) -> bool
    ensures { result ≡ list_all (λ part. is_bound part (tables_outside outside.now)) parts.now }
{
    for part in parts {
        if !part.is_bound(outside) {
            return false;
        }
    }
    true
}

impl Formula {
    /// How many nodes the formula has: atoms, And, Or and quantifiers. The greatest `u64` where
    /// there are more. It takes no memory.
    #[cycle(nodes)]
    pub fn nodes(&self) -> u64
        ensures { result ≡ min (nodes self.now) (2 ^ 64 - 1) }
    {
        match self {
            Formula::Atom(_) => 1,
            Formula::And(parts) | Formula::Or(parts) => {
                nodes_of_all(parts.as_slice()).saturating_add(1)
            }
            Formula::Exists { body, .. } | Formula::Forall { body, .. } => {
                body.get().nodes().saturating_add(1)
            }
        }
    }
}

#[cycle(nodes)]
fn nodes_of_all(parts: &[Formula]) -> u64
    ensures { result ≡ min (sum (map nodes parts.now)) (2 ^ 64 - 1) }
{
    let mut count: u64 = 0;
    for part in parts {
        count = count.saturating_add(part.nodes());
    }
    count
}
