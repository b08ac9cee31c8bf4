//! Edges, what is answered of a system of them, and why the two answers exclude each other.
ghost use Rattle.std.specs.Prelude.{ℕ, ℤ, List};
ghost use Rattle.diff_bounds.specs.declared.system.Edge.{Edge};
ghost use Rattle.diff_bounds.specs.System.{Satisfies};
ghost use Rattle.diff_bounds.specs.Rings.{IsNegativeRing};

use lint_base::Items;

/// The constraint value(left) - value(right) <= most, between two variables named by their
/// numbers.
#[derive(Clone, Copy, Debug, PartialEq, Eq)]
pub struct Edge {
    pub left: u32,
    pub right: u32,
    pub most: i128,
}

/// The answer to a system of difference constraints.
#[derive(Debug, Drop)]
pub enum Solved {
    /// The value of each variable, by its number. They satisfy every edge.
    Values(Items<i128>),
    /// The numbers of the edges of a closed chain whose bounds have a negative sum.
    Cycle(Items<u32>),
}

/// A law, and no work: where a system has a closed chain with a negative sum, no integers at all
/// satisfy it. So an answer by values and an answer by such a chain exclude each other.
pub fn negative_cycle_excludes_values()
    ensures { (edges : List Edge) (ring : List ℕ) (value : ℕ → ℤ) →
        IsNegativeRing edges ring → ¬ (Satisfies value edges) }
{}
