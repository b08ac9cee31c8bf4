//! Numbers that meet the bounds that literals ask for, or the leaf of a ring of them.
ghost use Rattle.std.specs.Prelude.{◌≡◌, ◌≤◌, ◌^◌, All, IfOk, length, map};
ghost use Rattle.diff_bounds.specs.System.{IsAmong, IsModerate};
ghost use Rattle.ground_theory.specs.inner.Counted.{edge_in, IfNumbers, IfLeaf, AreNumbers, IsRingLeaf};

use crate::numbering::Cell;
use crate::numbers::Stated;
use crate::ring::ring_leaf;
use diff_bounds::{Edge, Solved, solve};
use lint_base::{Items, NoMemory};
use lint_core::Step;
use std::alloc::Global;

/// The number of each variable, or a leaf that excludes them.
#[derive(Drop)]
pub(crate) enum Counted {
    Numbers(Items<i128>),
    Leaf(Step),
}

/// Numbers of the variables that meet the bounds, or the leaf of a ring.
pub(crate) fn count(
    alloc: Global,
    vars: u32,
    cells: &[Cell],
    stated: &[Stated],
) -> Result<Counted, NoMemory>
    requires ends { All (IsAmong vars) (map edge_in stated.now) }
    requires moderate { All IsModerate (map edge_in stated.now) }
    requires variables { vars ≤ 32769 }
    requires few { length stated.now ≤ 2 ^ 20 }
    ensures numbers { IfOk result (λ c. IfNumbers c (AreNumbers vars stated.now)) }
    ensures leaf { IfOk result (λ c. IfLeaf c (IsRingLeaf vars cells.now stated.now)) }
{
    let edges = edges(alloc, stated)?;
    match solve(alloc, vars, &edges)? {
        Solved::Values(values) => Ok(Counted::Numbers(values)),
        Solved::Cycle(ring) => {
            let edges = ring_leaf(alloc, cells, stated, ring.as_slice())?;
            Ok(Counted::Leaf(Step::Sum {
                edges: Items::from_vec(edges),
            }))
        }
    }
}

/// The bounds between variables.
fn edges(alloc: Global, stated: &[Stated]) -> Result<Vec<Edge>, NoMemory>
    ensures { IfOk result (λ v. v.items ≡ map edge_in stated.now) }
{
    Ok(stated.iter().map(|s| s.edge).collect(alloc)?)
}
