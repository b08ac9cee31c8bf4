//! The Sum leaf of a ring of edges: the ring is turned to begin at zero, the Sames behind its Low
//! and before its High are dropped, and the bounds are those of the cells that the Les name.
ghost use Rattle.std.specs.Prelude.{◌≡◌, ◌<◌, ◌++◌, [], All, IfOk, OnOk, length};
ghost use Rattle.ground_theory.specs.SumLeaf.{is_same};
ghost use Rattle.ground_theory.specs.inner.Rings.{chain_of, from_zero, leads_high};
ghost use Rattle.ground_theory.specs.inner.Rings.{cut_back, cut_front, cut_ring, cell_of_variable};

use crate::numbering::Cell;
use crate::numbers::Stated;
use diff_bounds::Edge;
use lint_base::NoMemory;
use lint_core::SumEdge;
use std::alloc::Global;

/// The edges of the leaf of a ring.
pub(crate) fn ring_leaf(
    alloc: Global,
    cells: &[Cell],
    stated: &[Stated],
    ring: &[u32],
) -> Result<Vec<SumEdge>, NoMemory>
    requires { All (λ n. n < length stated.now) ring.now }
    ensures { IfOk result (λ list. list.items
        ≡ cut_ring cells.now (from_zero [] (chain_of stated.now ring.now))) }
{
    let chain = turned(alloc, &chain(alloc, stated, ring)?)?;
    let mut list = Vec::new(alloc);
    match chain.as_slice() {
        [first, rest @ ..] => {
            if matches!(first.origin, SumEdge::Low { .. }) {
                add_front(&mut list, cells, rest)?;
            } else {
                add_back(&mut list, cells, &chain)?;
            }
        }
        [] => {}
    }
    Ok(list)
}

/// The edges of these numbers.
fn chain(alloc: Global, stated: &[Stated], ring: &[u32]) -> Result<Vec<Stated>, NoMemory>
    requires { All (λ n. n < length stated.now) ring.now }
    ensures { IfOk result (λ chain. chain.items ≡ chain_of stated.now ring.now) }
{
    let mut chain = Vec::new(alloc);
    for number in ring {
        chain.push(stated[*number as usize])?;
    }
    Ok(chain)
}

/// The chain from the edge that leaves zero on, if one does.
fn turned(alloc: Global, chain: &[Stated]) -> Result<Vec<Stated>, NoMemory>
    ensures { IfOk result (λ list. list.items ≡ from_zero [] chain.now) }
{
    let mut list = Vec::new(alloc);
    for (place, stated) in chain.iter().enumerate() {
        if stated.edge.left == 0 {
            list.extend_from_slice(&chain[place..])?;
            list.extend_from_slice(&chain[..place])?;
            return Ok(list);
        }
    }
    list.extend_from_slice(chain)?;
    Ok(list)
}

/// Adds the chain without the Sames at the front, and with a Low there.
fn add_front(list: &mut Vec<SumEdge>, cells: &[Cell], chain: &[Stated]) -> Result<(), NoMemory>
    ensures { OnOk result (list.new.items ≡ list.old.items ++ cut_front cells.now chain.now) }
{
    for (place, stated) in chain.iter().enumerate() {
        if !is_same(stated.origin) {
            if let Some(cell) = cell_of(cells, stated.edge.left) {
                let Cell { row, column } = cell;
                list.push(SumEdge::Low { row, column })?;
            }
            return add_back(list, cells, &chain[place..]);
        }
    }
    Ok(())
}

/// Adds the chain without the Sames before a High.
fn add_back(list: &mut Vec<SumEdge>, cells: &[Cell], chain: &[Stated]) -> Result<(), NoMemory>
    ensures { OnOk result (list.new.items ≡ list.old.items ++ cut_back cells.now chain.now) }
{
    for (place, stated) in chain.iter().enumerate() {
        list.push(stated.origin)?;
        if matches!(stated.origin, SumEdge::Fact(_)) && leads_high(&chain[place + 1..]) {
            if let Some(cell) = cell_of(cells, stated.edge.right) {
                let Cell { row, column } = cell;
                list.push(SumEdge::High { row, column })?;
            }
            return Ok(());
        }
    }
    Ok(())
}

/// Whether Sames come, and then a High.
fn leads_high(chain: &[Stated]) -> bool
    ensures { result ≡ leads_high chain.now }
{
    for stated in chain {
        match stated.origin {
            SumEdge::High { .. } => return true,
            SumEdge::Same { .. } | SumEdge::Back { .. } => {}
            SumEdge::Fact(_) | SumEdge::Low { .. } => return false,
        }
    }
    false
}

fn is_same(origin: SumEdge) -> bool
    ensures { result ≡ is_same origin }
{
    matches!(origin, SumEdge::Same { .. } | SumEdge::Back { .. })
}

/// The cell of a variable; zero has none.
fn cell_of(cells: &[Cell], variable: u32) -> Option<Cell>
    ensures { result ≡ cell_of_variable cells.now variable }
{
    if variable == 0 {
        return None;
    }
    cells.get(variable as usize - 1).copied()
}
