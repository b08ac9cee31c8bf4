//! How many clauses each node has, in which stage.
ghost use Rattle.std.specs.Prelude.{◌≡◌, ◌-◌, ◌^◌, map, min, IfOk};
ghost use Rattle.sorted_skolem.specs.declared.term.RowTerm.{RowTerm};
ghost use Rattle.instantiate.specs.Keys.{place_in, stage_of};
ghost use Rattle.instantiate.specs.inner.Flat.{node_of, tables_around};
ghost use Rattle.instantiate.specs.inner.Spots.{spot_of};

use crate::outline::{Binder, FlatNode};
use crate::rows::count_lists;
use lint_base::{Items, NoMemory};
use sorted_skolem::RowTerm;
use std::alloc::Global;

/// The tables of the Foralls around a node, the stage of its clauses and how many they are; the
/// greatest `u64` where there are more.
#[derive(Drop)]
pub(crate) struct Spot {
    pub(crate) tables: Items<u32>,
    pub(crate) stage: usize,
    pub(crate) count: u64,
}

/// The place of the table in the order, from 1; past the end where it is not there.
fn place_in(order: &[u32], table: u32) -> usize
    ensures { result ≡ place_in order.now table }
{
    for (place, other) in order.iter().enumerate() {
        if *other == table {
            return place + 1;
        }
    }
    order.len() + 1
}

/// The place of the last of the tables.
fn stage_of(order: &[u32], tables: &[u32]) -> usize
    ensures { result ≡ stage_of order.now tables.now }
{
    let mut stage = 0;
    for table in tables {
        stage = stage.max(place_in(order, *table));
    }
    stage
}

/// The tables of the Foralls.
fn tables_around(alloc: Global, around: &[Binder]) -> Result<Items<u32>, NoMemory>
    ensures { IfOk result (λ tables. tables ≡ tables_around around.now) }
{
    let mut tables = Items::new(alloc);
    for binder in around {
        if binder.is_forall {
            tables.push(binder.table)?;
        }
    }
    Ok(tables)
}

fn spot_of(
    alloc: Global,
    order: &[u32],
    terms: &[RowTerm],
    node: &FlatNode,
) -> Result<Spot, NoMemory>
    ensures { IfOk result (λ spot. spot ≡ spot_of order.now terms.now (node_of node.now)) }
{
    let tables = tables_around(alloc, node.around.as_slice())?;
    let stage = stage_of(order, tables.as_slice());
    let count = count_lists(terms, tables.as_slice());
    Ok(Spot {
        tables,
        stage,
        count,
    })
}

fn spots_of(
    alloc: Global,
    order: &[u32],
    terms: &[RowTerm],
    nodes: &[FlatNode],
) -> Result<Items<Spot>, NoMemory>
    ensures { IfOk result (λ spots. spots
        ≡ map (spot_of order.now terms.now) (map node_of nodes.now)) }
{
    let mut spots = Items::new(alloc);
    for node in nodes {
        spots.push(spot_of(alloc, order, terms, node)?)?;
    }
    Ok(spots)
}

/// The spot of each node of each sentence.
pub(crate) fn spots(
    alloc: Global,
    order: &[u32],
    terms: &[RowTerm],
    outlines: &[Items<FlatNode>],
) -> Result<Items<Items<Spot>>, NoMemory>
    ensures { IfOk result (λ spots. spots
        ≡ map (map (spot_of order.now terms.now)) (map (map node_of) outlines.now)) }
{
    let mut all = Items::new(alloc);
    for nodes in outlines {
        all.push(spots_of(alloc, order, terms, nodes.as_slice())?)?;
    }
    Ok(all)
}
