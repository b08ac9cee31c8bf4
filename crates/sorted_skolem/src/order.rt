//! The live tables in order, or a cycle of edges.
ghost use Rattle.std.specs.Prelude.{◌≡◌, ◌<◌, ℕ, true, length, nat_eq, position, IfOk, IfErr, IsSome, reverse};
ghost use Rattle.std.specs.List.{IsDistinct};
ghost use Rattle.sorted_skolem.specs.Graph.{IsOrder, IsCycle};
ghost use Rattle.sorted_skolem.specs.Stops.{IfCycle};
ghost use Rattle.sorted_skolem.specs.inner.Waiting.{has, source_of, IsRound};

use crate::asks::asks_of;
use crate::edges::{Edge, blocked, edges_of, live_tables, ready, source};
use crate::term::Order;
use lint_base::{Items, NoMemory};
use sort_formula::Sentence;
use std::alloc::{AllocError, Global};

/// Why the live tables have no order.
#[derive(Debug, Drop)]
pub enum SortStop {
    /// Each table has an edge to the next, and the last to the first; none stands there twice.
    Cycle { tables: Items<u32> },
    /// Memory ran out.
    NoMemory,
}

impl From<NoMemory> for SortStop {
    ghost use Rattle.std.specs.Prelude.{◌≡◌};
    ghost use Rattle.sorted_skolem.specs.declared.order.SortStop.TheVariants as stop;

    ghost from_gives = { λ _ e. e ≡ stop.NoMemory };

    fn from(_error: NoMemory) -> SortStop {
        SortStop::NoMemory
    }
}

impl From<AllocError> for SortStop {
    ghost use Rattle.std.specs.Prelude.{◌≡◌};
    ghost use Rattle.sorted_skolem.specs.declared.order.SortStop.TheVariants as stop;

    ghost from_gives = { λ _ e. e ≡ stop.NoMemory };

    fn from(_error: AllocError) -> SortStop {
        SortStop::NoMemory
    }
}

/// The tables of whose rows the sentences ask, in order: by the length of the longest path of
/// edges that leads to a table, then by the table's number.
///
/// `Cycle` where edges lead from a table round to itself: the tables of such a round in turn, none
/// of them twice. `NoMemory` where
/// memory runs out, or a sentence has more nodes than any memory holds.
pub fn sort_order(alloc: Global, sentences: &[Sentence]) -> Result<Order, SortStop>
    ensures order { IfOk result (λ o. IsOrder sentences.now o.tables) }
    ensures cycle { IfErr result (λ stop. IfCycle stop (IsCycle sentences.now)) }
{
    let asks = asks_of(alloc, sentences)?;
    let mut waiting = live_tables(alloc, &asks)?;
    let edges = edges_of(alloc, &asks, &waiting)?;
    let mut tables = Vec::new(alloc);
    while !waiting.is_empty() {
        let layer = ready(alloc, &edges, &waiting)?;
        if layer.is_empty() {
            let tables = round(alloc, &edges, &waiting)?;
            return Err(SortStop::Cycle { tables });
        }
        tables.extend_from_slice(&layer)?;
        waiting = blocked(alloc, &edges, &waiting)?;
    }
    Ok(Order {
        tables: Items::from_vec(tables),
    })
}

/// A cycle of edges between the waiting tables, to each of which an edge leads from one of them.
fn round(alloc: Global, edges: &[Edge], waiting: &[u32]) -> Result<Items<u32>, NoMemory>
    requires some { 0 < length waiting.now }
    requires stuck { (table : ℕ) → has waiting.now table ≡ true
        → IsSome (source_of edges.now waiting.now table) }
    ensures closed { IfOk result (λ tables. IsRound edges.now tables) }
    ensures simple { IfOk result (λ tables. IsDistinct nat_eq tables) }
{
    let mut walk: Vec<u32> = Vec::new(alloc);
    let mut at = waiting[0];
    loop {
        if let Some(start) = place_of(&walk, at) {
            let tables = reversed(alloc, &walk[start..])?;
            return Ok(tables);
        }
        walk.push(at)?;
        at = source(edges, waiting, at).unwrap();
    }
}

/// The first place of a table.
fn place_of(walk: &[u32], table: u32) -> Option<usize>
    ensures { result ≡ position (λ other. nat_eq other table) walk.now }
{
    walk.iter().position(|other| *other == table)
}

/// The numbers from the last to the first.
fn reversed(alloc: Global, numbers: &[u32]) -> Result<Items<u32>, NoMemory>
    ensures { IfOk result (λ back. back ≡ reverse numbers.now) }
{
    Ok(Items::from_vec(numbers.iter().rev().copied().collect(alloc)?))
}
