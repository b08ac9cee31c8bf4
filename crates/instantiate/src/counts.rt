//! How many clauses there are, and how many stand before those of each node.
ghost use Rattle.std.specs.Prelude.{◌≡◌, ◌<◌, ◌+◌, ◌-◌, ◌^◌, ℕ, length, map, min, take, Some, slice_get, slice_index, IfOk, OnOk};
ghost use Rattle.std.specs.List.{sum_by};
ghost use Rattle.lint_core.specs.Database.{below};
ghost use Rattle.instantiate.specs.inner.Spots.{saturated, sentence_size, stage_size, size_before, AreBases, AreMoved};
ghost use Rattle.instantiate.specs.inner.Bases.{HaveBases};

use crate::spots::Spot;
use lint_base::{Items, NoMemory};
use std::alloc::Global;

/// How many clauses the stages before each stage have, and how many there are; in place of a
/// greater number the greatest `u64`.
#[derive(Drop)]
pub(crate) struct Offsets {
    pub(crate) starts: Items<u64>,
    pub(crate) total: u64,
}

fn size_of_sentence(spots: &[Spot], stage: usize) -> u64
    ensures { result ≡ saturated (sentence_size stage spots.now) }
{
    let mut size: u64 = 0;
    for spot in spots {
        if spot.stage == stage {
            size = size.saturating_add(spot.count);
        }
    }
    size
}

fn size_of_stage(all: &[Items<Spot>], stage: usize) -> u64
    ensures { result ≡ saturated (stage_size all.now stage) }
{
    let mut size: u64 = 0;
    for spots in all {
        size = size.saturating_add(size_of_sentence(spots.as_slice(), stage));
    }
    size
}

/// Counts the clauses of so many stages.
pub(crate) fn starts(alloc: Global, all: &[Items<Spot>], stages: usize) -> Result<Offsets, NoMemory>
    ensures starts { IfOk result (λ s. s.starts
        ≡ map (λ stage. saturated (size_before all.now stage)) (below stages)) }
    ensures total { IfOk result (λ s. s.total ≡ saturated (size_before all.now stages)) }
{
    let mut starts = Items::new(alloc);
    let mut total: u64 = 0;
    for stage in 0..stages {
        starts.push(total)?;
        total = total.saturating_add(size_of_stage(all, stage));
    }
    Ok(Offsets { starts, total })
}

/// The number of the first clause of each node, where `next` has the next number of each stage.
fn bases_of_sentence(
    alloc: Global,
    spots: &[Spot],
    next: &mut [u64],
) -> Result<Items<u64>, NoMemory>
    ensures bases { IfOk result (AreBases next.old spots.now) }
    ensures next { OnOk result (AreMoved next.old spots.now next.new) }
{
    let mut bases = Items::new(alloc);
    for spot in spots {
        if spot.stage < next.len() {
            let base = next[spot.stage];
            bases.push(base)?;
            next[spot.stage] = base.saturating_add(spot.count);
        } else {
            bases.push(0)?;
        }
    }
    Ok(bases)
}

/// The number of the first clause of each node of each sentence.
pub(crate) fn bases(
    alloc: Global,
    all: &[Items<Spot>],
    next: &mut [u64],
) -> Result<Items<Items<u64>>, NoMemory>
    ensures { IfOk result (HaveBases next.old all.now) }
{
    let mut bases = Items::new(alloc);
    for spots in all {
        bases.push(bases_of_sentence(alloc, spots.as_slice(), next)?)?;
    }
    Ok(bases)
}
