//! Whether literals are satisfiable.
ghost use Rattle.std.specs.Prelude.{◌≡◌, ◌≤◌, ◌+◌, true, IfOk, MatchOption, length};
ghost use Rattle.std.specs.List.{list_all};
ghost use Rattle.ground_theory.specs.Judgeable.{is_frame, can_be_judged};
ghost use Rattle.ground_theory.specs.Judging.{IfHolds, IfClash, Settles};
ghost use Rattle.ground_theory.specs.Leaves.{is_right_leaf};
ghost use Rattle.ground_theory.specs.inner.Counted.{IfNumbers, IfLeaf, AreNumbers, IsRingLeaf};
ghost use Rattle.ground_theory.specs.inner.Deciding.{AreClear, IsRowLeaf, IsReady, all_stated};
ghost use Rattle.ground_theory.specs.inner.Joining.{AreJoined, AreSames};
ghost use Rattle.ground_theory.specs.inner.Known.{AreJudged, AreSifted, IsCounted};
ghost use Rattle.ground_theory.specs.inner.Numbering.{AreWithin};
ghost use Rattle.ground_theory.specs.inner.Sums.{AreFew, AreInRoom, AreKnown, HaveColumns, HaveRoom};

use crate::assignment::{Solution, assignment};
use crate::chains::chain_leaf;
use crate::clashes::{null_clash, null_leaf, parted, same_leaf};
use crate::counting::{Counted, count};
use crate::joining::{Joined, classes};
use crate::literal::{Conflict, Frame, Judged, Literal};
use crate::numbering::{Numbering, number_cells};
use crate::numbers::{bound_edges, range_edges, same_edges};
use crate::sifting::{Bound, Sifted, sift};
use crate::texts::all_texts;
use lint_base::{Items, NoMemory};
use lint_core::Step;
use std::alloc::Global;
use text_classes::Classed;

/// An assignment that satisfies the literals and is plain for them, or a closing step that is
/// right over them, which shows that there is none.
///
/// `NoMemory` when memory runs out, and in no other case.
pub fn judge(alloc: Global, literals: &[Literal], frame: &Frame) -> Result<Judged, NoMemory>
    requires frame { is_frame frame.now ≡ true }
    requires fitting { list_all (can_be_judged frame.now) literals.now ≡ true }
    requires count { length literals.now ≤ 400000 }
    ensures holds { IfOk result (λ judged. IfHolds judged (Settles frame.now literals.now)) }
    ensures clash { IfOk result (λ judged. IfClash judged (λ c.
        is_right_leaf frame.now literals.now c.leaf ≡ true)) }
{
    let sifted = sift(alloc, literals)?;
    let rows = frame.tables.as_slice().len() as u32;
    let joined = classes(alloc, rows, &sifted.sames)?;
    match row_clash(alloc, rows, &sifted, &joined)? {
        Some(leaf) => Ok(Judged::Clash(Conflict { leaf })),
        None => judge_numbers(alloc, literals, frame, &sifted, joined),
    }
}

/// The leaf of two rows of one class that differ, or of a cell that is NULL and is not.
fn row_clash(
    alloc: Global,
    rows: u32,
    sifted: &Sifted,
    joined: &Joined,
) -> Result<Option<Step>, NoMemory>
    requires rows { rows ≤ 512 }
    requires sames { AreSames rows sifted.now.sames.items }
    requires others { AreSames rows sifted.now.others.items }
    requires nulls { AreWithin rows sifted.now.nulls.items }
    requires firms { AreWithin rows sifted.now.firms.items }
    requires joined { AreJoined rows sifted.now.sames.items joined.now.labels.items
        joined.now.joins.items }
    ensures { IfOk result (λ leaf. MatchOption leaf
        (AreClear joined.now.labels.items sifted.now)
        (IsRowLeaf joined.now.labels.items joined.now.joins.items sifted.now)) }
{
    if let Some(other) = parted(&joined.labels, &sifted.others) {
        return Ok(Some(same_leaf(alloc, rows, &joined.joins, other)?));
    }
    match null_clash(alloc, &joined.labels, &sifted.nulls, &sifted.firms)? {
        Some(clash) => Ok(Some(null_leaf(alloc, rows, &joined.joins, clash)?)),
        None => Ok(None),
    }
}

/// Numbers that meet all bounds, or the leaf of a ring of them.
fn count_all(
    alloc: Global,
    frame: &Frame,
    joined: &Joined,
    numbering: &Numbering,
    bounds: &[Bound],
) -> Result<Counted, NoMemory>
    requires known { AreKnown (length joined.now.labels.items) numbering.now.cells.items }
    requires count { length numbering.now.cells.items ≤ 32768 }
    requires few { AreFew numbering.now.places.items }
    requires room { AreInRoom numbering.now.places.items bounds.now }
    requires joins { HaveRoom numbering.now.places.items joined.now.joins.items }
    requires columns { HaveColumns frame.now }
    requires ready { IsReady (length numbering.now.cells.items + 1)
        (all_stated frame.now joined.now numbering.now bounds.now) }
    ensures numbers { let vars = length numbering.now.cells.items + 1 in IfOk result (λ c.
        IfNumbers c (AreNumbers vars (all_stated frame.now joined.now numbering.now bounds.now))) }
    ensures leaf { let vars = length numbering.now.cells.items + 1 in IfOk result (λ c.
        IfLeaf c (IsRingLeaf vars numbering.now.cells.items
        (all_stated frame.now joined.now numbering.now bounds.now))) }
{
    let mut stated = bound_edges(alloc, numbering, bounds)?;
    let ranges = range_edges(alloc, frame, &joined.labels, &numbering.cells)?;
    let sames = same_edges(alloc, frame, &joined.joins, numbering)?;
    stated.extend_from_slice(&ranges)?;
    stated.extend_from_slice(&sames)?;
    let vars = numbering.cells.len() as u32 + 1;
    count(alloc, vars, &numbering.cells, &stated)
}

/// An assignment, where rows of one class contradict nothing, or the leaf of a ring or a path.
fn judge_numbers(
    alloc: Global,
    literals: &[Literal],
    frame: &Frame,
    sifted: &Sifted,
    joined: Joined,
) -> Result<Judged, NoMemory>
    requires judged { AreJudged frame.now literals.now }
    requires sifted { AreSifted literals.now sifted.now }
    requires joined { AreJoined (length frame.now.tables) sifted.now.sames.items
        joined.labels.items joined.joins.items }
    requires clear { AreClear joined.labels.items sifted.now }
    ensures holds { IfOk result (λ judged. IfHolds judged (Settles frame.now literals.now)) }
    ensures clash { IfOk result (λ judged. IfClash judged (λ c.
        is_right_leaf frame.now literals.now c.leaf ≡ true)) }
{
    let numbering = number_cells(alloc, &joined.labels, &sifted.firms)?;
    match count_all(alloc, frame, &joined, &numbering, &sifted.bounds)? {
        Counted::Leaf(leaf) => Ok(Judged::Clash(Conflict { leaf })),
        Counted::Numbers(numbers) => {
            judge_texts(alloc, literals, frame, joined, numbering, numbers)
        }
    }
}

/// An assignment with these numbers, or the leaf of a path of texts.
fn judge_texts(
    alloc: Global,
    literals: &[Literal],
    frame: &Frame,
    joined: Joined,
    numbering: Numbering,
    numbers: Items<i128>,
) -> Result<Judged, NoMemory>
    requires judged { AreJudged frame.now literals.now }
    requires counted { IsCounted frame.now literals.now joined numbering numbers }
    ensures holds { IfOk result (λ judged. IfHolds judged (Settles frame.now literals.now)) }
    ensures clash { IfOk result (λ judged. IfClash judged (λ c.
        is_right_leaf frame.now literals.now c.leaf ≡ true)) }
{
    let system = all_texts(alloc, literals, frame, &joined.joins, &numbering)?;
    let vars = numbering.cells.len() as u32;
    match text_classes::classes(alloc, vars, &system.facts)? {
        Classed::Path { last, facts } => Ok(Judged::Clash(Conflict {
            leaf: chain_leaf(alloc, &system, last, facts.as_slice())?,
        })),
        Classed::Labels { labels, texts } => {
            let solution = Solution {
                numbering,
                numbers: numbers.into_vec(),
                labels: labels.into_vec(),
                texts: texts.into_vec(),
            };
            let assignment = assignment(alloc, frame, joined.labels, &solution)?;
            Ok(Judged::Holds(assignment))
        }
    }
}
