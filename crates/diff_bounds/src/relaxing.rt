//! Edges are relaxed in turn until each holds, or until the edges that last lowered the values close
//! a ring.
ghost use Rattle.std.specs.Prelude.{ℕ, ◌<◌, ◌≤◌, ◌+◌, ◌^◌, ◌++◌, ◌≡◌, IfOk, MatchOption};
ghost use Rattle.std.specs.Prelude.{List, All, length, None, replicate};
ghost use Rattle.diff_bounds.specs.declared.system.Edge.{Edge};
ghost use Rattle.diff_bounds.specs.System.{IsAmong, IsModerate, Satisfies, value_in};
ghost use Rattle.diff_bounds.specs.Rings.{IsNegativeRing, IsSimple};
ghost use Rattle.diff_bounds.specs.Answer.{IfValues, IfRing};
ghost use Rattle.diff_bounds.specs.inner.Relaxing.{IsSound, IsAbove, DoneTo, DoneToAll};
ghost use Rattle.diff_bounds.specs.inner.Relaxing.{AreReasons, AllEnd, ComesTo, Closes, IsAnswerRing};
ghost use Rattle.diff_bounds.specs.inner.Relaxing.{IsSettled, IsSettledAfter, mark_of};

use crate::system::{Edge, Solved};
use lint_base::{Items, NoMemory};
use std::alloc::Global;

/// The values so far, and for each variable the edge that last lowered it.
#[derive(Drop)]
struct Search {
    values: Vec<i128>,
    reasons: Vec<Option<u32>>,
}

/// Values for the variables 0 to `vars` - 1 that satisfy every edge, or the edges of a ring: a closed
/// chain whose bounds have a negative sum, and in which no two edges have the same left end.
///
/// `NoMemory` when memory runs out, and in no other case.
pub fn solve(alloc: Global, vars: u32, edges: &[Edge]) -> Result<Solved, NoMemory>
    requires ends { All (IsAmong vars) edges.now }
    requires moderate { All IsModerate edges.now }
    requires variables { vars ≤ 32769 }
    requires few { length edges.now ≤ 2 ^ 20 }
    ensures count { IfOk result (λ s. IfValues s (λ values. length values ≡ vars)) }
    ensures satisfied { IfOk result (λ s.
        IfValues s (λ values. Satisfies (value_in values) edges.now)) }
    ensures cycle { IfOk result (λ s. IfRing s (λ ring. IsNegativeRing edges.now ring)) }
    ensures short { IfOk result (λ s. IfRing s (λ ring. length ring ≤ vars)) }
    ensures simple { IfOk result (λ s. IfRing s (λ ring. IsSimple edges.now ring)) }
{
    let mut search = Search::new(alloc, vars)?;
    while search.relax_all(edges) {
        if let Some(ring) = find_ring(alloc, edges, &search.reasons)? {
            return Ok(Solved::Cycle(Items::from_vec(ring)));
        }
    }
    Ok(Solved::Values(Items::from_vec(search.values)))
}

impl Search {
    /// Every variable starts at 0; no edge has lowered it yet.
    fn new(alloc: Global, vars: u32) -> Result<Search, NoMemory>
        ensures sound { IfOk result (λ search. (edges : List Edge) → IsSound edges vars search) }
        ensures ends { IfOk result (λ search.
            (edges : List Edge) → AllEnd edges search.reasons.items) }
    {
        let mut values = Vec::new(alloc);
        for _ in 0..vars {
            values.push(0)?;
        }
        Ok(Search {
            values,
            reasons: nones(alloc, vars as usize)?,
        })
    }

    /// Relaxes each edge once, and tells whether a value was lowered.
    fn relax_all(&mut self, edges: &[Edge]) -> bool
        requires ends { All (IsAmong (length self.old.values.items)) edges.now }
        requires moderate { All IsModerate edges.now }
        requires few { length edges.now ≤ 2 ^ 20 }
        requires sound { IsSound edges.now (length self.old.values.items) self.old }
        requires above { IsAbove self.old.values.items 32769 }
        ensures sound { IsSound edges.now (length self.old.values.items) self.new }
        ensures done { DoneToAll edges.now self.old self.new result }
    {
        let mut lowered = false;
        for number in 0..edges.len() as u32 {
            if self.relax(edges, number) {
                lowered = true;
            }
        }
        lowered
    }

    /// Lowers the edge's left end if the edge doesn't hold, and tells whether it did.
    fn relax(&mut self, edges: &[Edge], number: u32) -> bool
        requires listed { number < length edges.now }
        requires ends { All (IsAmong (length self.old.values.items)) edges.now }
        requires moderate { All IsModerate edges.now }
        requires few { length edges.now ≤ 2 ^ 20 }
        requires sound { IsSound edges.now (length self.old.values.items) self.old }
        requires above { IsAbove self.old.values.items (32769 + number) }
        ensures sound { IsSound edges.now (length self.old.values.items) self.new }
        ensures above { IsAbove self.new.values.items (32769 + (number + 1)) }
        ensures done { DoneTo edges.now number self.old self.new result }
    {
        let edge = edges[number as usize];
        let asked = self.values[edge.right as usize] + edge.most;
        if self.values[edge.left as usize] <= asked {
            return false;
        }
        self.values[edge.left as usize] = asked;
        self.reasons[edge.left as usize] = Some(number);
        true
    }
}

/// No number in each place.
fn nones(alloc: Global, count: usize) -> Result<Vec<Option<u32>>, NoMemory>
    ensures { IfOk result (λ v. v.items ≡ replicate count None) }
{
    let mut all = Vec::new(alloc);
    for _ in 0..count {
        all.push(None)?;
    }
    Ok(all)
}

/// A ring of edges that are each the reason of their left end, if there is one. It takes time in
/// proportion to the number of variables.
fn find_ring(
    alloc: Global,
    edges: &[Edge],
    reasons: &[Option<u32>],
) -> Result<Option<Vec<u32>>, NoMemory>
    requires ends { All (IsAmong (length reasons.now)) edges.now }
    requires variables { length reasons.now ≤ 32769 }
    requires reasons { AreReasons edges.now reasons.now }
    ensures { let vars = length reasons.now in
        let IsFound = λ (ring : List ℕ). IsAnswerRing edges.now vars ring in
        IfOk result (λ found.
        MatchOption found (AllEnd edges.now reasons.now) (λ c. IsFound c.items)) }
{
    let mut marks = nones(alloc, reasons.len())?;
    for root in 0..reasons.len() as u32 {
        if marks[root as usize].is_some() {
            continue;
        }
        if let Some(number) = mark(edges, reasons, root, &mut marks) {
            let edge = edges[number as usize];
            let mut ring = Vec::new(alloc);
            ring.push(number)?;
            trace(edges, reasons, edge.right, edge.left, &mut ring)?;
            return Ok(Some(ring));
        }
    }
    Ok(None)
}

/// Marks the variables on the chain of reasons from `root` by it, up to one that has a mark. An edge
/// that leads back onto this chain is the answer.
fn mark(
    edges: &[Edge],
    reasons: &[Option<u32>],
    root: u32,
    marks: &mut [Option<u32>],
) -> Option<u32>
    requires ends { All (IsAmong (length reasons.now)) edges.now }
    requires reasons { AreReasons edges.now reasons.now }
    requires root { root < length reasons.now }
    requires count { length marks.old ≡ length reasons.now }
    requires fresh { mark_of marks.old root ≡ None }
    requires settled { IsSettled edges.now reasons.now root marks.old }
    ensures { MatchOption result (IsSettledAfter edges.now reasons.now root marks.new)
        (λ number. Closes edges.now reasons.now number) }
{
    let mut at = root;
    loop {
        marks[at as usize] = Some(root);
        let Some(number) = reasons[at as usize] else {
            return None;
        };
        at = edges[number as usize].right;
        if let Some(other) = marks[at as usize] {
            return if other == root { Some(number) } else { None };
        }
    }
}

/// Adds the chain of reasons that leads from `from` to `to`.
fn trace(
    edges: &[Edge],
    reasons: &[Option<u32>],
    from: u32,
    to: u32,
    chain: &mut Vec<u32>,
) -> Result<(), NoMemory>
    requires ends { All (IsAmong (length reasons.now)) edges.now }
    requires start { from < length reasons.now }
    requires reasons { AreReasons edges.now reasons.now }
    requires comes { (es : List ℕ) × ComesTo edges.now reasons.now to from es }
    ensures { let old = chain.old.items in
        IfOk result (λ _. (es : List ℕ) ×
        (chain.new.items ≡ old ++ es) × ComesTo edges.now reasons.now to from es) }
{
    let mut at = from;
    while let Some(number) = reasons[at as usize] {
        if at == to {
            break;
        }
        chain.push(number)?;
        at = edges[number as usize].right;
    }
    Ok(())
}

#[cfg(test)]
mod tests {
    use super::*;

    fn edge(left: u32, right: u32, most: i128) -> Edge
        ensures { result ≡ record { left = left; right = right; most = most } }
    {
        Edge { left, right, most }
    }

    #[test]
    fn values_where_there_are_some(rt: HostRuntime) {
        // With no edge each variable is 0, however many there are.
        for vars in [0, 1, 3] {
            match solve(rt.alloc(), vars, &[]).expect(&rt, "memory") {
                Solved::Values(values) => {
                    assert_eq!(rt; values.as_slice().len(), vars as usize);
                    assert!(rt; values.as_slice().iter().all(|value| *value == 0));
                }
                Solved::Cycle(_) => assert!(rt; false, "a ring without edges"),
            }
        }
        // Two edges that leave one difference between the variables 0 and 1.
        for (there, back) in [(-1, 1), (3, -3), (0, 0), (-9, 9)] {
            let edges = [edge(1, 0, there), edge(0, 1, back)];
            match solve(rt.alloc(), 2, &edges).expect(&rt, "memory") {
                Solved::Values(values) => {
                    let values = values.as_slice();
                    assert_eq!(rt; values.len(), 2);
                    assert!(rt; values[0].checked_sub(values[1]) == Some(back), "at {back}");
                }
                Solved::Cycle(_) => assert!(rt; false, "a ring at {back}"),
            }
        }
    }

    #[test]
    fn a_ring_where_there_are_none(rt: HostRuntime) {
        for (there, back) in [(-1, 0), (0, -1), (5, -6)] {
            let edges = [edge(1, 0, there), edge(0, 1, back)];
            match solve(rt.alloc(), 2, &edges).expect(&rt, "memory") {
                Solved::Values(_) => assert!(rt; false, "values at {back}"),
                Solved::Cycle(ring) => {
                    let ring = ring.as_slice();
                    assert_eq!(rt; ring.len(), 2);
                    assert!(rt; ring.contains(&0) && ring.contains(&1));
                }
            }
        }
        match solve(rt.alloc(), 1, &[edge(0, 0, -1)]).expect(&rt, "memory") {
            Solved::Values(_) => assert!(rt; false, "values"),
            Solved::Cycle(ring) => assert_eq!(rt; ring.as_slice(), [0].as_slice()),
        }
    }
}
