//! The literals of choices, and what `judge` says of them.
ghost use Rattle.std.specs.Prelude.{◌≡◌, ◌<◌, ◌≤◌, true, length, IfOk, OnOk};
ghost use Rattle.ground_theory.specs.Judgeable.{is_frame};
ghost use Rattle.case_split.specs.Fitting.{are_fit};
ghost use Rattle.case_split.specs.inner.Entries.{IsSearch, entries_of};
ghost use Rattle.case_split.specs.inner.Steps.{IsTaken, IsCited, IsSettled, IsPart, AddsLiteral};

use crate::state::State;
use crate::tree::CaseTree;
use ground_theory::{Assignment, Clause, Conflict, Frame, Guard, Judged, Literal, judge};
use lint_base::{Items, NoMemory};
use lint_core::{SameEdge, Step, SumEdge, TextEdge};
use std::alloc::Global;

/// The literals of choices, and the guard of each.
#[derive(Drop)]
pub(crate) struct Taken {
    literals: Vec<Literal>,
    guards: Items<Guard>,
}

/// A conflict over the literals of guards.
#[derive(Drop)]
pub(crate) struct Cited {
    conflict: Conflict,
    guards: Items<Guard>,
}

/// What the literals of the ways taken come to: an assignment, or a closed tree.
#[derive(Drop)]
pub(crate) enum Settled {
    Holds(Assignment),
    Clash(CaseTree),
}

/// The literals of choices, in the order of the clauses.
fn take_literals(
    alloc: Global,
    clauses: &[Clause],
    frame: &Frame,
    chosen: &[Option<u32>],
) -> Result<Taken, NoMemory>
    requires count { length clauses.now ≤ 400000 }
    requires length { length chosen.now ≡ length clauses.now }
    ensures { IfOk result (λ taken. IsTaken clauses.now frame.now chosen.now taken) }
{
    let mut taken = Taken {
        literals: Vec::new(alloc),
        guards: Items::new(alloc),
    };
    for number in 0..clauses.len() {
        match chosen[number] {
            Some(way) => taken.take(alloc, clauses, frame, number, way)?,
            None => {}
        }
    }
    Ok(taken)
}

impl Taken {
    /// Adds the literal of a way, if it has one.
    fn take(
        &mut self,
        alloc: Global,
        clauses: &[Clause],
        frame: &Frame,
        number: usize,
        way: u32,
    ) -> Result<(), NoMemory>
        requires count { length clauses.now ≤ 400000 }
        requires number { number < length clauses.now }
        ensures { OnOk result (AddsLiteral clauses.now frame.now self.old self.new number way) }
    {
        let ways = clauses[number].ways.as_slice();
        let place = way as usize;
        if place >= ways.len() {
            return Ok(());
        }
        match &ways[place] {
            None => Ok(()),
            Some(literal) => {
                let atom = literal.atom.copy(alloc)?;
                self.literals.push(Literal { atom })?;
                let clause = number as u32;
                self.guards.push(Guard { clause, way })?;
                Ok(())
            }
        }
    }
}

/// A smaller conflict: over the literals alone that the conflict cites, if they too are not
/// satisfiable together.
fn narrow(
    alloc: Global,
    clauses: &[Clause],
    frame: &Frame,
    chosen: &[Option<u32>],
    whole: Cited,
) -> Result<Cited, NoMemory>
    requires frame { is_frame frame.now ≡ true }
    requires fitting { are_fit frame.now clauses.now ≡ true }
    requires count { length clauses.now ≤ 400000 }
    requires length { length chosen.now ≡ length clauses.now }
    requires whole { IsCited clauses.now frame.now chosen.now whole }
    ensures { IfOk result (λ cited. IsCited clauses.now frame.now chosen.now cited) }
{
    let facts = cited_facts(alloc, &whole.conflict.leaf, whole.guards.as_slice().len())?;
    let part = choices_at(alloc, chosen, whole.guards.as_slice(), &facts)?;
    let taken = take_literals(alloc, clauses, frame, &part)?;
    match judge(alloc, &taken.literals, frame)? {
        Judged::Holds(_) => Ok(whole),
        Judged::Clash(conflict) => Ok(Cited {
            conflict,
            guards: taken.guards,
        }),
    }
}

/// The choices at the guards whose facts are cited.
fn choices_at(
    alloc: Global,
    chosen: &[Option<u32>],
    guards: &[Guard],
    cited: &[bool],
) -> Result<Vec<Option<u32>>, NoMemory>
    ensures length { IfOk result (λ part. length part.items ≡ length chosen.now) }
    ensures part { IfOk result (λ part. IsPart part.items chosen.now) }
{
    let mut part = vec![in alloc; None; chosen.len()]?;
    for (fact, guard) in guards.iter().enumerate() {
        let number = guard.clause as usize;
        if number < chosen.len() && cited.get(fact).copied() == Some(true) {
            part[number] = chosen[number];
        }
    }
    Ok(part)
}

/// Which of so many facts a closing step cites.
fn cited_facts(alloc: Global, step: &Step, count: usize) -> Result<Vec<bool>, NoMemory> {
    let mut cited = vec![in alloc; false; count]?;
    match step {
        Step::Sum { edges } => cite_sum(&mut cited, edges.as_slice()),
        Step::Text { last, edges } => {
            if let Some(fact) = last {
                cite(&mut cited, *fact);
            }
            cite_text(&mut cited, edges.as_slice());
        }
        Step::Null { fact, other, path } => {
            cite(&mut cited, *fact);
            cite(&mut cited, *other);
            cite_path(&mut cited, path.as_slice());
        }
        Step::Same { fact, path } => {
            cite(&mut cited, *fact);
            cite_path(&mut cited, path.as_slice());
        }
        _ => {}
    }
    Ok(cited)
}

fn cite(cited: &mut [bool], fact: u32) {
    if let Some(is_cited) = cited.get_mut(fact as usize) {
        *is_cited = true;
    }
}

fn cite_sum(cited: &mut [bool], edges: &[SumEdge]) {
    for edge in edges {
        match edge {
            SumEdge::Fact(fact) => cite(cited, *fact),
            SumEdge::Same { fact, .. } => cite(cited, *fact),
            SumEdge::Back { fact, .. } => cite(cited, *fact),
            _ => {}
        }
    }
}

fn cite_text(cited: &mut [bool], edges: &[TextEdge]) {
    for edge in edges {
        match edge {
            TextEdge::Fact(fact) => cite(cited, *fact),
            TextEdge::FactBack(fact) => cite(cited, *fact),
            TextEdge::Same { fact, .. } => cite(cited, *fact),
            TextEdge::Back { fact, .. } => cite(cited, *fact),
        }
    }
}

fn cite_path(cited: &mut [bool], path: &[SameEdge]) {
    for edge in path {
        cite(cited, edge.fact);
    }
}

/// What the literals of all ways taken come to.
pub(crate) fn settle(
    alloc: Global,
    clauses: &[Clause],
    frame: &Frame,
    state: &mut State,
) -> Result<Settled, NoMemory>
    requires frame { is_frame frame.now ≡ true }
    requires fitting { are_fit frame.now clauses.now ≡ true }
    requires count { length clauses.now ≤ 400000 }
    requires state { IsSearch clauses.now frame.now state.old (entries_of state.old) }
    ensures tried { state.new.tried ≡ state.old.tried }
    ensures settled { IfOk result (λ settled.
        IsSettled clauses.now frame.now state.old state.new settled) }
{
    let taken = take_literals(alloc, clauses, frame, &state.chosen)?;
    match judge(alloc, &taken.literals, frame)? {
        Judged::Holds(assignment) => Ok(Settled::Holds(assignment)),
        Judged::Clash(conflict) => {
            let whole = Cited {
                conflict,
                guards: taken.guards,
            };
            let cited = narrow(alloc, clauses, frame, &state.chosen, whole)?;
            state.need(cited.guards.as_slice());
            Ok(Settled::Clash(CaseTree::Leaf {
                conflict: cited.conflict,
                chosen: cited.guards,
            }))
        }
    }
}
