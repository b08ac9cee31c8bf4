//! The state of a search: the ways that are taken, and the closed trees of the ways before them.
ghost use Rattle.std.specs.Prelude.{◌≡◌, ◌⊎◌, ◌+◌, ◌<◌, ◌≤◌, ◌^◌, true, false, [], ◌∷◌, ◌++◌};
ghost use Rattle.std.specs.Prelude.{length, take, reverse, slice_get, slice_set, Some, None};
ghost use Rattle.std.specs.Prelude.{IfOk, OnOk};
ghost use Rattle.std.specs.List.{list_all};
ghost use Rattle.ground_theory.specs.declared.literal.Guard.{Guard};
ghost use Rattle.ground_theory.specs.Assignments.{HasAssignment};
ghost use Rattle.case_split.specs.declared.state.Entry.{Entry};
ghost use Rattle.case_split.specs.Choices.{is_chosen, literals_of};
ghost use Rattle.case_split.specs.Fitting.{have_few_ways};
ghost use Rattle.case_split.specs.inner.Entries.{IsSearch, IsReady, IsFork, IsSpreading};
ghost use Rattle.case_split.specs.inner.Entries.{IsRefuted, Refutes, needed_of, entries_of};
ghost use Rattle.case_split.specs.inner.Entries.{mark_all};
ghost use Rattle.case_split.specs.inner.Steps.{IsLook, IsSpread, IsLeft, IsClosing};

use crate::giving_up::{give_up, give_up_all};
use crate::tree::CaseTree;
use ground_theory::{Clause, Frame, Guard};
use lint_base::{Items, NoMemory};
use std::alloc::Global;

/// A clause whose way is taken, and the closed trees of its ways before that one.
#[derive(Drop)]
pub(crate) struct Entry {
    pub(crate) clause: usize,
    pub(crate) way: u32,
    pub(crate) cases: Items<CaseTree>,
}

/// How many splits were come to, the choice of each clause, whether a closed tree needs it, and
/// what is taken, in the order in which it was.
#[derive(Drop)]
pub(crate) struct State {
    pub(crate) tried: u64,
    pub(crate) chosen: Vec<Option<u32>>,
    pub(crate) needed: Vec<bool>,
    pub(crate) entries: Vec<Entry>,
}

/// What a look at a clause comes to: it is reached and has no ways; or the search goes on, with
/// the first clause so far of which a way is to be chosen.
#[derive(Clone, Copy)]
pub(crate) enum Look {
    Dead,
    On(Option<usize>),
}

/// What all that follows from the ways taken comes to: a clause that is reached and has no ways;
/// or the first clause of which a way is to be chosen, if there is one.
#[derive(Clone, Copy)]
pub(crate) enum Spread {
    Dead(usize),
    On(Option<usize>),
}

/// What the closing of a tree comes to: the next way of a clause is taken, or nothing is left.
#[derive(Drop)]
pub(crate) enum Closing {
    Next(usize),
    Closed(CaseTree),
}

/// Whether the guard is among the choices.
fn chooses(chosen: &[Option<u32>], guard: Guard) -> bool
    ensures { result ≡ is_chosen chosen.now guard }
{
    match chosen.get(guard.clause as usize) {
        Some(Some(way)) => guard.way == *way,
        _ => false,
    }
}

/// Whether all guards are among the choices.
fn are_met(chosen: &[Option<u32>], guards: &[Guard]) -> bool
    ensures { result ≡ list_all (is_chosen chosen.now) guards.now }
{
    guards.iter().all(|guard| chooses(chosen, *guard))
}

/// The trees with one more. Without memory all of them are given up.
fn with_case(
    alloc: Global,
    cases: Items<CaseTree>,
    tree: CaseTree,
) -> Result<Items<CaseTree>, NoMemory>
    ensures { IfOk result (λ more. more ≡ cases ++ tree ∷ []) }
{
    let mut cases = cases.into_vec();
    match cases.push(tree) {
        Ok(()) => Ok(Items::from_vec(cases)),
        Err(refused) => {
            give_up(alloc, refused.value);
            give_up_all(alloc, Items::from_vec(cases));
            Err(NoMemory)
        }
    }
}

impl State {
    /// Nothing is taken yet.
    pub(crate) fn new(alloc: Global, clauses: &[Clause], frame: &Frame) -> Result<State, NoMemory>
        ensures tried { IfOk result (λ state. state.tried ≡ 0) }
        ensures ready { IfOk result (λ state. IsReady clauses.now frame.now state 0) }
    {
        Ok(State {
            tried: 0,
            chosen: vec![in alloc; None; clauses.len()]?,
            needed: vec![in alloc; false; clauses.len()]?,
            entries: Vec::new(alloc),
        })
    }

    /// Takes a way of a clause, behind the closed trees of its ways before that one. Without
    /// memory they are given up.
    pub(crate) fn take(
        &mut self,
        alloc: Global,
        clause: usize,
        way: u32,
        cases: Items<CaseTree>,
    ) -> Result<(), NoMemory>
        requires number { clause < length self.old.chosen.items }
        requires mark { clause < length self.old.needed.items }
        ensures tried { self.new.tried ≡ self.old.tried }
        ensures chosen { let chosen = self.old.chosen.items in
            self.new.chosen.items ≡ slice_set chosen clause (Some way) }
        ensures needed { self.new.needed.items ≡ slice_set self.old.needed.items clause false }
        ensures entries { OnOk result (
            let entry : Entry = record { clause = clause; way = way; cases = cases } in
            self.new.entries.items ≡ self.old.entries.items ++ entry ∷ []) }
    {
        self.chosen[clause] = Some(way);
        self.needed[clause] = false;
        match self.entries.push(Entry { clause, way, cases }) {
            Ok(()) => Ok(()),
            Err(refused) => {
                give_up_all(alloc, refused.value.cases);
                Err(NoMemory)
            }
        }
    }

    /// Says that closed trees need the guards.
    pub(crate) fn need(&mut self, guards: &[Guard])
        ensures tried { self.new.tried ≡ self.old.tried }
        ensures chosen { self.new.chosen.items ≡ self.old.chosen.items }
        ensures needed { self.new.needed.items ≡ mark_all self.old.needed.items guards.now }
        ensures entries { self.new.entries.items ≡ self.old.entries.items }
    {
        for guard in guards {
            if let Some(needed) = self.needed.get_mut(guard.clause as usize) {
                *needed = true;
            }
        }
    }

    /// Looks at a clause: takes its one way where it is reached.
    fn look(
        &mut self,
        alloc: Global,
        clauses: &[Clause],
        frame: &Frame,
        number: usize,
        fork: Option<usize>,
    ) -> Result<Look, NoMemory>
        requires number { number < length clauses.now }
        requires spreading { IsSpreading clauses.now frame.now self.old number fork }
        ensures { IfOk result (λ look. IsLook clauses.now frame.now self.new number look) }
    {
        let clause = &clauses[number];
        let taken = self.chosen[number].is_some();
        if taken || !are_met(&self.chosen[..number], clause.guards.as_slice()) {
            return Ok(Look::On(fork));
        }
        match clause.ways.as_slice().len() {
            0 => Ok(Look::Dead),
            1 => {
                self.take(alloc, number, 0, Items::new(alloc))?;
                Ok(Look::On(fork))
            }
            _ => Ok(Look::On(fork.or(Some(number)))),
        }
    }

    /// Takes what follows from the ways taken, from a clause on: the one way of each clause that
    /// is reached.
    pub(crate) fn spread(
        &mut self,
        alloc: Global,
        clauses: &[Clause],
        frame: &Frame,
        from: usize,
    ) -> Result<Spread, NoMemory>
        requires { IsReady clauses.now frame.now self.old from }
        ensures { IfOk result (λ spread. IsSpread clauses.now frame.now self.new spread) }
    {
        let mut fork = None;
        for number in from..clauses.len() {
            match self.look(alloc, clauses, frame, number, fork)? {
                Look::Dead => return Ok(Spread::Dead(number)),
                Look::On(first) => fork = first,
            }
        }
        Ok(Spread::On(fork))
    }

    /// Leaves an entry with a tree that is closed under what it and the earlier ones need. Where
    /// the tree does not need the entry, it stands for the entry's other ways too.
    fn leave(
        &mut self,
        alloc: Global,
        clauses: &[Clause],
        frame: &Frame,
        entry: Entry,
        tree: CaseTree,
    ) -> Result<Closing, NoMemory>
        requires count { length clauses.now ≤ 400000 }
        requires ways { have_few_ways clauses.now ≡ true }
        requires state { IsSearch clauses.now frame.now self.old (entry ∷ entries_of self.old) }
        requires refuted { let needed = needed_of self.old.needed.items (entry ∷ entries_of self.old) in
            Refutes clauses.now frame.now needed tree }
        ensures tried { self.new.tried ≡ self.old.tried }
        ensures left { IfOk result (λ closing.
            IsLeft clauses.now frame.now self.old self.new closing) }
    {
        let Entry { clause, way, cases } = entry;
        self.chosen[clause] = None;
        if !self.needed[clause] {
            give_up_all(alloc, cases);
            return Ok(Closing::Closed(tree));
        }
        let cases = with_case(alloc, cases, tree)?;
        let next = way + 1;
        if (next as usize) < clauses[clause].ways.as_slice().len() {
            self.take(alloc, clause, next, cases)?;
            return Ok(Closing::Next(clause));
        }
        self.need(clauses[clause].guards.as_slice());
        Ok(Closing::Closed(CaseTree::Split {
            clause: clause as u32,
            cases,
        }))
    }

    /// Goes back with a closed tree to the last entry that it needs and that has a way left.
    pub(crate) fn close(
        &mut self,
        alloc: Global,
        clauses: &[Clause],
        frame: &Frame,
        tree: CaseTree,
    ) -> Result<Closing, NoMemory>
        requires count { length clauses.now ≤ 400000 }
        requires ways { have_few_ways clauses.now ≡ true }
        requires refuted { IsRefuted clauses.now frame.now self.old tree }
        ensures tried { self.new.tried ≡ self.old.tried }
        ensures closing { IfOk result (λ closing.
            IsClosing clauses.now frame.now self.new closing) }
    {
        let mut tree = tree;
        while let Some(entry) = self.entries.pop() {
            match self.leave(alloc, clauses, frame, entry, tree)? {
                Closing::Next(clause) => return Ok(Closing::Next(clause)),
                Closing::Closed(above) => tree = above,
            }
        }
        Ok(Closing::Closed(tree))
    }

    /// Comes to a split: takes the first way of the clause.
    pub(crate) fn split(
        &mut self,
        alloc: Global,
        clauses: &[Clause],
        frame: &Frame,
        number: usize,
    ) -> Result<(), NoMemory>
        requires ready { IsReady clauses.now frame.now self.old number }
        requires fork { IsFork clauses.now frame.now self.old number }
        requires satisfied { let literals = literals_of clauses.now self.old.chosen.items in
            HasAssignment frame.now literals }
        ensures tried { OnOk result (self.new.tried ≡ self.old.tried + 1) }
        ensures ready { OnOk result (IsReady clauses.now frame.now self.new (number + 1)) }
    {
        // So many splits are never come to.
        if self.tried == u64::MAX {
            return Err(NoMemory);
        }
        self.tried += 1;
        self.take(alloc, number, 0, Items::new(alloc))?;
        Ok(())
    }
}
