//! The open branches, as two lists that grow and are cut back.
ghost use Rattle.std.specs.Prelude.{◌≡◌, ◌^◌, true, false, Some, None, [], ◌∷◌, ◌++◌, IfOk, OnOk, if◌then◌else◌, map, reverse};
ghost use Rattle.std.specs.List.{list_all};
ghost use Rattle.sort_formula.specs.Bounds.{is_within};
ghost use Rattle.sort_formula.specs.Certificate.{opened, with_each_part, are_closed};
ghost use Rattle.cert_checker.specs.inner.Seen.{branch_of};
ghost use Rattle.cert_checker.specs.inner.Branches.{IsRun, branches_of, waiting_branches, waits, stepped, advanced};

use crate::facts::{Open, Stated};
use lint_base::NoMemory;
use lint_core::{Step, Table};
use sort_formula::Formula;
use std::alloc::Global;

/// A branch that waits: how long the lists were when it came, and its own fact.
#[derive(Drop)]
pub(crate) struct Waiting<'a> {
    facts: usize,
    rows: usize,
    own: Stated<'a>,
}

/// The open branches: the one in hand, and those that wait, the next one last. No branch is open
/// once it is closed.
#[derive(Drop)]
pub(crate) struct Run<'a> {
    branch: Open<'a>,
    waiting: Vec<Waiting<'a>>,
    is_closed: bool,
}

impl<'a> Run<'a> {
    /// One branch with these facts and no row.
    pub(crate) fn new(alloc: Global, facts: Vec<Stated<'a>>) -> Run<'a>
        ensures run { IsRun result }
        ensures branch { branches_of result ≡ record { facts = facts.entry.items; tables = [] } ∷ [] }
    {
        Run {
            branch: Open {
                facts,
                tables: Vec::new(alloc),
            },
            waiting: Vec::new(alloc),
            is_closed: false,
        }
    }

    /// Whether no branch is open.
    pub(crate) fn is_closed(&self) -> bool
        ensures { result ≡ are_closed (branches_of self.now) }
    {
        self.is_closed
    }

    /// Takes the next of the branches that wait in place of the one in hand.
    fn take_next(&mut self) -> Result<(), NoMemory>
        requires run { IsRun self.old }
        requires going { self.old.is_closed ≡ false }
        ensures run { OnOk result (IsRun self.new) }
        ensures rest { OnOk result (branches_of self.new
            ≡ waiting_branches (branch_of self.old.branch) self.old.waiting.items) }
    {
        match self.waiting.pop() {
            Some(next) => {
                self.branch.facts.truncate(next.facts);
                self.branch.facts.push(next.own)?;
                self.branch.tables.truncate(next.rows);
            }
            None => self.is_closed = true,
        }
        Ok(())
    }

    fn close_if(&mut self, right: bool) -> Result<bool, NoMemory>
        requires run { IsRun self.old }
        requires going { self.old.is_closed ≡ false }
        ensures right { IfOk result (λ answer. answer ≡ right) }
        ensures run { OnOk result (IsRun self.new) }
        ensures closed { OnOk result (right ≡ true → branches_of self.new
            ≡ waiting_branches (branch_of self.old.branch) self.old.waiting.items) }
    {
        if right {
            self.take_next()?;
        }
        Ok(right)
    }

    /// Has a branch wait for each part of a fact, the first one next.
    fn wait_for(
        &mut self,
        alloc: Global,
        whole: &Stated<'a>,
        parts: &'a [Formula],
    ) -> Result<(), NoMemory>
        requires { list_all (is_within (2 ^ 66)) parts.now ≡ true }
        ensures branch { self.new.branch ≡ self.old.branch }
        ensures going { self.new.is_closed ≡ self.old.is_closed }
        ensures waiting { OnOk result (self.new.waiting.items ≡ self.old.waiting.items
            ++ reverse (map (waits (branch_of self.old.branch) whole.now.rows) parts.now)) }
    {
        for part in parts.iter().rev() {
            self.waiting.push(Waiting {
                facts: self.branch.facts.len(),
                rows: self.branch.tables.len(),
                own: whole.part(alloc, part)?,
            })?;
        }
        Ok(())
    }

    /// Puts a branch for each part of a disjunction in the place of the one in hand.
    fn split(&mut self, alloc: Global, fact: u32) -> Result<bool, NoMemory>
        requires run { IsRun self.old }
        requires going { self.old.is_closed ≡ false }
        ensures run { OnOk result (IsRun self.new) }
        ensures stepped { IfOk result (λ right.
            stepped (opened (branch_of self.old.branch) fact with_each_part)
            (waiting_branches (branch_of self.old.branch) self.old.waiting.items)
            ≡ (if right then Some (branches_of self.new) else None)) }
    {
        let Some(whole) = self.branch.fact(alloc, fact)? else {
            return Ok(false);
        };
        let Formula::Or(parts) = whole.formula() else {
            return Ok(false);
        };
        self.wait_for(alloc, &whole, parts.as_slice())?;
        self.take_next()?;
        Ok(true)
    }

    /// Takes a step at the first open branch; no where it is not right, or no branch is open.
    pub(crate) fn step(
        &mut self,
        alloc: Global,
        tables: &[Table],
        step: &Step,
    ) -> Result<bool, NoMemory>
        requires { IsRun self.old }
        ensures run { OnOk result (IsRun self.new) }
        ensures stepped { IfOk result (λ right.
            advanced tables.now step.now (branches_of self.old)
            ≡ (if right then Some (branches_of self.new) else None)) }
    {
        if self.is_closed {
            return Ok(false); // (the step is left over)
        }
        match step {
            Step::And { fact } => self.branch.take_apart(alloc, *fact),
            Step::Or { fact } => self.split(alloc, *fact),
            Step::Ex { fact } => self.branch.take_row(alloc, *fact),
            Step::All { fact, row } => self.branch.say_of_row(alloc, *fact, *row),
            Step::Sum { .. } | Step::Text { .. } | Step::Null { .. } | Step::Same { .. } => {
                let right = self.branch.is_closed_by(tables, step);
                self.close_if(right)
            }
        }
    }
}
