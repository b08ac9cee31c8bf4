//! The search for the first full case.
ghost use Rattle.std.specs.Prelude.{◌≡◌, ◌≤◌, true, length, IfOk, Some, None};
ghost use Rattle.ground_theory.specs.Judgeable.{is_frame};
ghost use Rattle.case_split.specs.Answers.{IsAnswer};
ghost use Rattle.case_split.specs.Fitting.{are_fit, have_few_ways};
ghost use Rattle.case_split.specs.inner.Entries.{IsReady, IsSpreading};
ghost use Rattle.case_split.specs.inner.Kept.{IsKept};
ghost use Rattle.case_split.specs.inner.Steps.{IsAdvance};

use crate::giving_up::give_up_all;
use crate::state::{Closing, Entry, Spread, State};
use crate::taking::{Settled, settle};
use crate::tree::{Branch, CaseTree, Found};
use crate::trying::is_kept;
use ground_theory::{Assignment, Clause, Frame};
use lint_base::{Items, NoMemory};
use std::alloc::Global;
use std::mem;

/// What the search comes to next.
#[derive(Drop)]
pub(crate) enum Advance {
    Fork(usize),
    Full(Assignment),
    Conflict(CaseTree),
}

/// Judges the literals of all ways taken together where the kept assignment does not satisfy them.
/// A way of the clause is chosen next.
fn judge_before(
    alloc: Global,
    clauses: &[Clause],
    frame: &Frame,
    state: &mut State,
    kept: &mut Option<Assignment>,
    number: usize,
) -> Result<Advance, NoMemory>
    requires frame { is_frame frame.now ≡ true }
    requires fitting { are_fit frame.now clauses.now ≡ true }
    requires count { length clauses.now ≤ 400000 }
    requires spreading { let count = length clauses.now in
        IsSpreading clauses.now frame.now state.old count (Some number) }
    requires kept { IsKept frame.now kept.old }
    ensures kept { IsKept frame.now kept.new }
    ensures advance { IfOk result (λ advance.
        IsAdvance clauses.now frame.now state.new advance) }
{
    if is_kept(kept, clauses, frame, &state.chosen) {
        return Ok(Advance::Fork(number));
    }
    match settle(alloc, clauses, frame, state)? {
        Settled::Clash(tree) => Ok(Advance::Conflict(tree)),
        Settled::Holds(assignment) => {
            *kept = Some(assignment);
            Ok(Advance::Fork(number))
        }
    }
}

/// Judges the literals of a full case, so that its assignment is plain.
fn judge_full(
    alloc: Global,
    clauses: &[Clause],
    frame: &Frame,
    state: &mut State,
) -> Result<Advance, NoMemory>
    requires frame { is_frame frame.now ≡ true }
    requires fitting { are_fit frame.now clauses.now ≡ true }
    requires count { length clauses.now ≤ 400000 }
    requires spreading { IsSpreading clauses.now frame.now state.old (length clauses.now) None }
    ensures { IfOk result (λ advance. IsAdvance clauses.now frame.now state.new advance) }
{
    match settle(alloc, clauses, frame, state)? {
        Settled::Clash(tree) => Ok(Advance::Conflict(tree)),
        Settled::Holds(assignment) => Ok(Advance::Full(assignment)),
    }
}

/// Takes what follows from the ways taken, and tries or judges all literals together.
fn go_on(
    alloc: Global,
    clauses: &[Clause],
    frame: &Frame,
    state: &mut State,
    kept: &mut Option<Assignment>,
    from: usize,
) -> Result<Advance, NoMemory>
    requires frame { is_frame frame.now ≡ true }
    requires fitting { are_fit frame.now clauses.now ≡ true }
    requires count { length clauses.now ≤ 400000 }
    requires ready { IsReady clauses.now frame.now state.old from }
    requires kept { IsKept frame.now kept.old }
    ensures kept { IsKept frame.now kept.new }
    ensures advance { IfOk result (λ advance.
        IsAdvance clauses.now frame.now state.new advance) }
{
    let spread = state.spread(alloc, clauses, frame, from)?;
    match spread {
        Spread::Dead(number) => {
            state.need(clauses[number].guards.as_slice());
            let clause = number as u32;
            let cases = Items::new(alloc);
            Ok(Advance::Conflict(CaseTree::Split { clause, cases }))
        }
        Spread::On(Some(number)) => judge_before(alloc, clauses, frame, state, kept, number),
        Spread::On(None) => judge_full(alloc, clauses, frame, state),
    }
}

/// Gives up the closed trees of the ways before those taken.
fn give_up_entries(alloc: Global, entries: Vec<Entry>) {
    let mut entries = entries;
    while let Some(entry) = entries.pop() {
        give_up_all(alloc, entry.cases);
    }
}

/// What `search` answers. Trees may be left in the state.
fn look_for(
    alloc: Global,
    clauses: &[Clause],
    frame: &Frame,
    budget: u64,
    state: &mut State,
) -> Result<Found, NoMemory>
    requires frame { is_frame frame.now ≡ true }
    requires fitting { are_fit frame.now clauses.now ≡ true }
    requires count { length clauses.now ≤ 400000 }
    requires ways { have_few_ways clauses.now ≡ true }
    requires ready { IsReady clauses.now frame.now state.old 0 }
    requires tried { state.old.tried ≡ 0 }
    ensures { IfOk result (λ found. IsAnswer clauses.now frame.now budget found) }
{
    let mut kept = None;
    let mut from = 0;
    // Each round but the last comes to a split, or takes the next way of one that was come to: so
    // there are at most as many rounds as these splits have ways, all added, and one more.
    for round in 0..u64::MAX {
        match go_on(alloc, clauses, frame, state, &mut kept, from)? {
            Advance::Full(assignment) => {
                let chosen = mem::replace(&mut state.chosen, Vec::new(alloc));
                return Ok(Found::Open(Branch {
                    choices: Items::from_vec(chosen),
                    assignment,
                }));
            }
            Advance::Conflict(tree) => match state.close(alloc, clauses, frame, tree)? {
                Closing::Closed(tree) => return Ok(Found::Closed(tree)),
                Closing::Next(clause) => from = clause + 1,
            },
            Advance::Fork(clause) => {
                state.split(alloc, clauses, frame, clause)?;
                if state.tried > budget {
                    return Ok(Found::Spent { tried: state.tried });
                }
                from = clause + 1;
            }
        }
    }
    // So many rounds are never come to.
    Err(NoMemory)
}

/// The first full case, a closed tree, or the number of splits that were come to where it is above
/// the budget. `NoMemory` where there is no memory for it.
pub fn search(
    alloc: Global,
    clauses: &[Clause],
    frame: &Frame,
    budget: u64,
) -> Result<Found, NoMemory>
    requires frame { is_frame frame.now ≡ true }
    requires fitting { are_fit frame.now clauses.now ≡ true }
    requires count { length clauses.now ≤ 400000 }
    requires ways { have_few_ways clauses.now ≡ true }
    ensures { IfOk result (λ found. IsAnswer clauses.now frame.now budget found) }
{
    let mut state = State::new(alloc, clauses, frame)?;
    let found = look_for(alloc, clauses, frame, budget, &mut state);
    give_up_entries(alloc, state.entries);
    found
}
