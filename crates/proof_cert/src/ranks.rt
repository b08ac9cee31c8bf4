//! The place of each clause among those that hang at one clause, or at none.
ghost use Rattle.std.specs.Prelude.{◌≡◌, ◌+◌, ◌<◌, ◌≤◌, ℕ, length, slice_get, slice_set, unwrap_or, IfOk};
ghost use Rattle.proof_cert.specs.inner.Ranks.{AreRanks, IsCounted, slot_of};

use ground_theory::{Clause, Guard};
use lint_base::NoMemory;
use std::alloc::Global;

/// 0 without guards; behind one guard the number of its clause, counted from 1.
fn slot_of(guards: &[Guard]) -> Option<usize>
    ensures { result ≡ slot_of guards.now }
{
    match guards {
        [] => Some(0),
        [above] => Some(above.clause as usize + 1),
        _ => None,
    }
}

/// Counts one more in the slot: how many there were.
fn count(counts: &mut Vec<u32>, slot: usize) -> u32
    requires { unwrap_or (slice_get counts.old.items slot) 0 < 400000 }
    ensures before { result ≡ unwrap_or (slice_get counts.old.items slot) 0 }
    ensures counted { counts.new.items ≡ slice_set counts.old.items slot (result + 1) }
{
    if slot < counts.len() {
        let before = counts[slot];
        counts[slot] = before + 1;
        before
    } else {
        0
    }
}

/// How many clauses before this one are in its slot, 0 where it is in none.
fn rank(counts: &mut Vec<u32>, guards: &[Guard]) -> u32
    requires { (slot : ℕ) → unwrap_or (slice_get counts.old.items slot) 0 < 400000 }
    ensures { IsCounted (slot_of guards.now) counts.old.items counts.new.items result }
{
    match slot_of(guards) {
        Some(slot) => count(counts, slot),
        None => 0,
    }
}

/// The rank of each clause.
pub(crate) fn ranks_of(alloc: Global, clauses: &[Clause]) -> Result<Vec<u32>, NoMemory>
    requires { length clauses.now ≤ 400000 }
    ensures { IfOk result (λ ranks. AreRanks clauses.now ranks.items) }
{
    let mut counts = vec![in alloc; 0; clauses.len() + 1]?;
    let mut ranks = Vec::new(alloc);
    for clause in clauses {
        let rank = rank(&mut counts, clause.guards.as_slice());
        ranks.push(rank)?;
    }
    Ok(ranks)
}
