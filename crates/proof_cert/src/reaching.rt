//! The formula that stands at a clause, and the fact of the branch that says it.
ghost use Rattle.std.specs.Prelude.{◌≡◌, ◌+◌, Some, IfSome, MatchOption};
ghost use Rattle.sort_formula.specs.declared.formula.Formula.{out-Formula};
ghost use Rattle.instantiate.specs.Hanging.{guards_at};
ghost use Rattle.proof_cert.specs.inner.Paths.{AreStanding, Covers, IsIndexed};
ghost use Rattle.proof_cert.specs.inner.Reaching.{IsAtRow, IsPartOf, IsReached, IsRootOf, IsSource};

use crate::path::{Opened, Path};
use instantiate::Problem;
use lint_base::Items;
use sort_formula::Formula;

/// A problem, the rank of each clause, and the clause of the Exists that asks for each row term.
#[derive(Drop)]
pub(crate) struct Source<'a> {
    pub(crate) problem: &'a Problem,
    pub(crate) ranks: Vec<u32>,
    pub(crate) makers: Items<u32>,
}

/// A Forall is said of a row: the Forall's fact, and the row.
#[derive(Clone, Copy)]
pub(crate) struct Said {
    pub(crate) fact: u32,
    pub(crate) row: u32,
}

/// What stands at a clause, the fact that says it, and what is to be said first so that it does.
#[derive(Clone, Copy)]
pub(crate) struct Reached<'a> {
    pub(crate) formula: &'a Formula,
    pub(crate) fact: u32,
    pub(crate) said: Option<Said>,
}

/// The sum, if it is below 2^32.
pub(crate) fn sum(number: u32, more: usize) -> Option<u32>
    ensures { IfSome result (λ sum. sum ≡ number + more) }
{
    number.checked_add(u32::try_from(more).ok()?)
}

/// At a clause without guards stands a sentence.
fn of_root<'a>(problem: &'a Problem, sentence: u32) -> Option<Reached<'a>>
    ensures { IfSome result (IsRootOf problem.now sentence) }
{
    let formula = problem
        .sentences
        .as_slice()
        .get(sentence as usize)?
        .formula();
    let fact = *problem.numbers.as_slice().get(sentence as usize)?;
    Some(Reached {
        formula,
        fact,
        said: None,
    })
}

/// The part of an And of this number; the part of an Or whose way was taken; what is inside an
/// Exists.
fn of_part<'a>(above: Opened<'a>, number: u32) -> Option<Reached<'a>>
    ensures { IfSome result (λ r. IsPartOf above.entry number r (out-Formula above.entry.formula.now)) }
{
    match above.formula {
        Formula::And(parts) => Some(Reached {
            formula: parts.as_slice().get(number as usize)?,
            fact: sum(above.first, number as usize)?,
            said: None,
        }),
        Formula::Or(parts) => Some(Reached {
            formula: parts.as_slice().get(above.way)?,
            fact: above.first,
            said: None,
        }),
        Formula::Exists { body, .. } => Some(Reached {
            formula: body.get(),
            fact: above.first,
            said: None,
        }),
        Formula::Atom(_) | Formula::Forall { .. } => None,
    }
}

/// What is inside a Forall, at the row of an Exists. It will be the next fact.
fn at_row<'a>(above: Opened<'a>, maker: Opened<'a>, facts: u32) -> Option<Reached<'a>>
    ensures { IfSome result (λ r. IsAtRow above.entry maker.entry facts r
        (out-Formula above.entry.formula.now)) }
{
    let Formula::Forall { body, .. } = above.formula else {
        return None;
    };
    let said = Some(Said {
        fact: above.fact,
        row: maker.row,
    });
    Some(Reached {
        formula: body.get(),
        fact: facts,
        said,
    })
}

/// What stands at a clause whose guards are on the way, in a branch with so many facts.
pub(crate) fn reach<'a>(
    source: &Source<'a>,
    path: &Path<'a>,
    facts: u32,
    clause: u32,
) -> Option<Reached<'a>>
    requires source { IsSource source.now }
    requires indexed { IsIndexed path.now }
    requires standing { AreStanding source.now.problem.now path.now.splits.items }
    requires covers { let problem = source.now.problem.now in
        Covers path.now.splits.items (guards_at problem clause) }
    ensures { IfSome result (IsReached source.now.problem.now source.now.makers
        path.now.splits.items facts clause) }
{
    let rank = *source.ranks.get(clause as usize)?;
    let problem = source.problem;
    let clauses = problem.clauses.as_slice();
    match clauses.get(clause as usize)?.guards.as_slice() {
        [] => of_root(problem, rank),
        [above] => of_part(path.find(above.clause)?, rank),
        [above, maker] => at_row(path.find(above.clause)?, path.find(maker.clause)?, facts),
        _ => None,
    }
}
