//! The steps of a closed tree.
ghost use Rattle.std.specs.Prelude.{◌≡◌, ◌++◌, ◌∷◌, ◌+◌, [], ℕ, true, length, map, reverse, slice_get, Some, None, IfOk, IfSome, OnOk};
ghost use Rattle.sort_formula.specs.declared.formula.Formula.{out-Formula};
ghost use Rattle.ground_theory.specs.declared.literal.Guard.{Guard};
ghost use Rattle.ground_theory.specs.Moving.{moved};
ghost use Rattle.case_split.specs.Trees.{is_closed};
ghost use Rattle.case_split.specs.declared.tree.CaseTree.TheVariants as variant;
ghost use Rattle.proof_cert.specs.Steps.{AreSteps};
ghost use Rattle.proof_cert.specs.inner.Leaves.{at_number};
ghost use Rattle.proof_cert.specs.inner.Paths.{AreStanding, IsIndexed, fact_at, opened_at, row_at};
ghost use Rattle.proof_cert.specs.inner.Reaching.{IsSource, said_steps};
ghost use Rattle.proof_cert.specs.inner.Writing.{IsClosedOn, IsPassed, Written, facts_in, opening_steps, rows_in, waits, waits_of};

use crate::moving::Renaming;
use crate::path::{Opened, Path};
use crate::reaching::{Reached, Said, Source, reach, sum};
use case_split::CaseTree;
use ground_theory::{Conflict, Guard};
use instantiate::Problem;
use lint_base::{Items, NoMemory};
use lint_core::Step;
use sort_formula::Formula;
use std::alloc::Global;

/// A tree that waits for its branch: how many splits are above it, and the one that leads to it;
/// how many facts and rows the branch has.
#[derive(Clone, Copy)]
pub(crate) struct Waiting<'a> {
    pub(crate) tree: &'a CaseTree,
    pub(crate) above: usize,
    pub(crate) opened: Option<Opened<'a>>,
    pub(crate) facts: u32,
    pub(crate) rows: u32,
}

/// How many facts and rows come by a split.
#[derive(Clone, Copy)]
struct Growth {
    facts: usize,
    rows: usize,
}

fn growth_of(formula: &Formula) -> Growth
    ensures facts { result.facts ≡ facts_in (out-Formula formula.now) }
    ensures rows { result.rows ≡ rows_in (out-Formula formula.now) }
{
    match formula {
        Formula::And(parts) => Growth {
            facts: parts.as_slice().len(),
            rows: 0,
        },
        Formula::Or(_) => Growth { facts: 1, rows: 0 },
        Formula::Exists { .. } => Growth { facts: 1, rows: 1 },
        Formula::Atom(_) | Formula::Forall { .. } => Growth { facts: 0, rows: 0 },
    }
}

/// Writes the step that opens a fact of this formula, if it takes one.
fn open(formula: &Formula, fact: u32, steps: &mut Items<Step>) -> Result<(), NoMemory>
    ensures { OnOk result (steps.new
        ≡ steps.old ++ opening_steps fact (out-Formula formula.now)) }
{
    match formula {
        Formula::And(_) => steps.push(Step::And { fact }),
        Formula::Or(_) => steps.push(Step::Or { fact }),
        Formula::Exists { .. } => steps.push(Step::Ex { fact }),
        Formula::Atom(_) | Formula::Forall { .. } => Ok(()),
    }
}

/// Writes that a Forall is said of a row, if it is.
fn say(said: Option<Said>, steps: &mut Items<Step>) -> Result<(), NoMemory>
    ensures { OnOk result (steps.new ≡ steps.old ++ said_steps said) }
{
    match said {
        Some(said) => steps.push(Step::All {
            fact: said.fact,
            row: said.row,
        }),
        None => Ok(()),
    }
}

/// Has the tree of each way of a split wait, the first one next.
fn wait_for<'a>(
    cases: &'a [CaseTree],
    above: usize,
    opened: Opened<'a>,
    facts: u32,
    rows: u32,
    waiting: &mut Vec<Waiting<'a>>,
) -> Result<(), NoMemory>
    ensures { OnOk result (waits_of waiting.new.items ≡ waits_of waiting.old.items
        ++ reverse (waits above opened.entry facts rows 0 cases.now)) }
{
    let mut way = cases.len();
    for case in cases.iter().rev() {
        way -= 1;
        waiting.push(Waiting {
            tree: case,
            above,
            opened: Some(Opened { way, ..opened }),
            facts,
            rows,
        })?;
    }
    Ok(())
}

/// The facts of the clauses of the guards.
fn facts_of(alloc: Global, path: &Path, guards: &[Guard]) -> Result<Items<u32>, NoMemory>
    requires { IsIndexed path.now }
    ensures { IfOk result (λ facts. facts
        ≡ map (λ g. fact_at path.now.splits.items g.clause) guards.now) }
{
    let mut facts = Items::new(alloc);
    for guard in guards {
        facts.push(path.fact_of(guard.clause))?;
    }
    Ok(facts)
}

/// The row of each row term, by the clause of its Exists.
fn rows_of(alloc: Global, path: &Path, makers: &[u32]) -> Result<Items<u32>, NoMemory>
    requires { IsIndexed path.now }
    ensures { IfOk result (λ rows. rows ≡ map (row_at path.now.splits.items) makers.now) }
{
    let mut rows = Items::new(alloc);
    for maker in makers {
        rows.push(path.row_of(*maker))?;
    }
    Ok(rows)
}

/// Writes the step that closes the branch of a leaf.
fn write_leaf<'a>(
    alloc: Global,
    source: &Source<'a>,
    path: &Path<'a>,
    conflict: &Conflict,
    chosen: &[Guard],
    steps: &mut Items<Step>,
) -> Result<(), NoMemory>
    requires { IsIndexed path.now }
    ensures { let way = path.now.splits.items in
        let facts = map (λ (g : Guard). fact_at way g.clause) chosen.now in
        let rows = map (row_at way) source.now.makers in
        OnOk result (steps.new ≡ steps.old
        ++ moved (at_number facts) (at_number rows) conflict.now.leaf ∷ []) }
{
    let renaming = Renaming {
        facts: facts_of(alloc, path, chosen)?,
        rows: rows_of(alloc, path, source.makers.as_slice())?,
    };
    steps.push(renaming.moved(alloc, &conflict.leaf)?)
}

/// Goes on with the tree of the way that was taken of a clause.
fn go_on<'a>(
    at: &Waiting<'a>,
    above: usize,
    way: usize,
    cases: &'a [CaseTree],
    waiting: &mut Vec<Waiting<'a>>,
) -> Result<(), NoMemory>
    ensures { OnOk result (IsPassed at.now above way cases.now waiting.old.items waiting.new.items) }
{
    let Some(tree) = cases.get(way) else {
        return Err(NoMemory);
    };
    waiting.push(Waiting {
        tree,
        above,
        opened: None,
        facts: at.facts,
        rows: at.rows,
    })?;
    Ok(())
}

/// How many facts come by what is to be said first.
fn count_of(said: Option<Said>) -> usize
    ensures { result ≡ length (said_steps said) }
{
    match said {
        Some(_) => 1,
        None => 0,
    }
}

/// The split of a clause by its first way, where this is reached.
fn opened_by<'a>(clause: u32, reached: &Reached<'a>, facts: u32, rows: u32) -> Option<Opened<'a>>
    ensures { IfSome result (λ o. o ≡ record {
      clause = clause;
      way = 0;
      formula = reached.now.formula;
      fact = reached.now.fact;
      first = facts + length (said_steps reached.now.said);
      row = rows;
    }) }
{
    Some(Opened {
        clause,
        way: 0,
        formula: reached.formula,
        fact: reached.fact,
        first: sum(facts, count_of(reached.said))?,
        row: rows,
    })
}

/// Has the trees of a split wait, where there are numbers for the facts and rows of its branches.
fn wait_for_all<'a>(
    cases: &'a [CaseTree],
    above: usize,
    opened: Opened<'a>,
    waiting: &mut Vec<Waiting<'a>>,
) -> Result<(), NoMemory>
    ensures { let o = opened.entry in let layer = out-Formula o.formula.now in
        OnOk result (waits_of waiting.new.items ≡ waits_of waiting.old.items
        ++ reverse (waits above o (o.first + facts_in layer) (o.row + rows_in layer) 0 cases.now)) }
{
    let growth = growth_of(opened.formula);
    let Some(facts) = sum(opened.first, growth.facts) else {
        return Err(NoMemory);
    };
    let Some(rows) = sum(opened.row, growth.rows) else {
        return Err(NoMemory);
    };
    wait_for(cases, above, opened, facts, rows, waiting)
}

/// Writes the split of a clause that is not split on the way.
fn write_split<'a>(
    source: &Source<'a>,
    path: &Path<'a>,
    at: &Waiting<'a>,
    clause: u32,
    cases: &'a [CaseTree],
    steps: &mut Items<Step>,
    waiting: &mut Vec<Waiting<'a>>,
) -> Result<(), NoMemory>
    requires source { IsSource source.now }
    requires indexed { IsIndexed path.now }
    requires standing { AreStanding source.now.problem.now path.now.splits.items }
    requires closed { IsClosedOn source.now.problem.now path.now.splits.items
        (variant.Split clause cases.now) }
    requires other { opened_at path.now.splits.items clause ≡ None }
    ensures { OnOk result (Written source.now.problem.now source.now.makers path.now.splits.items
        at.now.facts at.now.rows (variant.Split clause cases.now) steps.old steps.new
        waiting.old.items waiting.new.items) }
{
    let Some(reached) = reach(source, path, at.facts, clause) else {
        return Err(NoMemory);
    };
    let Some(opened) = opened_by(clause, &reached, at.facts, at.rows) else {
        return Err(NoMemory);
    };
    say(reached.said, steps)?;
    open(reached.formula, reached.fact, steps)?;
    wait_for_all(cases, path.splits.len(), opened, waiting)
}

/// Writes the steps of a tree down to the trees of its ways, and has these wait.
fn write_tree<'a>(
    alloc: Global,
    source: &Source<'a>,
    path: &Path<'a>,
    at: &Waiting<'a>,
    steps: &mut Items<Step>,
    waiting: &mut Vec<Waiting<'a>>,
) -> Result<(), NoMemory>
    requires source { IsSource source.now }
    requires indexed { IsIndexed path.now }
    requires standing { AreStanding source.now.problem.now path.now.splits.items }
    requires closed { IsClosedOn source.now.problem.now path.now.splits.items at.now.tree.now }
    ensures { OnOk result (Written source.now.problem.now source.now.makers path.now.splits.items
        at.now.facts at.now.rows at.now.tree.now steps.old steps.new
        waiting.old.items waiting.new.items) }
{
    match at.tree {
        CaseTree::Leaf { conflict, chosen } => {
            write_leaf(alloc, source, path, conflict, chosen.as_slice(), steps)
        }
        CaseTree::Split { clause, cases } => match path.find(*clause) {
            Some(made) => go_on(at, path.splits.len(), made.way, cases.as_slice(), waiting),
            None => write_split(source, path, at, *clause, cases.as_slice(), steps, waiting),
        },
    }
}

/// How many facts there are at the start.
fn first_facts(problem: &Problem) -> u32
    ensures { (count : ℕ) → slice_get problem.now.numbers (length problem.now.sentences)
        ≡ Some count → result ≡ count }
{
    let sentences = problem.sentences.as_slice().len();
    problem
        .numbers
        .as_slice()
        .get(sentences)
        .copied()
        .unwrap_or(0)
}

/// The steps of a tree that is closed under no choice.
pub(crate) fn steps_of<'a>(
    alloc: Global,
    source: &Source<'a>,
    tree: &'a CaseTree,
) -> Result<Items<Step>, NoMemory>
    requires source { IsSource source.now }
    requires closed { is_closed source.now.problem.now.clauses source.now.problem.now.frame
        tree.now [] ≡ true }
    ensures { IfOk result (λ steps. AreSteps source.now.problem.now steps) }
{
    let problem = source.problem;
    let mut path = Path::new(alloc, problem.clauses.as_slice().len())?;
    let mut steps = Items::new(alloc);
    let mut waiting = Vec::new(alloc);
    waiting.push(Waiting {
        tree,
        above: 0,
        opened: None,
        facts: first_facts(problem),
        rows: 0,
    })?;
    while let Some(next) = waiting.pop() {
        path.go_to(next.above, next.opened)?;
        write_tree(alloc, source, &path, &next, &mut steps, &mut waiting)?;
    }
    Ok(steps)
}
