//! A sentence in place of a question.
ghost use Rattle.std.specs.Prelude.{◌≡◌, ◌<◌, ◌^◌, ◌∷◌, [], ℕ, true, length, map, IfOk};
ghost use Rattle.std.specs.List.{list_all};
ghost use Rattle.lint_core.specs.declared.certificate.Step.{Step as SomeStep};
ghost use Rattle.sort_formula.specs.declared.formula.Formula.TheVariants as f;
ghost use Rattle.sort_formula.specs.Sentences.{formula_fits};
ghost use Rattle.case_split.specs.Answers.{IsFirst};
ghost use Rattle.case_split.specs.Trees.{is_closed};
ghost use Rattle.lint_engine.specs.Settled.{IsNever, IsSettled, judged};
ghost use Rattle.lint_engine.specs.inner.Parts.{first_way};
ghost use Rattle.lint_engine.specs.inner.Problems.{IsReady};

use crate::asking::searched;
use crate::parts::{either, rows_of};
use crate::problem::{Stop, problem_of};
use crate::sentences::push_axioms;
use case_split::{Branch, CaseTree, Found, give_up};
use ground_laws::problems_can_be_searched;
use instantiate::Problem;
use lint_base::{Items, NoMemory};
use lint_core::{Database, Schema, Step, Value};
use proof_cert::from_tree;
use sort_formula::Sentence;
use std::alloc::Global;
use truth_laws::accepted_sentence_fails;
use witness_db::{Placed, chosen_part_holds, rows_placed};

/// The answer to the question whether some part of an Or of sentences can hold.
#[derive(Drop)]
pub enum Settled {
    /// In no database that meets the schema: these steps refute the Or.
    Never(Items<Step>),
    /// The part of this number, from 0, holds in this database, which meets the schema: what stands
    /// inside the Exists that lead it holds at these rows, one place for each Exists.
    Sometimes {
        database: Database,
        part: u32,
        rows: Items<u32>,
    },
    /// Each of these tables may need a row for each row of the one before, and the first for each
    /// row of the last, so no number of rows is known to suffice.
    CyclicNesting {
        cycle: Items<u32>,
    },
    /// The sentences may need more rows, or their clauses are more, than are judged.
    Large {
        rows: u64,
        nodes: u64,
    },
    /// So many cases were tried, more than the budget.
    Spent {
        tried: u64,
    },
}

/// The Or of the parts, and the axioms of the schema.
fn judged_by(
    alloc: Global,
    schema: &Schema,
    parts: &[Sentence],
) -> Result<Items<Sentence>, NoMemory>
    requires fit { list_all (λ s. formula_fits schema.now s []) parts.now ≡ true }
    ensures sentences { IfOk result (λ list. list ≡ judged schema.now parts.now) }
    ensures fit { IfOk result (λ list. list_all (λ s. formula_fits schema.now s []) list
        ≡ true) }
{
    let mut sentences = Items::new(alloc);
    sentences.push(either(alloc, parts)?)?;
    push_axioms(alloc, schema, &mut sentences)?;
    Ok(sentences)
}

/// The steps that a closed tree shows.
fn steps_of(
    alloc: Global,
    schema: &Schema,
    parts: &[Sentence],
    problem: &Problem,
    tree: &CaseTree,
) -> Result<Items<Step>, NoMemory>
    requires ready { IsReady schema.now (judged schema.now parts.now) problem.now }
    requires closed { is_closed problem.now.clauses problem.now.frame tree.now [] ≡ true }
    ensures { IfOk result (IsNever schema.now parts.now) }
{
    accepted_sentence_fails();
    schema.tables();
    let cert = from_tree(alloc, tree, problem, 0, 0, Value::Null)?;
    Ok(cert.steps)
}

/// The steps of a closed tree, which is given up.
fn refuted(
    alloc: Global,
    schema: &Schema,
    parts: &[Sentence],
    problem: &Problem,
    tree: CaseTree,
) -> Result<Items<Step>, NoMemory>
    requires ready { IsReady schema.now (judged schema.now parts.now) problem.now }
    requires closed { is_closed problem.now.clauses problem.now.frame tree [] ≡ true }
    ensures { IfOk result (IsNever schema.now parts.now) }
{
    let steps = steps_of(alloc, schema, parts, problem, &tree);
    give_up(alloc, tree);
    steps
}

/// The way that is chosen at clause 0; 0 where none is.
fn first_choice(branch: &Branch) -> u32
    ensures { result ≡ first_way branch.now.choices }
{
    match branch.choices.as_slice().get(0) {
        Some(Some(way)) => *way,
        _ => 0,
    }
}

/// The database of the first full case.
fn satisfied(
    alloc: Global,
    schema: &Schema,
    parts: &[Sentence],
    problem: &Problem,
    branch: &Branch,
) -> Result<Settled, NoMemory>
    requires ready { IsReady schema.now (judged schema.now parts.now) problem.now }
    requires first { IsFirst problem.now.clauses problem.now.frame branch.now }
    ensures { (budget : ℕ) → IfOk result (IsSettled schema.now parts.now budget) }
{
    problems_can_be_searched();
    chosen_part_holds();
    let Placed { database, places } = rows_placed(alloc, schema, problem, branch)?;
    let part = first_choice(branch);
    let terms = problem.rows.terms.as_slice();
    let found = places.as_slice();
    let rows = rows_of(alloc, terms, found, parts, part as usize)?;
    Ok(Settled::Sometimes {
        database,
        part,
        rows,
    })
}

/// Searches the cases of the problem that the Or and the axioms make.
fn decided(
    alloc: Global,
    schema: &Schema,
    parts: &[Sentence],
    problem: &Problem,
    budget: u64,
) -> Result<Settled, NoMemory>
    requires ready { IsReady schema.now (judged schema.now parts.now) problem.now }
    ensures { IfOk result (IsSettled schema.now parts.now budget) }
{
    match searched(alloc, schema, problem, budget)? {
        Found::Spent { tried } => Ok(Settled::Spent { tried }),
        Found::Closed(tree) => Ok(Settled::Never(refuted(alloc, schema, parts, problem, tree)?)),
        Found::Open(branch) => satisfied(alloc, schema, parts, problem, &branch),
    }
}

/// Judges whether some part of an Or of sentences can hold: `Never` where it holds in no database
/// that meets the schema, with steps that refute it, and `Sometimes` with a database in which a
/// part holds.
///
/// The answer is `CyclicNesting` exactly where the tables of whose rows the sentences ask go round;
/// else `Large` exactly where a limit is passed; else `Spent` only where there are more counted
/// cases than the budget; else one of these two. `NoMemory` where memory runs out.
pub fn ask_sentence(
    alloc: Global,
    schema: &Schema,
    parts: &[Sentence],
    budget: u64,
) -> Result<Settled, NoMemory>
    requires fit { list_all (λ s. formula_fits schema.now s []) parts.now ≡ true }
    requires few { length parts.now < 2 ^ 32 }
    ensures { IfOk result (IsSettled schema.now parts.now budget) }
{
    let sentences = judged_by(alloc, schema, parts)?;
    match problem_of(alloc, schema, sentences) {
        Ok(problem) => decided(alloc, schema, parts, &problem, budget),
        Err(Stop::Cycle { tables }) => Ok(Settled::CyclicNesting { cycle: tables }),
        Err(Stop::Large { rows, nodes }) => Ok(Settled::Large { rows, nodes }),
        Err(Stop::NoMemory) => Err(NoMemory),
    }
}
