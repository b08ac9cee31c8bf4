//! One question.
ghost use Rattle.std.specs.Prelude.{◌≡◌, ◌≤◌, [], true, length, IfOk, OnOk};
ghost use Rattle.lint_core.specs.Asked.{is_asked};
ghost use Rattle.lint_core.specs.Fits.{query_fits};
ghost use Rattle.lint_core.specs.Question.{EarlierHold, refutes};
ghost use Rattle.case_split.specs.Answers.{IsAnswer, IsFirst};
ghost use Rattle.case_split.specs.Trees.{is_closed};
ghost use Rattle.ground_laws.specs.Grounded.{IsGrounded};
ghost use Rattle.lint_engine.specs.Asking.{HoldsWhereEarlierHold, IsAskAnswer, IsCertificate, IsCounter};
ghost use Rattle.lint_engine.specs.JudgedBy.{sentences_for};
ghost use Rattle.lint_engine.specs.inner.Problems.{IsReady};

use crate::laws::{accepted_questions_hold, databases_of_the_schema_fit, loose_points_refute};
use crate::problem::{Stop, problem_of};
use crate::sentences::sentences_for;
use case_split::{Branch, CaseTree, Found, give_up, search};
use ground_laws::problems_can_be_searched;
use instantiate::Problem;
use lint_base::{Items, NoMemory};
use lint_core::{Answer, Cert, Counter, Query, Question, Schema, Value};
use proof_cert::from_tree;
use std::alloc::Global;
use witness_db::build;

/// A question of a query, with the value of a constant column. A certificate names the numbers of
/// the query and the question, from 1.
#[derive(Clone, Copy)]
struct Task<'a> {
    schema: &'a Schema,
    query: &'a Query,
    question: &'a Question,
    given: &'a Value,
    numbers: (u32, u32),
}

/// The certificate that a closed tree shows.
fn certificate_of(
    alloc: Global,
    task: &Task,
    problem: &Problem,
    tree: &CaseTree,
) -> Result<Cert, NoMemory>
    requires fits { query_fits task.now.schema.now task.now.query.now ≡ true }
    requires asked { is_asked task.now.schema.now task.now.query.now task.now.question.now
        ≡ true }
    requires ready { IsReady task.now.schema.now (sentences_for task.now.schema.now
        task.now.query.now task.now.question.now task.now.given.now) problem.now }
    requires closed { is_closed problem.now.clauses problem.now.frame tree.now [] ≡ true }
    ensures certificate { IfOk result (λ cert. IsCertificate task.now.schema.now
        task.now.query.now task.now.question.now task.now.given.now
        (record { query = task.now.numbers.0; question = task.now.numbers.1 }) cert) }
    ensures holds { OnOk result (HoldsWhereEarlierHold task.now.schema.now task.now.query.now
        task.now.question.now task.now.given.now) }
{
    accepted_questions_hold();
    task.schema.tables();
    let value = task.given.copy(alloc)?;
    let (query, question) = task.numbers;
    let cert = from_tree(alloc, tree, problem, query, question, value)?;
    Ok(cert)
}

/// The certificate of a closed tree, which is given up.
fn certified(
    alloc: Global,
    task: &Task,
    problem: &Problem,
    tree: CaseTree,
) -> Result<Cert, NoMemory>
    requires fits { query_fits task.now.schema.now task.now.query.now ≡ true }
    requires asked { is_asked task.now.schema.now task.now.query.now task.now.question.now
        ≡ true }
    requires ready { IsReady task.now.schema.now (sentences_for task.now.schema.now
        task.now.query.now task.now.question.now task.now.given.now) problem.now }
    requires closed { is_closed problem.now.clauses problem.now.frame tree [] ≡ true }
    ensures certificate { IfOk result (λ cert. IsCertificate task.now.schema.now
        task.now.query.now task.now.question.now task.now.given.now
        (record { query = task.now.numbers.0; question = task.now.numbers.1 }) cert) }
    ensures holds { OnOk result (HoldsWhereEarlierHold task.now.schema.now task.now.query.now
        task.now.question.now task.now.given.now) }
{
    let cert = certificate_of(alloc, task, problem, &tree);
    give_up(alloc, tree);
    cert
}

/// The database of the first full case.
fn refuted(
    alloc: Global,
    task: &Task,
    problem: &Problem,
    branch: &Branch,
) -> Result<Counter, NoMemory>
    requires fits { query_fits task.now.schema.now task.now.query.now ≡ true }
    requires asked { is_asked task.now.schema.now task.now.query.now task.now.question.now
        ≡ true }
    requires ready { IsReady task.now.schema.now (sentences_for task.now.schema.now
        task.now.query.now task.now.question.now task.now.given.now) problem.now }
    requires first { IsFirst problem.now.clauses problem.now.frame branch.now }
    ensures counter { IfOk result (IsCounter task.now.schema.now task.now.query.now
        task.now.question.now task.now.given.now) }
    ensures fails { IfOk result (λ counter.
        EarlierHold counter.database task.now.query.now task.now.question.now
        → refutes counter.database task.now.query.now task.now.question.now
        task.now.given.now counter.points ≡ true) }
{
    loose_points_refute();
    problems_can_be_searched();
    let counter = build(
        alloc,
        task.schema,
        task.query,
        *task.question,
        task.given,
        problem,
        branch,
    )?;
    Ok(counter)
}

/// Searches the cases of a problem over the schema.
pub(crate) fn searched(
    alloc: Global,
    schema: &Schema,
    problem: &Problem,
    budget: u64,
) -> Result<Found, NoMemory>
    requires grounded { IsGrounded schema.now problem.now }
    requires few { length problem.now.clauses ≤ 400000 }
    ensures { IfOk result (IsAnswer problem.now.clauses problem.now.frame budget) }
{
    problems_can_be_searched();
    schema.tables();
    search(alloc, problem.clauses.as_slice(), &problem.frame, budget)
}

/// Searches the cases of the question's problem.
fn judged(alloc: Global, task: &Task, problem: &Problem, budget: u64) -> Result<Answer, NoMemory>
    requires fits { query_fits task.now.schema.now task.now.query.now ≡ true }
    requires asked { is_asked task.now.schema.now task.now.query.now task.now.question.now
        ≡ true }
    requires ready { IsReady task.now.schema.now (sentences_for task.now.schema.now
        task.now.query.now task.now.question.now task.now.given.now) problem.now }
    ensures { IfOk result (IsAskAnswer task.now.schema.now task.now.query.now
        task.now.question.now task.now.given.now
        (record { query = task.now.numbers.0; question = task.now.numbers.1 }) budget) }
{
    match searched(alloc, task.schema, problem, budget)? {
        Found::Spent { tried } => Ok(Answer::Spent { tried }),
        Found::Closed(tree) => Ok(Answer::Always(certified(alloc, task, problem, tree)?)),
        Found::Open(branch) => {
            let mut counters = Items::new(alloc);
            counters.push(refuted(alloc, task, problem, &branch)?)?;
            Ok(Answer::NotAlways(counters))
        }
    }
}

/// Judges one question over the databases in which the scalar subqueries asked of before it give
/// at most one row; a constant column is asked of with the given value.
///
/// `numbers` are those of the query and the question, from 1, which a certificate names. The answer
/// is `CyclicNesting` exactly where the tables of whose rows the sentences ask go round; else
/// `Large` exactly where a limit is passed; else `Spent` only where there are more counted cases
/// than the budget; else `Always` with a certificate or `NotAlways` with one database. It is never
/// `Moot`, `Blocked` or `CyclicKeys`. `NoMemory` where memory runs out.
pub fn ask(
    alloc: Global,
    schema: &Schema,
    query: &Query,
    numbers: (u32, u32),
    question: &Question,
    given: &Value,
    budget: u64,
) -> Result<Answer, NoMemory>
    requires fits { query_fits schema.now query.now ≡ true }
    requires asked { is_asked schema.now query.now question.now ≡ true }
    ensures { IfOk result (IsAskAnswer schema.now query.now question.now given.now
        (record { query = numbers.0; question = numbers.1 }) budget) }
{
    let sentences = sentences_for(alloc, schema, query, question, given)?;
    match problem_of(alloc, schema, sentences) {
        Ok(problem) => {
            let task = Task {
                schema,
                query,
                question,
                given,
                numbers,
            };
            judged(alloc, &task, &problem, budget)
        }
        Err(Stop::Cycle { tables }) => Ok(Answer::CyclicNesting { cycle: tables }),
        Err(Stop::Large { rows, nodes }) => Ok(Answer::Large { rows, nodes }),
        Err(Stop::NoMemory) => Err(NoMemory),
    }
}
