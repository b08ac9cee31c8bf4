//! A database in which a question fails, with its points.
ghost use Rattle.std.specs.Prelude.{◌≡◌, ℕ, true, List, [], All, Contains, Option, Some, length, slice_get, IfOk};
ghost use Rattle.lint_core.specs.declared.database.Database.{Database as SomeDatabase};
ghost use Rattle.lint_core.specs.declared.database.Value.{Value as SomeValue};
ghost use Rattle.lint_core.specs.declared.query.Query.{Query as SomeQuery};
ghost use Rattle.lint_core.specs.declared.query.Question.{Question as SomeQuestion};
ghost use Rattle.lint_core.specs.declared.schema.Table.{Table};
ghost use Rattle.lint_core.specs.Asked.{is_asked};
ghost use Rattle.lint_core.specs.DatabaseFits.{database_fits};
ghost use Rattle.lint_core.specs.Fits.{query_fits};
ghost use Rattle.lint_core.specs.Meets.{is_of_domains, meets};
ghost use Rattle.lint_core.specs.Question.{EarlierHold, refutes};
ghost use Rattle.sort_formula.specs.declared.formula.Formula.{Formula};
ghost use Rattle.sort_formula.specs.Axioms.{Axiom as Stated, axioms};
ghost use Rattle.sort_formula.specs.CounterPoints.{are_there, points_of};
ghost use Rattle.sort_formula.specs.Counters.{counter, counter_sentence};
ghost use Rattle.sort_formula.specs.Holds.{holds};
ghost use Rattle.sort_formula.specs.Loose.{refutes_loosely};
ghost use Rattle.ground_theory.specs.declared.literal.Assignment.{Assignment};
ghost use Rattle.case_split.specs.Choices.{Choices};
ghost use Rattle.instantiate.specs.declared.problem.Problem.{Problem as SomeProblem};
ghost use Rattle.instantiate.specs.Cases.{IsDatabaseOf};
ghost use Rattle.witness_db.specs.FullCases.{CanBePlaced, IsFullCaseOf};
ghost use Rattle.witness_db.specs.Leading.{IsCounterOf, leading_places};
ghost use Rattle.witness_db.specs.inner.Fitting.{ArePoints, fitting_of, lead_of};

use crate::laws::databases_are_of_domains;
use crate::points::points_at;
use crate::rows::{Placed, rows_placed};
use case_split::Branch;
use counter_laws::{leading_rows_refute, loosely_is_truly, rows_of_a_join_refute};
use instantiate::{Problem, clauses_hang_together, plain_nodes_are_numbered};
use lint_base::NoMemory;
use lint_core::{Counter, Query, Question, Schema, Value};
use std::alloc::Global;

/// In the database of a full case of a problem whose first sentence is the counter sentence of a
/// question, the points that the leading row terms make refute the question loosely.
fn leading_terms_refute()
    ensures { (schema : List Table) (problem : SomeProblem) (choices : Choices)
        (a : Assignment) → IsFullCaseOf schema problem choices a
        → (db : SomeDatabase) (places : List (Option ℕ))
        → IsDatabaseOf problem choices a db places
        → (query : SomeQuery) → query_fits schema query ≡ true
        → (question : SomeQuestion) → is_asked schema query question ≡ true
        → (given : SomeValue)
        → slice_get problem.sentences 0 ≡ Some (counter_sentence schema query question given)
        → (are_there query db question
        (fitting_of schema query problem.rows.terms places question) ≡ true)
        × (refutes_loosely schema db query question given (points_of query question
        (leading_places problem.rows.terms places (length (lead_of query question)))
        (fitting_of schema query problem.rows.terms places question)) ≡ true) }
{
    clauses_hang_together();
    plain_nodes_are_numbered();
    databases_are_of_domains();
    leading_rows_refute();
    rows_of_a_join_refute();
}

/// The database of a full case of a problem whose first sentence is the counter sentence of a
/// question, with points that refute the question: the places of the rows that the sentence's
/// leading Exists ask for. For a needless join they are those of the other entries where no row of
/// the entry fits, and else they have two rows of it. `NoMemory` where there is no memory for all
/// of it.
pub fn build(
    alloc: Global,
    schema: &Schema,
    query: &Query,
    question: Question,
    given: &Value,
    problem: &Problem,
    branch: &Branch,
) -> Result<Counter, NoMemory>
    requires query { query_fits schema.now query.now ≡ true }
    requires asked { is_asked schema.now query.now question ≡ true }
    requires counter { slice_get problem.now.sentences 0
        ≡ Some (counter_sentence schema.now query.now question given.now) }
    requires full { IsFullCaseOf schema.now problem.now branch.now.choices
        branch.now.assignment }
    requires limits { CanBePlaced problem.now }
    ensures made { IfOk result (IsCounterOf schema.now query.now question given.now problem.now
        branch.now.choices branch.now.assignment) }
    ensures fits { IfOk result (λ c. database_fits schema.now c.database ≡ true) }
    ensures domains { IfOk result (λ c. is_of_domains schema.now c.database ≡ true) }
    ensures sentences { IfOk result (λ c. (sentence : ℕ) (formula : Formula)
        → slice_get problem.now.sentences sentence ≡ Some formula
        → holds c.database formula [] ≡ true) }
    ensures refutes { IfOk result (λ c.
        refutes_loosely schema.now c.database query.now question given.now c.points ≡ true) }
    ensures meets { IfOk result (λ c.
        All (λ (x : Stated). Contains problem.now.sentences x.sentence) (axioms schema.now)
        → meets schema.now c.database ≡ true) }
    ensures truly { IfOk result (λ c. EarlierHold c.database query.now question
        → refutes c.database query.now question given.now c.points ≡ true) }
{
    leading_terms_refute();
    loosely_is_truly();
    let Placed { database, places } = rows_placed(alloc, schema, problem, branch)?;
    let sentence = &problem.sentences.as_slice()[0];
    let terms = problem.rows.terms.as_slice();
    let points = points_at(alloc, query, question, sentence, terms, places.as_slice())?;
    Ok(Counter { database, points })
}
