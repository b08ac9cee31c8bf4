//! The database of a full case.
ghost use Rattle.std.specs.Prelude.{◌≡◌, ℕ, true, List, [], All, Contains, Some, slice_get, IfOk};
ghost use Rattle.lint_core.specs.DatabaseFits.{database_fits};
ghost use Rattle.lint_core.specs.Meets.{is_of_domains, meets};
ghost use Rattle.sort_formula.specs.declared.formula.Formula.{Formula, out-Formula};
ghost use Rattle.sort_formula.specs.Axioms.{Axiom as Stated, axioms};
ghost use Rattle.sort_formula.specs.Holds.{holds};
ghost use Rattle.ground_theory.specs.Assignments.{IsAssignment};
ghost use Rattle.instantiate.specs.Cases.{IsDatabaseOf, IsProblem, places_at};
ghost use Rattle.instantiate.specs.Hanging.{StandsAt};
ghost use Rattle.witness_db.specs.FullCases.{CanBePlaced, IsFullCaseOf};

use crate::laws::{
    databases_are_of_domains, full_case_meets_schema, full_case_satisfies_sentences,
    taken_clauses_hold,
};
use crate::placing::{firsts, places_of, presence, rows_by_table};
use case_split::Branch;
use instantiate::Problem;
use lint_base::{Items, NoMemory};
use lint_core::{Database, Schema};
use std::alloc::Global;

/// A database, and the place of each row term of a problem among the rows of its table, if it has
/// one.
#[derive(Drop)]
pub struct Placed {
    pub database: Database,
    pub places: Items<Option<u32>>,
}

fn place_rows(
    alloc: Global,
    schema: &Schema,
    problem: &Problem,
    branch: &Branch,
) -> Result<Placed, NoMemory>
    requires problem { IsProblem schema.now problem.now }
    requires limits { CanBePlaced problem.now }
    requires assignment { IsAssignment problem.now.frame branch.now.assignment }
    ensures { IfOk result (λ p. IsDatabaseOf problem.now branch.now.choices
        branch.now.assignment p.database p.places) }
{
    let assignment = &branch.assignment;
    let present = presence(alloc, problem, branch.choices.as_slice())?;
    let firsts = firsts(alloc, present.as_slice(), assignment)?;
    let firsts = firsts.as_slice();
    let tables = problem.frame.tables.as_slice();
    let count = schema.tables().as_slice().len() as u32;
    Ok(Placed {
        database: Database {
            tables: rows_by_table(alloc, tables, firsts, assignment, count)?,
        },
        places: places_of(alloc, tables, firsts)?,
    })
}

/// The database of a full case, with the place of each row term. Its rows are the classes of the
/// row terms that are present. Two such terms of a table have one place exactly where they are of
/// one class, the rows of a table stand in the order of the first present term of each class, and
/// a term that is not present has no place. `NoMemory` where there is no memory for all of it.
pub fn rows_placed(
    alloc: Global,
    schema: &Schema,
    problem: &Problem,
    branch: &Branch,
) -> Result<Placed, NoMemory>
    requires full { IsFullCaseOf schema.now problem.now branch.now.choices
        branch.now.assignment }
    requires limits { CanBePlaced problem.now }
    ensures rows { IfOk result (λ p. IsDatabaseOf problem.now branch.now.choices
        branch.now.assignment p.database p.places) }
    ensures fits { IfOk result (λ p. database_fits schema.now p.database ≡ true) }
    ensures domains { IfOk result (λ p. is_of_domains schema.now p.database ≡ true) }
    ensures sentences { IfOk result (λ p. (sentence : ℕ) (formula : Formula)
        → slice_get problem.now.sentences sentence ≡ Some formula
        → holds p.database formula [] ≡ true) }
    ensures taken { IfOk result (λ p. (clause way : ℕ) (formula : Formula) (variables : List ℕ)
        → StandsAt problem.now clause (out-Formula formula) variables
        → slice_get branch.now.choices clause ≡ Some (Some way)
        → holds p.database formula (places_at problem.now.rows.terms p.places variables) ≡ true) }
    ensures meets { IfOk result (λ p.
        All (λ (x : Stated). Contains problem.now.sentences x.sentence) (axioms schema.now)
        → meets schema.now p.database ≡ true) }
{
    full_case_satisfies_sentences();
    taken_clauses_hold();
    databases_are_of_domains();
    full_case_meets_schema();
    let _tables = schema.tables();
    place_rows(alloc, schema, problem, branch)
}
