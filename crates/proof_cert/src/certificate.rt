//! The certificate of a closed tree.
ghost use Rattle.std.specs.Prelude.{◌≡◌, ◌≤◌, ◌<◌, ◌^◌, ℕ, true, List, [], All, Some, slice_get, length, IfOk};
ghost use Rattle.lint_core.specs.declared.schema.Table.{Table};
ghost use Rattle.sort_formula.specs.declared.formula.Formula.{Formula};
ghost use Rattle.sort_formula.specs.Nodes.{nodes};
ghost use Rattle.sort_formula.specs.Sentences.{is_sentence};
ghost use Rattle.case_split.specs.Trees.{is_closed};
ghost use Rattle.instantiate.specs.Cases.{IsProblem};
ghost use Rattle.proof_cert.specs.Steps.{AreSteps};

use crate::ranks::ranks_of;
use crate::reaching::Source;
use crate::writing::steps_of;
use case_split::CaseTree;
use instantiate::{Problem, maker_numbers};
use lint_base::NoMemory;
use lint_core::{Cert, Value};
use std::alloc::Global;

/// The certificate of a tree that is closed under no choice, with these numbers and this value:
/// its steps close the branch of the problem's sentences. `NoMemory` where there is no memory for
/// them, or a branch would have more than 2^32 facts.
pub fn from_tree(
    alloc: Global,
    tree: &CaseTree,
    problem: &Problem,
    query: u32,
    question: u32,
    value: Value,
) -> Result<Cert, NoMemory>
    requires problem { (schema : List Table) × IsProblem schema problem.now }
    requires sentences { (sentence : ℕ) (formula : Formula)
        → slice_get problem.now.sentences sentence ≡ Some formula → is_sentence formula ≡ true }
    requires rows { length problem.now.rows.terms ≤ 512 }
    requires clauses { length problem.now.clauses ≤ 400000 }
    requires nodes { All (λ s. nodes s < 2 ^ 32) problem.now.sentences }
    requires closed { is_closed problem.now.clauses problem.now.frame tree.now [] ≡ true }
    ensures query { IfOk result (λ cert. cert.query ≡ query) }
    ensures question { IfOk result (λ cert. cert.question ≡ question) }
    ensures value { IfOk result (λ cert. cert.value ≡ value) }
    ensures steps { IfOk result (λ cert. AreSteps problem.now cert.steps) }
{
    let source = Source {
        problem,
        ranks: ranks_of(alloc, problem.clauses.as_slice())?,
        makers: maker_numbers(alloc, problem)?,
    };
    Ok(Cert {
        query,
        question,
        value,
        steps: steps_of(alloc, &source, tree)?,
    })
}
