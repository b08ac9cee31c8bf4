//! How the clauses of a problem hang together. The functions do nothing: each contract is a law
//! about the definitions in `specs/`.
ghost use Rattle.std.specs.Prelude.{◌≡◌, ℕ, true, List, Some, slice_get};
ghost use Rattle.lint_core.specs.declared.schema.Table.{Table};
ghost use Rattle.sort_formula.specs.declared.formula.Formula.{Formula};
ghost use Rattle.sort_formula.specs.Sentences.{is_sentence};
ghost use Rattle.instantiate.specs.Cases.{IsProblem};
ghost use Rattle.instantiate.specs.Hanging.{Hanging};
ghost use Rattle.instantiate.specs.Plain.{PlainNodes};
ghost use Rattle.instantiate.specs.declared.problem.Problem.{Problem};

/// Where each formula of a problem is a sentence, the clauses of the problem hang together: each
/// stands for a sentence or below another clause, and below each clause hang exactly the parts of
/// what stands there.
pub fn clauses_hang_together()
    ensures { (schema : List Table) (problem : Problem) → IsProblem schema problem
        → ((sentence : ℕ) (formula : Formula)
        → slice_get problem.sentences sentence ≡ Some formula → is_sentence formula ≡ true)
        → Hanging problem }
{}

/// What stands at the nodes of a problem's sentences under no Forall, by the numbers of the nodes.
pub fn plain_nodes_are_numbered()
    ensures { (schema : List Table) (problem : Problem) → IsProblem schema problem
        → PlainNodes problem }
{}
