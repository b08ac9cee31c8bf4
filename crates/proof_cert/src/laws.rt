//! What a closed tree says of certificates. The function does nothing: its contract is a law about
//! the definitions of the crates below.
ghost use Rattle.std.specs.Prelude.{◌≡◌, ℕ, true, List, [], ◌∷◌, Some, slice_get};
ghost use Rattle.lint_core.specs.declared.certificate.Step.{Step};
ghost use Rattle.lint_core.specs.declared.schema.Table.{Table};
ghost use Rattle.sort_formula.specs.declared.formula.Formula.{Formula};
ghost use Rattle.sort_formula.specs.Certificate.{accepts, branches_after, fact_of, first_branch};
ghost use Rattle.sort_formula.specs.Facts.{Fact};
ghost use Rattle.sort_formula.specs.Sentences.{is_sentence};
ghost use Rattle.case_split.specs.declared.tree.CaseTree.{CaseTree};
ghost use Rattle.case_split.specs.Trees.{is_closed};
ghost use Rattle.instantiate.specs.declared.problem.Problem.{Problem};
ghost use Rattle.instantiate.specs.Cases.{IsProblem};
ghost use Rattle.instantiate.specs.Ground.{domains_of};
ghost use Rattle.instantiate.specs.Hanging.{Hanging};

/// Where the clauses of a problem hang together, and its sentences are among the facts of a branch
/// without rows, a tree that is closed under no choice gives steps that close the branch, for
/// every schema of the problem's domains. So where the sentences of a problem over a schema are
/// among a counter sentence and the axioms, it gives steps that refute the counter sentence.
pub fn closed_trees_give_steps()
    ensures closing { (schema : List Table) (problem : Problem) → Hanging problem
        → domains_of schema ≡ problem.frame.domains → (facts : List Fact)
        → ((sentence : ℕ) (formula : Formula)
        → slice_get problem.sentences sentence ≡ Some formula
        → (n : ℕ) × (slice_get facts n ≡ Some (fact_of [] formula)))
        → (tree : CaseTree) → is_closed problem.clauses problem.frame tree [] ≡ true
        → (steps : List Step)
        × (branches_after schema steps (record { facts = facts; tables = [] } ∷ []) ≡ Some []) }
    ensures accepted { (schema : List Table) (problem : Problem) → IsProblem schema problem
        → ((sentence : ℕ) (formula : Formula)
        → slice_get problem.sentences sentence ≡ Some formula → is_sentence formula ≡ true)
        → (counter : Formula) → ((sentence : ℕ) (formula : Formula)
        → slice_get problem.sentences sentence ≡ Some formula
        → (n : ℕ) × (slice_get (first_branch schema counter).facts n
        ≡ Some (fact_of [] formula)))
        → (tree : CaseTree) → is_closed problem.clauses problem.frame tree [] ≡ true
        → (steps : List Step) × (accepts schema counter steps ≡ true) }
{}
