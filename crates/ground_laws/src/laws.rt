//! What `search` asks of a problem, and that a problem has one order. The functions call another
//! law or do nothing: each contract is a law about the definitions in the `specs/` of the crates
//! below.
ghost use Rattle.std.specs.Prelude.{◌≡◌, ℕ, ◌≤◌, true, List, Some, slice_get};
ghost use Rattle.lint_core.specs.declared.schema.Table.{Table};
ghost use Rattle.sort_formula.specs.declared.formula.Formula.{Formula};
ghost use Rattle.sort_formula.specs.Sentences.{is_sentence};
ghost use Rattle.sorted_skolem.specs.Graph.{IsOrder};
ghost use Rattle.ground_theory.specs.declared.literal.Clause.{Clause};
ghost use Rattle.ground_theory.specs.declared.literal.Frame.{Frame};
ghost use Rattle.ground_theory.specs.Forward.{are_forward};
ghost use Rattle.case_split.specs.Answers.{HasSpent};
ghost use Rattle.case_split.specs.Cases.{HasCounted};
ghost use Rattle.case_split.specs.Fitting.{are_fit, have_few_ways};
ghost use Rattle.ground_theory.specs.Judgeable.{is_frame};
ghost use Rattle.instantiate.specs.declared.problem.Problem.{Problem};
ghost use Rattle.instantiate.specs.Cases.{IsProblem};
ghost use Rattle.ground_laws.specs.Counting.{cases_at_most};
ghost use Rattle.ground_laws.specs.Grounded.{IsGrounded};

use instantiate::clauses_hang_together;

/// The row terms of a problem are of tables of the schema, each literal compares cells of one
/// kind that are there, by a bound of moderate size, and no clause has 2^32 ways: this is what
/// `search` asks, but for the number of clauses.
pub fn problems_can_be_searched()
    ensures frame { (schema : List Table) (problem : Problem) → IsGrounded schema problem
        → is_frame problem.frame ≡ true }
    ensures fitting { (schema : List Table) (problem : Problem) → IsGrounded schema problem
        → are_fit problem.frame problem.clauses ≡ true }
    ensures ways { (schema : List Table) (problem : Problem) → IsGrounded schema problem
        → have_few_ways problem.clauses ≡ true }
{
    clauses_hang_together();
}

/// Where each formula of a problem is a sentence, each guard of its clauses names an earlier
/// clause.
pub fn guards_are_earlier()
    ensures { (schema : List Table) (problem : Problem) → IsProblem schema problem
        → ((sentence : ℕ) (formula : Formula)
        → slice_get problem.sentences sentence ≡ Some formula → is_sentence formula ≡ true)
        → are_forward problem.clauses ≡ true }
{
    clauses_hang_together();
}

/// The live tables of sentences have at most one order: so how many row terms and clauses there
/// are, where they have one, is said by the sentences alone.
pub fn sentences_have_one_order()
    ensures { (sentences : List Formula) (order other : List ℕ)
        → IsOrder sentences order → IsOrder sentences other → order ≡ other }
{}

/// At most as many cases of a list of clauses are counted as one more than there are clauses,
/// times the product of their numbers of ways, a clause without ways counted as one. So with such
/// a budget `search` never answers that it is spent.
pub fn few_cases_are_counted()
    ensures at_most { (clauses : List Clause) (frame : Frame) (count : ℕ)
        → HasCounted clauses frame count → count ≤ cases_at_most clauses }
    ensures enough { (clauses : List Clause) (frame : Frame) (budget tried : ℕ)
        → cases_at_most clauses ≤ budget → HasSpent clauses frame budget tried → ⊥ }
{}
