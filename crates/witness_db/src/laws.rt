//! What the database of a full case satisfies. The functions call another law and do nothing else:
//! each contract is a law about the definitions in the `specs/` of the crates below.
ghost use Rattle.std.specs.Prelude.{◌≡◌, ℕ, true, List, [], All, Contains, Option, Some, slice_get};
ghost use Rattle.lint_core.specs.declared.database.Database.{Database};
ghost use Rattle.lint_core.specs.declared.schema.Table.{Table};
ghost use Rattle.lint_core.specs.Meets.{is_of_domains, meets};
ghost use Rattle.lint_core.specs.Schema.{is_schema};
ghost use Rattle.sort_formula.specs.declared.formula.Formula.{Formula, out-Formula};
ghost use Rattle.sort_formula.specs.declared.formula.Formula.TheVariants.{Or};
ghost use Rattle.sort_formula.specs.Axioms.{Axiom as Stated, axioms};
ghost use Rattle.sort_formula.specs.Holds.{holds};
ghost use Rattle.ground_theory.specs.declared.literal.Assignment.{Assignment};
ghost use Rattle.ground_theory.specs.Assignments.{IsAssignment};
ghost use Rattle.case_split.specs.Choices.{Choices};
ghost use Rattle.instantiate.specs.declared.problem.Problem.{Problem};
ghost use Rattle.instantiate.specs.Cases.{IsDatabaseOf, IsProblem, places_at};
ghost use Rattle.instantiate.specs.Hanging.{StandsAt};
ghost use Rattle.witness_db.specs.FullCases.{IsFullCaseOf};
ghost use Rattle.witness_db.specs.Parts.{PartHolds};

use instantiate::{clauses_hang_together, plain_nodes_are_numbered};
use truth_laws::axioms_are_the_constraints;

/// Every sentence of a problem holds in the database of a full case: the database whose rows are
/// the classes of the row terms that are present, in an assignment that satisfies the case's
/// literals.
pub fn full_case_satisfies_sentences()
    ensures { (schema : List Table) (problem : Problem) (choices : Choices)
        (a : Assignment) → IsFullCaseOf schema problem choices a
        → (db : Database) (places : List (Option ℕ))
        → IsDatabaseOf problem choices a db places
        → (sentence : ℕ) (formula : Formula)
        → slice_get problem.sentences sentence ≡ Some formula → holds db formula [] ≡ true }
{
    clauses_hang_together();
}

/// In that database each formula whose clause is taken holds at the places of its row terms.
pub fn taken_clauses_hold()
    ensures { (schema : List Table) (problem : Problem) (choices : Choices)
        (a : Assignment) → IsFullCaseOf schema problem choices a
        → (db : Database) (places : List (Option ℕ))
        → IsDatabaseOf problem choices a db places
        → (clause way : ℕ) (formula : Formula) (variables : List ℕ)
        → StandsAt problem clause (out-Formula formula) variables
        → slice_get choices clause ≡ Some (Some way)
        → holds db formula (places_at problem.rows.terms places variables) ≡ true }
{
    clauses_hang_together();
}

/// That database has the schema's tables, and each value in it is of its column's domain. This
/// needs no full case.
pub fn databases_are_of_domains()
    ensures { (schema : List Table) (problem : Problem) → IsProblem schema problem
        → (choices : Choices) (a : Assignment) → IsAssignment problem.frame a
        → (db : Database) (places : List (Option ℕ))
        → IsDatabaseOf problem choices a db places → is_of_domains schema db ≡ true }
{}

/// Where the schema's axioms are among the problem's sentences, that database meets the schema.
pub fn full_case_meets_schema()
    ensures { (schema : List Table) (problem : Problem) (choices : Choices)
        (a : Assignment) → IsFullCaseOf schema problem choices a
        → (db : Database) (places : List (Option ℕ))
        → IsDatabaseOf problem choices a db places
        → is_schema schema ≡ true
        → All (λ (x : Stated). Contains problem.sentences x.sentence) (axioms schema)
        → meets schema db ≡ true }
{
    full_case_satisfies_sentences();
    databases_are_of_domains();
    axioms_are_the_constraints();
}

/// Where the first sentence is an Or, a part of it is chosen at clause 0, and it holds in that
/// database: so does what stands inside the Exists that lead the part, at the rows for which they
/// ask.
pub fn chosen_part_holds()
    ensures { (schema : List Table) (problem : Problem) (choices : Choices)
        (a : Assignment) → IsFullCaseOf schema problem choices a
        → (db : Database) (places : List (Option ℕ))
        → IsDatabaseOf problem choices a db places
        → (parts : List Formula) → slice_get problem.sentences 0 ≡ Some (Or parts)
        → (part : ℕ) × (slice_get choices 0 ≡ Some (Some part))
        × PartHolds db problem.rows.terms places parts part }
{
    clauses_hang_together();
    plain_nodes_are_numbered();
}
