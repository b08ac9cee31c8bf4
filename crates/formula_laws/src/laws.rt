//! What `negate` and `place` are for, and what accepted steps show. The functions do nothing: each
//! contract is a law about the definitions in `specs/`.
ghost use Rattle.std.specs.Prelude.{◌≡◌, ℕ, true, false, [], not, length, map, List, slice_get, Some};
ghost use Rattle.std.specs.List.{list_all};
ghost use Rattle.lint_core.specs.declared.certificate.Step.{Step};
ghost use Rattle.lint_core.specs.declared.database.Database.{Database};
ghost use Rattle.lint_core.specs.declared.schema.Table.{Table};
ghost use Rattle.lint_core.specs.Database.{Place};
ghost use Rattle.lint_core.specs.Meets.{is_of_domains};
ghost use Rattle.sort_formula.specs.declared.formula.Formula.{Formula};
ghost use Rattle.sort_formula.specs.Axioms.{Axiom, axioms};
ghost use Rattle.sort_formula.specs.Certificate.{accepts};
ghost use Rattle.sort_formula.specs.Holds.{holds};
ghost use Rattle.sort_formula.specs.Negated.{negated};
ghost use Rattle.sort_formula.specs.Placed.{placed};
ghost use Rattle.sort_formula.specs.Rows.{tables_of_rows};
ghost use Rattle.sort_formula.specs.Sentences.{formula_fits};

/// In a database whose values are of the schema's domains, the negation of a formula that fits the
/// schema holds exactly where the formula does not. A variable may stand for any place of its
/// table, also one that holds no row.
pub fn negation_complements()
    ensures { (schema : List Table) (db : Database) → is_of_domains schema db ≡ true
        → (formula : Formula) (rows : List Place)
        → formula_fits schema formula (tables_of_rows rows) ≡ true
        → holds db (negated formula) rows ≡ not (holds db formula rows) }
{}

/// A formula in another place holds of the rows there exactly where the formula holds of the rows
/// that its variables are renamed to: each number is that of the variable's row among the others.
pub fn placing_renames()
    ensures { (db : Database) (numbers : List ℕ) (depth : ℕ) (formula : Formula)
        (rows others : List Place)
        → length others ≡ depth
        → map (slice_get others) numbers ≡ map (λ place. Some place) rows
        → holds db (placed numbers depth formula) others ≡ holds db formula rows }
{}

/// A sentence that accepted steps refute holds in no database of the schema's domains in which all
/// axioms hold.
pub fn accepted_steps_refute()
    ensures { (schema : List Table) (sentence : Formula) (steps : List Step)
        → accepts schema sentence steps ≡ true
        → (db : Database) → is_of_domains schema db ≡ true
        → list_all (λ (a : Axiom). holds db a.sentence []) (axioms schema) ≡ true
        → holds db sentence [] ≡ false }
{}
