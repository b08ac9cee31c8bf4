//! The checker of a question's certificate.
ghost use Rattle.std.specs.Prelude.{◌≡◌, ◌↔◌, ℕ, true, Some, map, IfOk};
ghost use Rattle.lint_core.specs.declared.database.Database.{Database};
ghost use Rattle.lint_core.specs.declared.run.Checked.TheVariants as checked;
ghost use Rattle.lint_core.specs.Asked.{is_asked};
ghost use Rattle.lint_core.specs.Fits.{query_fits};
ghost use Rattle.lint_core.specs.Meets.{meets};
ghost use Rattle.lint_core.specs.Question.{EarlierHold, HoldsIn};
ghost use Rattle.constraint_axioms.specs.Spoken.{spoken};
ghost use Rattle.sort_formula.specs.Axioms.{axioms as constraints};
ghost use Rattle.sort_formula.specs.Certificate.{accepts, wrong_step};
ghost use Rattle.sort_formula.specs.Counters.{counter_sentence};

use crate::checking::check_sentence_with_axioms;
use constraint_axioms::{Axiom, axioms};
use counter_laws::question_holds_where_the_sentence_fails;
use error_reductions::counter_sentence;
use lint_base::NoMemory;
use lint_core::{Cert, Checked, Query, Question, Schema};
use std::alloc::Global;

/// As `check`, with the axioms of the schema at hand: who checks many certificates makes them once.
pub fn check_with_axioms(
    alloc: Global,
    schema: &Schema,
    axioms: &[Axiom],
    query: &Query,
    question: &Question,
    cert: &Cert,
) -> Result<Checked, NoMemory>
    requires listed { map spoken axioms.now ≡ constraints schema.now }
    requires fits { query_fits schema.now query.now ≡ true }
    requires asked { is_asked schema.now query.now question.now ≡ true }
    ensures accepted { let sentence = counter_sentence schema.now query.now question.now cert.now.value in
        IfOk result (λ answer. (answer ≡ checked.Accepted)
        ↔ (accepts schema.now sentence cert.now.steps ≡ true)) }
    ensures refused { let sentence = counter_sentence schema.now query.now question.now cert.now.value in
        IfOk result (λ answer. (step : ℕ) → (answer ≡ checked.Refused step)
        ↔ (wrong_step schema.now sentence cert.now.steps ≡ Some step)) }
    ensures never_needs { IfOk result (λ answer. (other : ℕ) →
        answer ≡ checked.Needs other → ⊥) }
    ensures holds { IfOk result (λ answer. answer ≡ checked.Accepted → (db : Database) →
        meets schema.now db ≡ true → EarlierHold db query.now question.now
        → HoldsIn db query.now question.now cert.now.value) }
{
    question_holds_where_the_sentence_fails();
    let sentence = counter_sentence(alloc, schema, query, question, &cert.value)?;
    check_sentence_with_axioms(alloc, schema, axioms, &sentence, cert.steps.as_slice())
}

/// Whether the certificate shows that the question holds: whether its steps refute the question's
/// counter sentence, which for a constant column is that of the certificate's value. The numbers
/// that it names are not read.
///
/// Accepted exactly where they do; then the question holds, with that value, in every database
/// that meets the schema and in which the scalar subqueries asked of before give at most one row.
/// Refused names the first wrong step, as `check_sentence` does. It never answers Needs.
/// `NoMemory` where there is no memory for the sentence or for the facts of a branch.
pub fn check(
    alloc: Global,
    schema: &Schema,
    query: &Query,
    question: &Question,
    cert: &Cert,
) -> Result<Checked, NoMemory>
    requires fits { query_fits schema.now query.now ≡ true }
    requires asked { is_asked schema.now query.now question.now ≡ true }
    ensures accepted { let sentence = counter_sentence schema.now query.now question.now cert.now.value in
        IfOk result (λ answer. (answer ≡ checked.Accepted)
        ↔ (accepts schema.now sentence cert.now.steps ≡ true)) }
    ensures refused { let sentence = counter_sentence schema.now query.now question.now cert.now.value in
        IfOk result (λ answer. (step : ℕ) → (answer ≡ checked.Refused step)
        ↔ (wrong_step schema.now sentence cert.now.steps ≡ Some step)) }
    ensures never_needs { IfOk result (λ answer. (other : ℕ) →
        answer ≡ checked.Needs other → ⊥) }
    ensures holds { IfOk result (λ answer. answer ≡ checked.Accepted → (db : Database) →
        meets schema.now db ≡ true → EarlierHold db query.now question.now
        → HoldsIn db query.now question.now cert.now.value) }
{
    let axioms = axioms(alloc, schema)?;
    check_with_axioms(alloc, schema, &axioms, query, question, cert)
}
