//! The checker of certificates.
ghost use Rattle.std.specs.Prelude.{◌≡◌, ◌↔◌, ℕ, true, false, Some, [], ◌∷◌, map, IfOk};
ghost use Rattle.lint_core.specs.declared.database.Database.{Database};
ghost use Rattle.lint_core.specs.Meets.{meets};
ghost use Rattle.constraint_axioms.specs.declared.axiom.Axiom.{Axiom as Made};
ghost use Rattle.constraint_axioms.specs.Spoken.{spoken};
ghost use Rattle.sort_formula.specs.Axioms.{axioms as constraints};
ghost use Rattle.sort_formula.specs.Certificate.{fact_of, accepts, first_wrong, wrong_step};
ghost use Rattle.sort_formula.specs.Holds.{holds};
ghost use Rattle.sort_formula.specs.Sentences.{formula_fits};
ghost use Rattle.lint_core.specs.declared.run.Checked.TheVariants as checked;

use crate::facts::Stated;
use crate::run::Run;
use constraint_axioms::{Axiom, axioms};
use formula_laws::wrong_steps_are_numbered;
use lint_base::NoMemory;
use lint_core::{Checked, Schema, Step, Table};
use sort_formula::Sentence;
use std::alloc::Global;
use truth_laws::accepted_sentence_fails;

/// The sentence and the axioms as facts.
fn first_facts<'a>(
    alloc: Global,
    sentence: &'a Sentence,
    axioms: &'a [Axiom],
) -> Result<Vec<Stated<'a>>, NoMemory>
    ensures { IfOk result (λ facts. facts.items ≡ fact_of [] sentence.now
        ∷ map (λ (a : Made). fact_of [] a.sentence) axioms.now) }
{
    let mut facts = Vec::new(alloc);
    facts.push(Stated::new(sentence.formula(), Vec::new(alloc)))?;
    for axiom in axioms {
        facts.push(Stated::new(axiom.sentence.formula(), Vec::new(alloc)))?;
    }
    Ok(facts)
}

/// The number of the first step that is wrong, missing or left over, where one branch has these
/// facts.
fn first_wrong(
    alloc: Global,
    tables: &[Table],
    facts: Vec<Stated>,
    steps: &[Step],
) -> Result<Option<u64>, NoMemory>
    ensures { IfOk result (λ wrong. wrong ≡ first_wrong 1 tables.now steps.now
        (record { facts = facts.entry.items; tables = [] } ∷ [])) }
{
    let mut run = Run::new(alloc, facts);
    for (index, step) in steps.iter().enumerate() {
        if !run.step(alloc, tables, step)? {
            return Ok(Some(index as u64 + 1));
        }
    }
    if run.is_closed() {
        Ok(None)
    } else {
        Ok(Some(steps.len() as u64 + 1))
    }
}

/// As `check_sentence`, with the axioms of the schema at hand: who checks many certificates makes
/// them once.
pub fn check_sentence_with_axioms(
    alloc: Global,
    schema: &Schema,
    axioms: &[Axiom],
    sentence: &Sentence,
    steps: &[Step],
) -> Result<Checked, NoMemory>
    requires listed { map spoken axioms.now ≡ constraints schema.now }
    requires fits { formula_fits schema.now sentence.now [] ≡ true }
    ensures accepted { IfOk result (λ answer. (answer ≡ checked.Accepted)
        ↔ (accepts schema.now sentence.now steps.now ≡ true)) }
    ensures refused { IfOk result (λ answer. (step : ℕ) → (answer ≡ checked.Refused step)
        ↔ (wrong_step schema.now sentence.now steps.now ≡ Some step)) }
    ensures never_needs { IfOk result (λ answer. (question : ℕ) →
        answer ≡ checked.Needs question → ⊥) }
    ensures sound { IfOk result (λ answer. answer ≡ checked.Accepted → (db : Database) →
        meets schema.now db ≡ true → holds db sentence.now [] ≡ false) }
{
    accepted_sentence_fails();
    wrong_steps_are_numbered();
    let facts = first_facts(alloc, sentence, axioms)?;
    match first_wrong(alloc, schema.tables().as_slice(), facts, steps)? {
        Some(step) => Ok(Checked::Refused { step }),
        None => Ok(Checked::Accepted),
    }
}

/// Whether the steps refute a sentence that fits the schema, given that all constraints of the
/// schema hold. Accepted exactly where they do; then the sentence holds in no database that meets
/// the schema. Refused names the first wrong step: the first that is not right in its turn; where
/// all are right and a branch is left open, the one after the last; where all branches are closed
/// and steps are left, the first of these. It never answers Needs. `NoMemory` where there is no
/// memory for the facts of a branch.
pub fn check_sentence(
    alloc: Global,
    schema: &Schema,
    sentence: &Sentence,
    steps: &[Step],
) -> Result<Checked, NoMemory>
    requires fits { formula_fits schema.now sentence.now [] ≡ true }
    ensures accepted { IfOk result (λ answer. (answer ≡ checked.Accepted)
        ↔ (accepts schema.now sentence.now steps.now ≡ true)) }
    ensures refused { IfOk result (λ answer. (step : ℕ) → (answer ≡ checked.Refused step)
        ↔ (wrong_step schema.now sentence.now steps.now ≡ Some step)) }
    ensures never_needs { IfOk result (λ answer. (question : ℕ) →
        answer ≡ checked.Needs question → ⊥) }
    ensures sound { IfOk result (λ answer. answer ≡ checked.Accepted → (db : Database) →
        meets schema.now db ≡ true → holds db sentence.now [] ≡ false) }
{
    let axioms = axioms(alloc, schema)?;
    check_sentence_with_axioms(alloc, schema, &axioms, sentence, steps)
}
