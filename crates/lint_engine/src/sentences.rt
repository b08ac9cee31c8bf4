//! The sentences that a question is judged by.
ghost use Rattle.std.specs.Prelude.{◌≡◌, ◌<◌, ◌^◌, ◌++◌, [], true, false, suc, map, length, All, IfOk, OnOk};
ghost use Rattle.std.specs.List.{list_all};
ghost use Rattle.constraint_axioms.specs.declared.axiom.Axiom.{Axiom as Made};
ghost use Rattle.lint_core.specs.Asked.{is_asked};
ghost use Rattle.lint_core.specs.Database.{below};
ghost use Rattle.lint_core.specs.Fits.{query_fits};
ghost use Rattle.sort_formula.specs.Axioms.{Axiom as Stated, axioms};
ghost use Rattle.sort_formula.specs.Sentences.{formula_fits, is_sentence};
ghost use Rattle.lint_engine.specs.JudgedBy.{sentences_for};
ghost use Rattle.lint_engine.specs.Limits.{HaveFewNodes, HasManyNodes};

use constraint_axioms::{Axiom, axioms};
use error_reductions::counter_sentence;
use lint_base::{Items, NoMemory};
use lint_core::{Query, Question, Schema, Value};
use sort_formula::Sentence;
use std::alloc::Global;

fn push_sentences(axioms: Vec<Axiom>, sentences: &mut Items<Sentence>) -> Result<(), NoMemory>
    ensures { OnOk result (sentences.new
        ≡ sentences.old ++ map (λ (a : Made). a.sentence) axioms.items) }
{
    for axiom in axioms {
        sentences.push(axiom.sentence)?;
    }
    Ok(())
}

/// Adds the axioms of the schema.
pub(crate) fn push_axioms(
    alloc: Global,
    schema: &Schema,
    sentences: &mut Items<Sentence>,
) -> Result<(), NoMemory>
    ensures listed { OnOk result (sentences.new ≡ sentences.old
        ++ map (λ (a : Stated). a.sentence) (axioms schema.now)) }
    ensures fit { OnOk result (list_all (λ s. formula_fits schema.now s [])
        (map (λ (a : Stated). a.sentence) (axioms schema.now)) ≡ true) }
{
    let list = axioms(alloc, schema)?;
    push_sentences(list, sentences)?;
    Ok(())
}

/// The counter sentence, and the axioms of the schema.
pub(crate) fn sentences_for(
    alloc: Global,
    schema: &Schema,
    query: &Query,
    question: &Question,
    given: &Value,
) -> Result<Items<Sentence>, NoMemory>
    requires fits { query_fits schema.now query.now ≡ true }
    requires asked { is_asked schema.now query.now question.now ≡ true }
    ensures sentences { IfOk result (λ list. list
        ≡ sentences_for schema.now query.now question.now given.now) }
    ensures fit { IfOk result (λ list. list_all (λ s. formula_fits schema.now s []) list
        ≡ true) }
{
    let mut sentences = Items::new(alloc);
    sentences.push(counter_sentence(alloc, schema, query, question, given)?)?;
    push_axioms(alloc, schema, &mut sentences)?;
    Ok(sentences)
}

/// The numbers of so many sentences, and how many they are. `NoMemory` where these have more than
/// 31 bits.
pub(crate) fn numbers_of(alloc: Global, count: usize) -> Result<Items<u32>, NoMemory>
    ensures numbers { IfOk result (λ numbers. numbers ≡ below (suc count)) }
    ensures few { OnOk result (count < 2 ^ 31) }
{
    let mut numbers = Items::new(alloc);
    if count >= 1 << 31 {
        return Err(NoMemory);
    }
    for number in 0..count as u32 + 1 {
        numbers.push(number)?;
    }
    Ok(numbers)
}

/// Whether each sentence has fewer than 2^32 nodes.
pub(crate) fn have_few_nodes(sentences: &[Sentence]) -> bool
    ensures few { result ≡ true → HaveFewNodes sentences.now }
    ensures many { result ≡ false → HasManyNodes sentences.now }
{
    for sentence in sentences {
        if sentence.nodes() >= 1 << 32 {
            return false;
        }
    }
    true
}

/// Each formula is a sentence. It reads them, and does nothing else.
pub(crate) fn formulas_are_sentences(sentences: &[Sentence])
    ensures { All (λ s. is_sentence s ≡ true) sentences.now }
{
    for sentence in sentences {
        sentence.formula();
    }
}
