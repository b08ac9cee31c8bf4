//! The parts of an Or: the sentence that they make, and the rows for which the Exists ask that lead
//! a part.
ghost use Rattle.std.specs.Prelude.{◌≡◌, ◌<◌, ◌≤◌, ◌+◌, ◌^◌, map, sum, length, take, suc, IfOk};
ghost use Rattle.sort_formula.specs.declared.formula.Formula.TheVariants as f;
ghost use Rattle.sort_formula.specs.Nodes.{nodes};
ghost use Rattle.instantiate.specs.Plain.{plain_row};
ghost use Rattle.witness_db.specs.Leading.{place_for};
ghost use Rattle.witness_db.specs.Parts.{part_node, places_from};
ghost use Rattle.lint_engine.specs.inner.Parts.{AreRowsOf, IsLedBy};

use crate::sentences::formulas_are_sentences;
use instantiate::term_number;
use lint_base::{Items, NoMemory};
use sort_formula::{Formula, Sentence};
use sorted_skolem::RowTerm;
use std::alloc::Global;

fn copied(alloc: Global, parts: &[Sentence]) -> Result<Items<Formula>, NoMemory>
    ensures { IfOk result (λ copies. copies ≡ parts.now) }
{
    let mut copies = Items::new(alloc);
    for part in parts {
        copies.push(part.formula().copy(alloc)?)?;
    }
    Ok(copies)
}

/// The Or of the parts.
#[tactic(auto, using(crate::proofs::OrParts::or_is_sentence))]
pub(crate) fn either(alloc: Global, parts: &[Sentence]) -> Result<Sentence, NoMemory>
    ensures { IfOk result (λ sentence. sentence ≡ f.Or parts.now) }
{
    formulas_are_sentences(parts);
    match Sentence::new(Formula::Or(copied(alloc, parts)?)) {
        Some(sentence) => Ok(sentence),
        None => unreachable!(),
    }
}

/// The node of the Or at which the part of this number stands.
fn node_of(parts: &[Sentence], part: usize) -> usize
    requires few { nodes (f.Or parts.now) < 2 ^ 32 }
    requires there { part ≤ length parts.now }
    ensures { result ≡ part_node parts.now part }
{
    let mut node = 1;
    for sentence in &parts[..part] {
        node += sentence.nodes() as usize;
    }
    node
}

/// How many Exists lead the formula.
fn leading(formula: &Formula) -> usize
    requires few { nodes formula.now < 2 ^ 32 }
    ensures led { IsLedBy formula.now result }
    ensures low { result < nodes formula.now }
{
    match formula {
        Formula::Exists { body, .. } => leading(body.get()) + 1,
        _ => 0,
    }
}

/// The place of the row for which a node of the first sentence asks; 0 where it has none.
fn place_at(terms: &[RowTerm], places: &[Option<u32>], node: usize) -> u32
    requires { length terms.now ≤ 512 }
    ensures { result ≡ place_for places.now (plain_row terms.now 0 node) }
{
    match places.get(term_number(terms, 0, node, &[]) as usize) {
        Some(Some(place)) => *place,
        _ => 0,
    }
}

/// The places of the rows for which so many nodes of the first sentence ask.
fn places_from(
    alloc: Global,
    terms: &[RowTerm],
    places: &[Option<u32>],
    node: usize,
    count: usize,
) -> Result<Items<u32>, NoMemory>
    requires terms { length terms.now ≤ 512 }
    requires node { node < 2 ^ 33 }
    requires count { count < 2 ^ 33 }
    ensures { IfOk result (λ rows. rows ≡ places_from terms.now places.now node count) }
{
    let mut rows = Items::new(alloc);
    for number in 0..count {
        rows.push(place_at(terms, places, node + number))?;
    }
    Ok(rows)
}

/// The places of the rows for which the Exists ask that lead the part of this number, in a problem
/// whose first sentence is the Or.
pub(crate) fn rows_of(
    alloc: Global,
    terms: &[RowTerm],
    places: &[Option<u32>],
    parts: &[Sentence],
    part: usize,
) -> Result<Items<u32>, NoMemory>
    requires terms { length terms.now ≤ 512 }
    requires few { nodes (f.Or parts.now) < 2 ^ 32 }
    requires there { part < length parts.now }
    ensures { IfOk result (AreRowsOf terms.now places.now parts.now part) }
{
    let count = leading(parts[part].formula());
    let node = node_of(parts, part);
    let rows = places_from(alloc, terms, places, node, count)?;
    Ok(rows)
}
