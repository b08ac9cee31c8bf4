//! The formulas of conditions, and the axioms of schemas.
ghost use Rattle.std.specs.Prelude.{◌≡◌, ◌∷◌, [], true, IfOk};
ghost use Rattle.lint_core.specs.Fits.{query_fits};

use crate::bindings::binding;
use crate::notation::shown;
use crate::placing::can_be_placed;
use case_pages::said;
use constraint_axioms::{Axiom, axioms};
use lint_base::{Items, NoMemory};
use lint_core::{Query, Schema};
use sort_formula::{Formula, Sentence, negate, place};
use sqlite_items::Boxed;
use std::alloc::Global;
use truth_formula::{Scope, is_false, is_true};

// ---- axioms

/// An axiom, with the place of the foreign key that it states.
fn shown_axiom(alloc: Global, stated: &Axiom) -> Result<String, NoMemory> {
    let mut out = shown(alloc, stated.sentence.formula())?;
    if let Some(key) = stated.key {
        write!(out, " key {}.{}", key.table, key.index)?;
    }
    Ok(out)
}

/// The axiom of the schema with the number of the text, counted from 1, as a certificate's facts
/// are; without a number, how many there are.
pub(crate) fn axiom(alloc: Global, schema: &Schema, text: &str) -> Result<String, NoMemory> {
    let list = axioms(alloc, schema)?;
    if text.is_empty() {
        return Ok(format!(in alloc; "{}", list.len())?);
    }
    let number = text.parse::<usize>().unwrap_or(0);
    match list.get(number.wrapping_sub(1)) {
        Some(stated) => shown_axiom(alloc, stated),
        None => said(alloc, "no such axiom"),
    }
}

// ---- conditions

/// What is answered of a query from another number of tables than one.
const OTHER: &str = "not from one table";

/// One level with one entry.
fn level(alloc: Global, entry: u32) -> Result<Items<Items<u32>>, NoMemory>
    ensures { IfOk result (λ levels. levels ≡ (entry ∷ []) ∷ []) }
{
    let mut entries = Items::new(alloc);
    entries.push(entry)?;
    let mut levels = Items::new(alloc);
    levels.push(entries)?;
    Ok(levels)
}

/// The formula that holds where the condition of a query that fits is true, or the one that holds
/// where it is false. None for a query that is not from one table.
fn fitting_formula(
    alloc: Global,
    schema: &Schema,
    query: &Query,
    holds: bool,
) -> Result<Option<Formula>, NoMemory>
    requires { query_fits schema.now query.now ≡ true }
{
    let [entry] = query.block.entries.as_slice() else {
        return Ok(None);
    };
    let scope = Scope {
        levels: level(alloc, 0)?,
        tables: level(alloc, entry.table)?,
        depth: 1,
    };
    let formula = if holds {
        is_true(alloc, schema, &query.block.cond, &scope)?
    } else {
        is_false(alloc, schema, &query.block.cond, &scope)?
    };
    Ok(Some(formula))
}

/// The formula that holds where the condition of a query from one table is true, or the one that
/// holds where it is false. None for other queries.
fn formula_of(
    alloc: Global,
    schema: &Schema,
    query: &Query,
    holds: bool,
) -> Result<Option<Formula>, NoMemory> {
    if query.fits(schema) {
        fitting_formula(alloc, schema, query, holds)
    } else {
        Ok(None)
    }
}

/// The formula that holds where the condition of a query from one table is true, or the one that
/// holds where it is false.
pub(crate) fn condition(
    alloc: Global,
    schema: &Schema,
    query: &Query,
    holds: bool,
) -> Result<String, NoMemory> {
    match formula_of(alloc, schema, query, holds)? {
        Some(formula) => shown(alloc, &formula),
        None => said(alloc, OTHER),
    }
}

/// The negation of the formula that holds where the condition is true.
pub(crate) fn negated(alloc: Global, schema: &Schema, query: &Query) -> Result<String, NoMemory> {
    match formula_of(alloc, schema, query, true)? {
        Some(formula) => shown(alloc, &negate(alloc, &formula)?),
        None => said(alloc, OTHER),
    }
}

// ---- a formula in another place

/// The formula that holds where the condition is true, in another place. The text is `NUMBERS at
/// DEPTH`.
pub(crate) fn placed(
    alloc: Global,
    schema: &Schema,
    query: &Query,
    text: &str,
) -> Result<String, NoMemory> {
    let Some(formula) = formula_of(alloc, schema, query, true)? else {
        return said(alloc, OTHER);
    };
    let (numbers, depth) = text.split_once(" at ").unwrap_or((text, ""));
    let levels = binding(alloc, numbers)?.levels;
    let ([numbers], Ok(depth)) = (levels.as_slice(), depth.parse::<u32>()) else {
        return said(alloc, "no such place");
    };
    let numbers = numbers.as_slice();
    if !can_be_placed(&formula, numbers.len(), depth) {
        return said(alloc, "no such place");
    }
    shown(alloc, &place(alloc, &formula, numbers, depth)?)
}

// ---- sentences

/// How many nodes the sentence has, and whether it fits the schema.
fn shown_sentence(
    alloc: Global,
    schema: &Schema,
    sentence: Option<Sentence>,
) -> Result<String, NoMemory> {
    let Some(sentence) = sentence else {
        return said(alloc, "no sentence");
    };
    let nodes = sentence.nodes();
    if sentence.fits(schema) {
        Ok(format!(in alloc; "nodes {nodes}, fits")?)
    } else {
        Ok(format!(in alloc; "nodes {nodes}, does not fit")?)
    }
}

/// Of a copy of the formula that holds where the condition is true, under `Exists` the query's
/// table: how many nodes the sentence has, and whether it fits the schema. With the text `alone`,
/// of the copy without the `Exists`.
pub(crate) fn sentence(
    alloc: Global,
    schema: &Schema,
    query: &Query,
    text: &str,
) -> Result<String, NoMemory> {
    let (Some(formula), [entry]) = (
        formula_of(alloc, schema, query, true)?,
        query.block.entries.as_slice(),
    ) else {
        return said(alloc, OTHER);
    };
    let copy = formula.copy(alloc)?;
    if text == "alone" {
        return shown_sentence(alloc, schema, Sentence::new(copy));
    }
    let whole = Formula::Exists {
        table: entry.table,
        body: Boxed::new(alloc, copy)?,
    };
    shown_sentence(alloc, schema, Sentence::new(whole))
}
