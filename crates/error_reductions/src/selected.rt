//! E1, E3, E4 and E8: the counter sentences that speak of one row at which WHERE is true.
ghost use Rattle.std.specs.Prelude.{◌≡◌, ◌≤◌, ◌∷◌, [], true, false, length, slice_get, IfOk};
ghost use Rattle.std.specs.Option.{option_map_or};
ghost use Rattle.lint_core.specs.Asked.{is_asked, is_written_column, main_entries};
ghost use Rattle.lint_core.specs.Fits.{query_fits, tables_of};
ghost use Rattle.lint_core.specs.declared.query.Question.TheVariants.{Duplicate};
ghost use Rattle.sort_formula.specs.Counters.{differs_from, item_term, not_distinct, of_own, scope, sentence_of, where_formula, where_with};
ghost use Rattle.sort_formula.specs.Negated.{negated};
ghost use Rattle.sort_formula.specs.Sides.{from_number};
ghost use Rattle.sort_formula.specs.declared.formula.Atom.TheVariants as atom;
ghost use Rattle.sort_formula.specs.declared.formula.Formula.TheVariants as f;
ghost use Rattle.error_reductions.specs.inner.Parts.{alike, another_number, another_text, another_value};

use crate::columns::{Column, item_column};
use crate::joined::{both, some_own};
use crate::scopes::{from_number, main_scope};
use lint_base::{Items, NoMemory, Str};
use lint_core::{Query, Schema, Scope, Value};
use question_truths::{parts_of_queries_fit, queries_have_room};
use sort_formula::{Atom, Cell, Formula, Side, negate};
use std::alloc::Global;
use truth_formula::is_true;

/// The scope of the main entries, with the variables from 0 on.
pub(crate) fn own_scope(alloc: Global, query: &Query) -> Result<Scope, NoMemory>
    requires { length (main_entries query.now) ≤ 16 }
    ensures { IfOk result (λ made. made ≡ record {
      levels = from_number 0 (length (main_entries query.now)) ∷ [];
      tables = tables_of (main_entries query.now) ∷ [];
      depth = length (main_entries query.now);
    }) }
{
    let count = query.block.entries.as_slice().len() as u32;
    main_scope(alloc, query, from_number(alloc, 0, count)?, count)
}

/// WHERE is true.
pub(crate) fn where_formula(
    alloc: Global,
    schema: &Schema,
    query: &Query,
) -> Result<Formula, NoMemory>
    requires { query_fits schema.now query.now ≡ true }
    ensures { IfOk result (λ formula. formula ≡ where_formula schema.now query.now) }
{
    parts_of_queries_fit();
    queries_have_room();
    let scope = own_scope(alloc, query)?;
    is_true(alloc, schema, &query.block.cond, &scope)
}

/// The counter sentence of E1: there is a row of each main entry at which WHERE is true.
/// `NoMemory` where there is no memory for it.
pub fn some_row(alloc: Global, schema: &Schema, query: &Query) -> Result<Formula, NoMemory>
    requires { query_fits schema.now query.now ≡ true }
    ensures { IfOk result (λ formula. formula
        ≡ sentence_of (of_own schema.now query.now (where_formula schema.now query.now))) }
{
    let chosen = where_formula(alloc, schema, query)?;
    some_own(alloc, query, chosen)
}

/// There is a row at which more holds.
fn some_row_with(
    alloc: Global,
    schema: &Schema,
    query: &Query,
    more: Formula,
) -> Result<Formula, NoMemory>
    requires { query_fits schema.now query.now ≡ true }
    ensures { IfOk result (λ formula. formula
        ≡ sentence_of (where_with schema.now query.now (more ∷ []))) }
{
    let chosen = where_formula(alloc, schema, query)?;
    some_own(alloc, query, both(alloc, chosen, more)?)
}

/// The counter sentence of E8: there is a row of each main entry at which WHERE is true, and the
/// two entries have different rows. `NoMemory` where there is no memory for it.
pub fn rows_differ(
    alloc: Global,
    schema: &Schema,
    query: &Query,
    entry: u32,
    other: u32,
) -> Result<Formula, NoMemory>
    requires { query_fits schema.now query.now ≡ true }
    ensures { IfOk result (λ formula. formula
        ≡ sentence_of (where_with schema.now query.now (f.Atom (atom.Other entry other) ∷ []))) }
{
    let differ = Formula::Atom(Atom::Other { row: entry, other });
    some_row_with(alloc, schema, query, differ)
}

/// Two columns are not distinct.
pub(crate) fn not_distinct(alloc: Global, one: Column, other: Column) -> Result<Formula, NoMemory>
    ensures { IfOk result (λ formula. formula ≡ alike one other) }
{
    one.cell.not_distinct(alloc, other.cell, one.texts)
}

/// The counter sentence of E4: there is a row of each main entry at which WHERE is true, and the
/// two items are distinct. `NoMemory` where there is no memory for it.
pub fn items_differ(
    alloc: Global,
    schema: &Schema,
    query: &Query,
    item: u32,
    other: u32,
) -> Result<Formula, NoMemory>
    requires fits { query_fits schema.now query.now ≡ true }
    requires asked { is_asked schema.now query.now (Duplicate item other) ≡ true }
    ensures { IfOk result (λ formula. formula
        ≡ sentence_of (where_with schema.now query.now
        (negated (not_distinct schema.now (scope schema.now query.now)
        (item_term schema.now query.now item) (scope schema.now query.now)
        (item_term schema.now query.now other)) ∷ []))) }
{
    let scope = own_scope(alloc, query)?;
    let one = item_column(schema, query, &scope, item);
    let two = item_column(schema, query, &scope, other);
    let alike = not_distinct(alloc, one, two)?;
    let differ = negate(alloc, &alike)?;
    some_row_with(alloc, schema, query, differ)
}

/// The cell is NULL, or has another number.
fn another_number(alloc: Global, cell: Cell, number: i64) -> Result<Formula, NoMemory>
    ensures { IfOk result (λ formula. formula ≡ another_number cell number) }
{
    let mut ways = Items::new(alloc);
    ways.push(cell.is_null())?;
    ways.push(Formula::Atom(Atom::Le {
        left: cell.side(),
        right: Side::Zero,
        most: i128::from(number) - 1,
    }))?;
    ways.push(Formula::Atom(Atom::Le {
        left: Side::Zero,
        right: cell.side(),
        most: -i128::from(number) - 1,
    }))?;
    Ok(Formula::Or(ways))
}

/// The cell is NULL, or has another text.
fn another_text(alloc: Global, cell: Cell, text: &Str) -> Result<Formula, NoMemory>
    ensures { IfOk result (λ formula. formula ≡ another_text cell text.now) }
{
    let mut ways = Items::new(alloc);
    ways.push(cell.is_null())?;
    ways.push(Formula::Atom(Atom::TextNe {
        left: cell.side(),
        right: Side::Text(text.copy(alloc)?),
    }))?;
    Ok(Formula::Or(ways))
}

/// The column has another value. `None` where each of its values is another.
fn another_value(alloc: Global, column: Column, given: &Value) -> Result<Option<Formula>, NoMemory>
    ensures { IfOk result (λ found. found ≡ another_value column given.now) }
{
    match given {
        Value::Null => Ok(Some(column.cell.not_null())),
        Value::Int(number) => {
            if column.texts {
                return Ok(None);
            }
            Ok(Some(another_number(alloc, column.cell, *number)?))
        }
        Value::Text(text) => {
            if !column.texts {
                return Ok(None);
            }
            Ok(Some(another_text(alloc, column.cell, text)?))
        }
    }
}

/// The counter sentence of E3: there is a row of each main entry at which WHERE is true, and the
/// item has another value than this. `NoMemory` where there is no memory for it.
pub fn item_differs(
    alloc: Global,
    schema: &Schema,
    query: &Query,
    item: u32,
    given: &Value,
) -> Result<Formula, NoMemory>
    requires fits { query_fits schema.now query.now ≡ true }
    requires column { option_map_or is_written_column (slice_get query.now.items item) false ≡ true }
    ensures { IfOk result (λ formula. formula
        ≡ sentence_of (of_own schema.now query.now
        (differs_from schema.now query.now (item_term schema.now query.now item) given.now))) }
{
    let scope = own_scope(alloc, query)?;
    let column = item_column(schema, query, &scope, item);
    match another_value(alloc, column, given)? {
        Some(differs) => some_row_with(alloc, schema, query, differs),
        None => some_row(alloc, schema, query),
    }
}
