//! E2: the counter sentence that speaks of DISTINCT.
ghost use Rattle.std.specs.Prelude.{◌≡◌, ◌≤◌, ◌+◌, ◌∷◌, ◌++◌, [], true, length, map, if◌then◌else◌, IfOk, OnOk};
ghost use Rattle.std.specs.List.{filter};
ghost use Rattle.lint_core.specs.Asked.{main_condition, main_entries};
ghost use Rattle.lint_core.specs.Fits.{query_fits, tables_of};
ghost use Rattle.lint_core.specs.Subqueries.{is_column};
ghost use Rattle.lint_core.specs.declared.query.Item.{Item as Selected};
ghost use Rattle.sort_formula.specs.Counters.{distinct_counter, not_distinct, sentence_of};
ghost use Rattle.sort_formula.specs.Sides.{from_number};
ghost use Rattle.truth_formula.specs.Scopes.{CanStand};
ghost use Rattle.error_reductions.specs.inner.Parts.{twice_at};

use crate::columns::column_of;
use crate::joined::some_other;
use crate::scopes::{entry_count, from_number, main_scope, own_tables, push_numbers};
use crate::selected::not_distinct;
use lint_base::{Items, NoMemory};
use lint_core::{Item, Query, Schema, Scope, Term};
use question_truths::{parts_of_queries_fit, queries_have_room};
use sort_formula::{Formula, exist_rows};
use std::alloc::Global;
use truth_formula::is_true;

/// Adds that a term has in two scopes values that are not distinct, if it is a column.
fn push_alike(
    alloc: Global,
    schema: &Schema,
    one: &Scope,
    two: &Scope,
    term: &Term,
    parts: &mut Items<Formula>,
) -> Result<(), NoMemory>
    ensures { OnOk result (parts.new ≡ parts.old ++ (if is_column term.now
        then not_distinct schema.now one.now term.now two.now term.now ∷ [] else [])) }
{
    let Some(column) = column_of(schema, one, term) else {
        return Ok(());
    };
    let Some(other) = column_of(schema, two, term) else {
        return Ok(());
    };
    parts.push(not_distinct(alloc, column, other)?)
}

/// Adds that the items are not distinct in two scopes.
fn push_all_alike(
    alloc: Global,
    schema: &Schema,
    one: &Scope,
    two: &Scope,
    items: &[Item],
    parts: &mut Items<Formula>,
) -> Result<(), NoMemory>
    ensures { OnOk result (parts.new ≡ parts.old
        ++ map (λ (i : Selected). not_distinct schema.now one.now i.term two.now i.term)
        (filter (λ (i : Selected). is_column i.term) items.now)) }
{
    for item in items {
        push_alike(alloc, schema, one, two, &item.term, parts)?;
    }
    Ok(())
}

/// The scope of the main entries' rows from this variable on, of twice as many.
fn twice_scope(alloc: Global, query: &Query, first: u32) -> Result<Scope, NoMemory>
    requires few { length (main_entries query.now) ≤ 16 }
    requires first { first ≤ 16 }
    ensures { IfOk result (λ scope. scope ≡ record {
      levels = from_number first (length (main_entries query.now)) ∷ [];
      tables = tables_of (main_entries query.now) ∷ [];
      depth = length (main_entries query.now) + length (main_entries query.now);
    }) }
{
    let count = query.block.entries.as_slice().len() as u32;
    main_scope(
        alloc,
        query,
        from_number(alloc, first, count)?,
        count + count,
    )
}

/// WHERE is true of both rows, they differ, and they give rows that are not distinct.
fn twice_body(
    alloc: Global,
    schema: &Schema,
    query: &Query,
    one: &Scope,
    two: &Scope,
    count: u32,
) -> Result<Formula, NoMemory>
    requires one { CanStand schema.now (main_condition query.now) one.now }
    requires two { CanStand schema.now (main_condition query.now) two.now }
    requires few { count ≤ 16 }
    ensures { IfOk result (λ formula. formula
        ≡ twice_at schema.now query.now one.now two.now count) }
{
    let mut parts = Items::new(alloc);
    parts.push(is_true(alloc, schema, &query.block.cond, one)?)?;
    parts.push(is_true(alloc, schema, &query.block.cond, two)?)?;
    parts.push(some_other(alloc, 0, count, count)?)?;
    push_all_alike(alloc, schema, one, two, query.items.as_slice(), &mut parts)?;
    Ok(Formula::And(parts))
}

/// The tables of the main entries, twice.
fn own_twice(alloc: Global, query: &Query) -> Result<Items<u32>, NoMemory>
    ensures { IfOk result (λ tables. tables
        ≡ tables_of (main_entries query.now) ++ tables_of (main_entries query.now)) }
{
    let own = own_tables(alloc, query)?;
    let mut lead = own_tables(alloc, query)?;
    push_numbers(&mut lead, own.as_slice())?;
    Ok(lead)
}

/// The counter sentence of E2: two different bindings, at which WHERE is true, give rows that are
/// not distinct. `NoMemory` where there is no memory for it.
pub fn twice_one_row(alloc: Global, schema: &Schema, query: &Query) -> Result<Formula, NoMemory>
    requires { query_fits schema.now query.now ≡ true }
    ensures { IfOk result (λ formula. formula
        ≡ sentence_of (distinct_counter schema.now query.now)) }
{
    parts_of_queries_fit();
    queries_have_room();
    let count = entry_count(query);
    let one = twice_scope(alloc, query, 0)?;
    let two = twice_scope(alloc, query, count)?;
    let body = twice_body(alloc, schema, query, &one, &two, count)?;
    let lead = own_twice(alloc, query)?;
    exist_rows(alloc, lead.as_slice(), body)
}
