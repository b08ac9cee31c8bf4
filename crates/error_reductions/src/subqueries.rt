//! E9 and E10: the counter sentences that speak of a subquery.
ghost use Rattle.std.specs.Prelude.{◌≡◌, ◌<◌, ◌+◌, ◌^◌, ◌∷◌, ◌++◌, [], true, length, slice_get, IfOk};
ghost use Rattle.std.specs.Option.{option_map_or};
ghost use Rattle.lint_core.specs.Asked.{is_asked, not_ins_of, scalars_of};
ghost use Rattle.lint_core.specs.Fits.{query_fits};
ghost use Rattle.lint_core.specs.declared.query.Question.TheVariants.{NullInNotIn, OneRow};
ghost use Rattle.question_truths.specs.Room.{entries_in};
ghost use Rattle.sort_formula.specs.Counters.{first_scope, last_level, no_counter, outer_levels, selects_null, sentence_of, two_rows};
ghost use Rattle.sort_formula.specs.Sides.{all_of, from_number, numbered_from};
ghost use Rattle.sql_meaning.specs.Answered.{subquery_of};
ghost use Rattle.truth_formula.specs.Scopes.{CanStand};
ghost use Rattle.error_reductions.specs.inner.Parts.{two_at};
ghost use Rattle.error_reductions.specs.inner.Stands.{TwoStand};

use crate::columns::is_null;
use crate::joined::{both, some_other};
use crate::scopes::{
    all_tables, copy_levels, count_entries, from_number, main_tables, numbered, push_numbers,
};
use counter_forms::asked_sentences_have_room;
use lint_base::{Items, NoMemory};
use lint_core::{Cond, Query, Schema, Scope};
use sort_formula::{Formula, exist_rows};
use sql_meaning::{Subquery, not_in_subquery, scalar_subquery};
use std::alloc::Global;
use truth_formula::is_true;

/// All levels but the last.
fn outer_levels(tables: &[Items<u32>]) -> &[Items<u32>]
    ensures { result.now ≡ outer_levels tables.now }
{
    match tables.split_last() {
        Some((_, outer)) => outer,
        None => &[],
    }
}

/// The last level.
fn last_level(tables: &[Items<u32>]) -> &[u32]
    ensures { result.now ≡ last_level tables.now }
{
    match tables.split_last() {
        Some((own, _)) => own.as_slice(),
        None => &[],
    }
}

/// The scope of a subquery, below so many more quantifiers.
fn first_scope(alloc: Global, tables: &[Items<u32>], more: u32) -> Result<Scope, NoMemory>
    requires { entries_in tables.now + more < 2 ^ 32 }
    ensures { IfOk result (λ scope. scope ≡ record {
      levels = numbered_from 0 tables.now;
      tables = tables.now;
      depth = entries_in tables.now + more;
    }) }
{
    Ok(Scope {
        levels: numbered(alloc, tables, 0)?,
        tables: copy_levels(alloc, tables)?,
        depth: count_entries(tables) + more,
    })
}

/// The scope of a second row, in the same rows outside.
fn second_scope(alloc: Global, tables: &[Items<u32>], count: u32) -> Result<Scope, NoMemory>
    requires room { entries_in tables.now + count < 2 ^ 32 }
    requires outside { entries_in (outer_levels tables.now) < 2 ^ 32 }
    ensures { IfOk result (λ scope. scope ≡ record {
      levels = numbered_from 0 (outer_levels tables.now)
          ++ from_number (entries_in tables.now) count ∷ [];
      tables = tables.now;
      depth = entries_in tables.now + count;
    }) }
{
    let first = count_entries(tables);
    let mut levels = numbered(alloc, outer_levels(tables), 0)?;
    levels.push(from_number(alloc, first, count)?)?;
    Ok(Scope {
        levels,
        tables: copy_levels(alloc, tables)?,
        depth: first + count,
    })
}

/// The condition is true in both scopes, and two rows differ: of the variables from the first on,
/// and of as many behind them.
fn two_rows_body(
    alloc: Global,
    schema: &Schema,
    cond: &Cond,
    one: &Scope,
    two: &Scope,
    first: u32,
    count: u32,
) -> Result<Formula, NoMemory>
    requires one { CanStand schema.now cond.now one.now }
    requires two { CanStand schema.now cond.now two.now }
    requires room { first + count + count < 2 ^ 32 }
    ensures { IfOk result (λ formula. formula
        ≡ two_at schema.now cond.now one.now two.now first count) }
{
    let mut parts = Items::new(alloc);
    parts.push(is_true(alloc, schema, cond, one)?)?;
    parts.push(is_true(alloc, schema, cond, two)?)?;
    parts.push(some_other(alloc, first, first + count, count)?)?;
    Ok(Formula::And(parts))
}

/// The tables of all levels, and those of the last again.
fn two_rows_lead(alloc: Global, tables: &[Items<u32>]) -> Result<Items<u32>, NoMemory>
    ensures { IfOk result (λ lead. lead ≡ all_of tables.now ++ last_level tables.now) }
{
    let mut lead = all_tables(alloc, tables)?;
    push_numbers(&mut lead, last_level(tables))?;
    Ok(lead)
}

/// There are two rows of the subquery, in the same rows outside.
fn two_rows_of(alloc: Global, schema: &Schema, sub: &Subquery) -> Result<Formula, NoMemory>
    requires { TwoStand schema.now (subquery_of sub.now) }
    ensures { IfOk result (λ formula. formula
        ≡ sentence_of (two_rows schema.now (subquery_of sub.now))) }
{
    let tables = sub.tables.as_slice();
    let count = last_level(tables).len() as u32;
    let one = first_scope(alloc, tables, count)?;
    let two = second_scope(alloc, tables, count)?;
    let first = count_entries(outer_levels(tables));
    let body = two_rows_body(alloc, schema, &sub.block.cond, &one, &two, first, count)?;
    let lead = two_rows_lead(alloc, tables)?;
    exist_rows(alloc, lead.as_slice(), body)
}

/// There is a row of the subquery that selects NULL.
fn selects_null_of(alloc: Global, schema: &Schema, sub: &Subquery) -> Result<Formula, NoMemory>
    requires { CanStand schema.now (subquery_of sub.now).cond
        (first_scope schema.now (subquery_of sub.now)) }
    ensures { IfOk result (λ formula. formula
        ≡ sentence_of (selects_null schema.now (subquery_of sub.now))) }
{
    let tables = sub.tables.as_slice();
    let scope = first_scope(alloc, tables, 0)?;
    let chosen = is_true(alloc, schema, &sub.block.cond, &scope)?;
    let body = both(alloc, chosen, is_null(alloc, &scope, sub.item))?;
    let lead = all_tables(alloc, tables)?;
    exist_rows(alloc, lead.as_slice(), body)
}

/// The counter sentence of E9: there are rows of all levels that the scalar subquery sees, and a
/// second row of each of its own entries, its WHERE is true of both, and some entry has two
/// different rows. `NoMemory` where there is no memory for it.
pub fn two_rows(
    alloc: Global,
    schema: &Schema,
    query: &Query,
    sub: u32,
) -> Result<Formula, NoMemory>
    requires fits { query_fits schema.now query.now ≡ true }
    requires asked { is_asked schema.now query.now (OneRow sub) ≡ true }
    ensures { IfOk result (λ formula. formula ≡ sentence_of (option_map_or (two_rows schema.now)
        (slice_get (scalars_of query.now) sub) no_counter)) }
{
    asked_sentences_have_room();
    let levels = main_tables(alloc, query)?;
    match scalar_subquery(alloc, &query.block.cond, levels.as_slice(), sub)? {
        Some(found) => two_rows_of(alloc, schema, &found),
        None => unreachable!(),
    }
}

/// The counter sentence of E10: there are rows of all levels that the NOT IN subquery sees, at
/// which its WHERE is true, and what it selects is NULL. `NoMemory` where there is no memory for
/// it.
pub fn selects_null(
    alloc: Global,
    schema: &Schema,
    query: &Query,
    sub: u32,
) -> Result<Formula, NoMemory>
    requires fits { query_fits schema.now query.now ≡ true }
    requires asked { is_asked schema.now query.now (NullInNotIn sub) ≡ true }
    ensures { IfOk result (λ formula. formula
        ≡ sentence_of (option_map_or (selects_null schema.now)
        (slice_get (not_ins_of query.now) sub) no_counter)) }
{
    asked_sentences_have_room();
    let levels = main_tables(alloc, query)?;
    match not_in_subquery(alloc, &query.block.cond, levels.as_slice(), sub)? {
        Some(found) => selects_null_of(alloc, schema, &found),
        None => unreachable!(),
    }
}
