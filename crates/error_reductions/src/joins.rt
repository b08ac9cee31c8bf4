//! E5: the counter sentence that speaks of a needless join.
ghost use Rattle.std.specs.Prelude.{◌≡◌, ◌<◌, ◌≤◌, ◌+◌, ◌-◌, ◌∷◌, [], true, length, map, insert, remove, slice_get, unwrap_or, IfOk};
ghost use Rattle.std.specs.List.{filter};
ghost use Rattle.lint_core.specs.Asked.{is_asked, main_condition, main_entries};
ghost use Rattle.lint_core.specs.Conjuncts.{conjuncts};
ghost use Rattle.lint_core.specs.Fits.{query_fits, tables_of};
ghost use Rattle.lint_core.specs.declared.query.Question.TheVariants.{NeedlessJoin};
ghost use Rattle.counter_laws.specs.Joins.{both_fit, no_row_formula, two_rows_formula, without_formulas};
ghost use Rattle.sort_formula.specs.Counters.{fits_at, join_counter, sentence_of};
ghost use Rattle.sort_formula.specs.Sides.{from_number};
ghost use Rattle.sort_formula.specs.Translation.{is_true_formula};
ghost use Rattle.sql_meaning.specs.Behind.{behind};
ghost use Rattle.error_reductions.specs.inner.Parts.{is_chosen};
ghost use Rattle.error_reductions.specs.inner.Stands.{AllStand};

use crate::joined::either;
use crate::scopes::{entry_count, from_number, main_scope, own_tables};
use counter_forms::asked_sentences_have_room;
use lint_base::{Items, NoMemory};
use lint_core::{Cond, Entry, Query, Schema, Scope};
use sort_formula::{Atom, Formula, exist_rows, exists, for_all, negate};
use sql_meaning::conjuncts;
use std::alloc::Global;
use truth_formula::is_true;

/// Whether the condition names the entry, or where `named` is false, whether it does not.
fn is_chosen(cond: &Cond, entry: u32, named: bool) -> bool
    ensures { result ≡ is_chosen entry named cond.now }
{
    if named {
        return cond.names(entry);
    }
    !cond.names(entry)
}

/// Those of the conditions that name the entry, or that do not.
fn chosen<'a>(
    alloc: Global,
    conds: &[&'a Cond],
    entry: u32,
    named: bool,
) -> Result<Vec<&'a Cond>, NoMemory>
    ensures { IfOk result (λ found.
        behind found.items ≡ filter (is_chosen entry named) (behind conds.now)) }
{
    let mut found = Vec::new(alloc);
    for cond in conds {
        if is_chosen(cond, entry, named) {
            found.push(*cond)?;
        }
    }
    Ok(found)
}

/// Each of the conditions is true.
fn each_true(
    alloc: Global,
    schema: &Schema,
    conds: &[&Cond],
    scope: &Scope,
) -> Result<Items<Formula>, NoMemory>
    requires { AllStand schema.now scope.now (behind conds.now) }
    ensures { IfOk result (λ parts. parts
        ≡ map (λ c. is_true_formula schema.now c scope.now) (behind conds.now)) }
{
    let mut parts = Items::new(alloc);
    for cond in conds {
        parts.push(is_true(alloc, schema, cond, scope)?)?;
    }
    Ok(parts)
}

/// The conjuncts of WHERE that name the entry, or that do not, are true.
fn conjuncts_true(
    alloc: Global,
    schema: &Schema,
    query: &Query,
    scope: &Scope,
    entry: u32,
    named: bool,
) -> Result<Items<Formula>, NoMemory>
    requires { AllStand schema.now scope.now (conjuncts (main_condition query.now)) }
    ensures { IfOk result (λ parts. parts ≡ map (λ c. is_true_formula schema.now c scope.now)
        (filter (is_chosen entry named) (conjuncts (main_condition query.now)))) }
{
    let conds = conjuncts(alloc, &query.block.cond)?;
    let chosen = chosen(alloc, conds.as_slice(), entry, named)?;
    each_true(alloc, schema, chosen.as_slice(), scope)
}

/// The variables of the entries: of this one the variable, of the others those from 0 on.
fn join_variables(
    alloc: Global,
    count: u32,
    entry: u32,
    variable: u32,
) -> Result<Items<u32>, NoMemory>
    requires { entry < count }
    ensures { IfOk result (λ variables. variables
        ≡ insert (from_number 0 (count - 1)) entry variable) }
{
    let mut variables = from_number(alloc, 0, count - 1)?.into_vec();
    variables.insert(entry as usize, variable)?;
    Ok(Items::from_vec(variables))
}

/// The scope in which the entry has this variable, and the others those from 0 on.
fn join_scope(
    alloc: Global,
    query: &Query,
    entry: u32,
    variable: u32,
    depth: u32,
) -> Result<Scope, NoMemory>
    requires few { length (main_entries query.now) ≤ 16 }
    requires entry { entry < length (main_entries query.now) }
    ensures { let own = tables_of (main_entries query.now) in
        IfOk result (λ scope. scope ≡ record {
          levels = insert (from_number 0 (length own - 1)) entry variable ∷ [];
          tables = own ∷ [];
          depth = depth;
        }) }
{
    let count = entry_count(query);
    let variables = join_variables(alloc, count, entry, variable)?;
    main_scope(alloc, query, variables, depth)
}

/// The conjuncts that name the entry are true, where it has this variable.
fn fits_at(
    alloc: Global,
    schema: &Schema,
    query: &Query,
    entry: u32,
    variable: u32,
    depth: u32,
) -> Result<Formula, NoMemory>
    requires fits { query_fits schema.now query.now ≡ true }
    requires entry { entry < length (main_entries query.now) }
    requires variable { variable < depth }
    requires others { length (main_entries query.now) ≤ depth + 1 }
    requires depth { depth ≤ 17 }
    ensures { IfOk result (λ formula. formula
        ≡ fits_at schema.now query.now entry variable depth) }
{
    asked_sentences_have_room();
    let scope = join_scope(alloc, query, entry, variable, depth)?;
    let parts = conjuncts_true(alloc, schema, query, &scope, entry, true)?;
    Ok(Formula::And(parts))
}

/// The table of an entry.
fn entry_table(query: &Query, entry: u32) -> u32
    ensures { result ≡ unwrap_or (slice_get (tables_of (main_entries query.now)) entry) 0 }
{
    match Entry::table_of(query.block.entries.as_slice(), entry) {
        Some(table) => table,
        None => 0,
    }
}

/// No row of the entry fits.
fn no_row_fits(
    alloc: Global,
    schema: &Schema,
    query: &Query,
    entry: u32,
) -> Result<Formula, NoMemory>
    requires fits { query_fits schema.now query.now ≡ true }
    requires entry { entry < length (main_entries query.now) }
    ensures { IfOk result (λ formula. formula ≡ no_row_formula schema.now query.now entry) }
{
    let count = entry_count(query);
    let fits = fits_at(alloc, schema, query, entry, count - 1, count)?;
    for_all(alloc, entry_table(query, entry), negate(alloc, &fits)?)
}

/// Two rows of the entry, behind those of the others, both fit and differ.
fn both_fit(alloc: Global, schema: &Schema, query: &Query, entry: u32) -> Result<Formula, NoMemory>
    requires fits { query_fits schema.now query.now ≡ true }
    requires entry { entry < length (main_entries query.now) }
    ensures { IfOk result (λ formula. formula ≡ both_fit schema.now query.now entry) }
{
    let count = entry_count(query);
    let mut parts = Items::new(alloc);
    parts.push(fits_at(alloc, schema, query, entry, count - 1, count + 1)?)?;
    parts.push(fits_at(alloc, schema, query, entry, count, count + 1)?)?;
    parts.push(Formula::Atom(Atom::Other {
        row: count - 1,
        other: count,
    }))?;
    Ok(Formula::And(parts))
}

/// Two rows of the entry fit.
fn two_rows_fit(
    alloc: Global,
    schema: &Schema,
    query: &Query,
    entry: u32,
) -> Result<Formula, NoMemory>
    requires fits { query_fits schema.now query.now ≡ true }
    requires entry { entry < length (main_entries query.now) }
    ensures { IfOk result (λ formula. formula ≡ two_rows_formula schema.now query.now entry) }
{
    let table = entry_table(query, entry);
    let fit = both_fit(alloc, schema, query, entry)?;
    exists(alloc, table, exists(alloc, table, fit)?)
}

/// The conjuncts that do not name the entry are true.
fn others_true(
    alloc: Global,
    schema: &Schema,
    query: &Query,
    entry: u32,
) -> Result<Items<Formula>, NoMemory>
    requires fits { query_fits schema.now query.now ≡ true }
    requires entry { entry < length (main_entries query.now) }
    requires others { 1 < length (main_entries query.now) }
    ensures { IfOk result (λ parts. parts ≡ without_formulas schema.now query.now entry) }
{
    asked_sentences_have_room();
    let count = entry_count(query);
    let scope = join_scope(alloc, query, entry, 0, count - 1)?;
    conjuncts_true(alloc, schema, query, &scope, entry, false)
}

/// The tables of the main entries without that of this one.
fn other_tables(alloc: Global, query: &Query, entry: u32) -> Result<Vec<u32>, NoMemory>
    requires { entry < length (main_entries query.now) }
    ensures { IfOk result (λ tables. tables.items
        ≡ remove (tables_of (main_entries query.now)) entry) }
{
    let mut tables = own_tables(alloc, query)?.into_vec();
    tables.remove(entry as usize);
    Ok(tables)
}

/// The counter sentence of E5: there is a row of each other main entry at which each conjunct is
/// true that does not name the entry, and with no row of the entry are all the others true, or
/// with two. `NoMemory` where there is no memory for it.
pub fn no_row_or_two(
    alloc: Global,
    schema: &Schema,
    query: &Query,
    entry: u32,
) -> Result<Formula, NoMemory>
    requires fits { query_fits schema.now query.now ≡ true }
    requires asked { is_asked schema.now query.now (NeedlessJoin entry) ≡ true }
    ensures { IfOk result (λ formula. formula
        ≡ sentence_of (join_counter schema.now query.now entry)) }
{
    let mut parts = others_true(alloc, schema, query, entry)?;
    let none = no_row_fits(alloc, schema, query, entry)?;
    let two = two_rows_fit(alloc, schema, query, entry)?;
    parts.push(either(alloc, none, two)?)?;
    let lead = other_tables(alloc, query, entry)?;
    exist_rows(alloc, lead.as_slice(), Formula::And(parts))
}
