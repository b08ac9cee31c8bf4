//! The points of a counter: the places of the rows that the leading Exists ask for.
ghost use Rattle.std.specs.Prelude.{◌≡◌, ◌≤◌, ◌<◌, ◌^◌, ◌-◌, ◌∷◌, ◌++◌, [], ℕ, List, length, drop, take, insert, nat_lt, true, suc, None, IfOk, OnOk};
ghost use Rattle.lint_core.specs.declared.database.Value.{Value};
ghost use Rattle.lint_core.specs.declared.query.Question.TheVariants.{OneRow, Empty, NeedlessDistinct, NeedlessJoin, NullInNotIn};
ghost use Rattle.lint_core.specs.declared.schema.Table.{Table};
ghost use Rattle.lint_core.specs.Asked.{is_asked, main_entries};
ghost use Rattle.lint_core.specs.Fits.{main_tables, tables_of};
ghost use Rattle.sort_formula.specs.CounterPoints.{in_levels, second_binding};
ghost use Rattle.sort_formula.specs.Counters.{counter_sentence, last_level, outer_levels};
ghost use Rattle.sort_formula.specs.Nodes.{nodes};
ghost use Rattle.sort_formula.specs.Sides.{all_of};
ghost use Rattle.instantiate.specs.Plain.{plain_row};
ghost use Rattle.witness_db.specs.Leading.{leading_places, place_for, place_of};
ghost use Rattle.witness_db.specs.inner.Fitting.{ArePoints, fitting_of, one_binding, pair_node, two_bindings, two_places};

use crate::formulas::last_way;
use instantiate::term_number;
use lint_base::{Items, NoMemory};
use lint_core::{Binding, Points, Query, Question};
use sort_formula::Sentence;
use sorted_skolem::RowTerm;
use sql_meaning::{not_in_subquery, scalar_subquery};
use std::alloc::Global;

/// The row term that a node of the first sentence asks for, under no Forall.
fn plain_row(terms: &[RowTerm], node: usize) -> u32
    requires { length terms.now ≤ 512 }
    ensures { result ≡ plain_row terms.now 0 node }
{
    term_number(terms, 0, node, &[])
}

/// The place of a row term, if it has one.
fn place_of(places: &[Option<u32>], row: u32) -> Option<u32>
    ensures { result ≡ place_of places.now row }
{
    match places.get(row as usize) {
        Some(place) => *place,
        None => None,
    }
}

/// The place of a row term; 0 where it has none.
fn place_for(places: &[Option<u32>], row: u32) -> u32
    ensures { result ≡ place_for places.now row }
{
    place_of(places, row).unwrap_or(0)
}

/// The places of the row terms for which the first nodes ask.
fn leading_places(
    alloc: Global,
    terms: &[RowTerm],
    places: &[Option<u32>],
    count: usize,
) -> Result<Items<u32>, NoMemory>
    requires { length terms.now ≤ 512 }
    ensures { IfOk result (λ leading. leading ≡ leading_places terms.now places.now count) }
{
    let mut leading = Items::new(alloc);
    for node in 0..count {
        leading.push(place_for(places, plain_row(terms, node)))?;
    }
    Ok(leading)
}

/// The places of the rows for which the node and the next one ask, if there is a row of the first.
fn two_places(terms: &[RowTerm], places: &[Option<u32>], node: usize) -> Option<(u32, u32)>
    requires few { length terms.now ≤ 512 }
    requires low { node < 2 ^ 32 }
    ensures { result ≡ two_places terms.now places.now node }
{
    match place_of(places, plain_row(terms, node)) {
        Some(place) => Some((place, place_for(places, plain_row(terms, node + 1)))),
        None => None,
    }
}

fn add_all(numbers: &mut Items<u32>, more: &[u32]) -> Result<(), NoMemory>
    ensures { OnOk result (numbers.new ≡ numbers.old ++ more.now) }
{
    for number in more {
        numbers.push(*number)?;
    }
    Ok(())
}

fn copied(alloc: Global, numbers: &[u32]) -> Result<Items<u32>, NoMemory>
    ensures { IfOk result (λ copy. copy ≡ numbers.now) }
{
    let mut copy = Items::new(alloc);
    add_all(&mut copy, numbers)?;
    Ok(copy)
}

/// The first places, so many as there are.
fn front(places: &[u32], count: usize) -> &[u32]
    ensures { result.now ≡ take count places.now }
{
    &places[..count.min(places.len())]
}

/// Those behind.
fn behind(places: &[u32], count: usize) -> &[u32]
    ensures { result.now ≡ drop count places.now }
{
    &places[count.min(places.len())..]
}

fn one_level(alloc: Global, places: &[u32]) -> Result<Binding, NoMemory>
    ensures { IfOk result (λ binding. binding ≡ record { levels = places.now ∷ [] }) }
{
    let mut levels = Items::new(alloc);
    levels.push(copied(alloc, places)?)?;
    Ok(Binding { levels })
}

/// The places in levels as long as these.
fn in_levels(
    alloc: Global,
    levels: &[Items<u32>],
    places: &[u32],
) -> Result<Items<Items<u32>>, NoMemory>
    ensures { IfOk result (λ found. found ≡ in_levels levels.now places.now) }
{
    let mut found = Items::new(alloc);
    let mut rest = places;
    for level in levels {
        let count = level.as_slice().len();
        found.push(copied(alloc, front(rest, count))?)?;
        rest = behind(rest, count);
    }
    Ok(found)
}

fn last_level(levels: &[Items<u32>]) -> &[u32]
    ensures { result.now ≡ last_level levels.now }
{
    match levels.split_last() {
        Some((last, _)) => last.as_slice(),
        None => &[],
    }
}

fn outer_levels(levels: &[Items<u32>]) -> &[Items<u32>]
    ensures { result.now ≡ outer_levels levels.now }
{
    match levels.split_last() {
        Some((_, outer)) => outer,
        None => &[],
    }
}

/// The entries of all levels.
fn all_of(alloc: Global, levels: &[Items<u32>]) -> Result<Items<u32>, NoMemory>
    ensures { IfOk result (λ all. all ≡ all_of levels.now) }
{
    let mut all = Items::new(alloc);
    for level in levels {
        add_all(&mut all, level.as_slice())?;
    }
    Ok(all)
}

/// The same places outside, and in the last level those from `first` on.
fn second_binding(
    alloc: Global,
    tables: &[Items<u32>],
    places: &[u32],
    first: usize,
) -> Result<Binding, NoMemory>
    requires { first ≡ length (all_of tables.now) }
    ensures { IfOk result (λ binding. binding ≡ second_binding tables.now places.now) }
{
    let mut levels = in_levels(alloc, outer_levels(tables), places)?;
    let own = front(behind(places, first), last_level(tables).len());
    levels.push(copied(alloc, own)?)?;
    Ok(Binding { levels })
}

fn own_tables(alloc: Global, query: &Query) -> Result<Items<u32>, NoMemory>
    ensures { IfOk result (λ tables. tables ≡ tables_of (main_entries query.now)) }
{
    let mut tables = Items::new(alloc);
    for entry in query.block.entries.as_slice() {
        tables.push(entry.table)?;
    }
    Ok(tables)
}

fn main_tables(alloc: Global, query: &Query) -> Result<Items<Items<u32>>, NoMemory>
    ensures { IfOk result (λ tables. tables ≡ main_tables query.now) }
{
    let mut tables = Items::new(alloc);
    tables.push(own_tables(alloc, query)?)?;
    Ok(tables)
}

/// Two rows of a subquery with these tables.
fn two_rows(
    alloc: Global,
    tables: &[Items<u32>],
    terms: &[RowTerm],
    places: &[Option<u32>],
) -> Result<Points, NoMemory>
    requires { length terms.now ≤ 512 }
    ensures { IfOk result (λ points. points
        ≡ two_bindings tables.now (leading_places terms.now places.now
        (length (all_of tables.now ++ last_level tables.now)))) }
{
    let mut lead = all_of(alloc, tables)?;
    let first = lead.as_slice().len();
    add_all(&mut lead, last_level(tables))?;
    let leading = leading_places(alloc, terms, places, lead.as_slice().len())?;
    let levels = in_levels(alloc, tables, leading.as_slice())?;
    let second = second_binding(alloc, tables, leading.as_slice(), first)?;
    Ok(Points::Two(Binding { levels }, second))
}

/// A row of a subquery with these tables.
fn one_row(
    alloc: Global,
    tables: &[Items<u32>],
    terms: &[RowTerm],
    places: &[Option<u32>],
) -> Result<Points, NoMemory>
    requires { length terms.now ≤ 512 }
    ensures { IfOk result (λ points. points ≡ one_binding tables.now
        (leading_places terms.now places.now (length (all_of tables.now)))) }
{
    let lead = all_of(alloc, tables)?;
    let leading = leading_places(alloc, terms, places, lead.as_slice().len())?;
    let levels = in_levels(alloc, tables, leading.as_slice())?;
    Ok(Points::One(Binding { levels }))
}

fn scalar_points(
    alloc: Global,
    query: &Query,
    sub: u32,
    terms: &[RowTerm],
    places: &[Option<u32>],
) -> Result<Points, NoMemory>
    requires { length terms.now ≤ 512 }
    ensures { IfOk result (ArePoints query.now terms.now places.now None (OneRow sub)) }
{
    let tables = main_tables(alloc, query)?;
    match scalar_subquery(alloc, &query.block.cond, tables.as_slice(), sub)? {
        Some(found) => two_rows(alloc, found.tables.as_slice(), terms, places),
        None => one_row(alloc, &[], terms, places),
    }
}

fn not_in_points(
    alloc: Global,
    query: &Query,
    sub: u32,
    terms: &[RowTerm],
    places: &[Option<u32>],
) -> Result<Points, NoMemory>
    requires { length terms.now ≤ 512 }
    ensures { IfOk result (ArePoints query.now terms.now places.now None (NullInNotIn sub)) }
{
    let tables = main_tables(alloc, query)?;
    match not_in_subquery(alloc, &query.block.cond, tables.as_slice(), sub)? {
        Some(found) => one_row(alloc, found.tables.as_slice(), terms, places),
        None => one_row(alloc, &[], terms, places),
    }
}

fn own_points(
    alloc: Global,
    query: &Query,
    terms: &[RowTerm],
    places: &[Option<u32>],
) -> Result<Points, NoMemory>
    requires { length terms.now ≤ 512 }
    ensures { IfOk result (ArePoints query.now terms.now places.now None Empty) }
{
    let count = query.block.entries.as_slice().len();
    let leading = leading_places(alloc, terms, places, count)?;
    Ok(Points::One(one_level(alloc, front(leading.as_slice(), count))?))
}

fn distinct_points(
    alloc: Global,
    query: &Query,
    terms: &[RowTerm],
    places: &[Option<u32>],
) -> Result<Points, NoMemory>
    requires { length terms.now ≤ 512 }
    ensures { IfOk result (ArePoints query.now terms.now places.now None NeedlessDistinct) }
{
    let own = own_tables(alloc, query)?;
    let count = own.as_slice().len();
    let mut lead = copied(alloc, own.as_slice())?;
    add_all(&mut lead, own.as_slice())?;
    let leading = leading_places(alloc, terms, places, lead.as_slice().len())?;
    let leading = leading.as_slice();
    let one = one_level(alloc, front(leading, count))?;
    let two = one_level(alloc, front(behind(leading, count), count))?;
    Ok(Points::Two(one, two))
}

/// The places with the row of the entry among them.
fn joined(alloc: Global, places: &[u32], entry: usize, row: u32) -> Result<Binding, NoMemory>
    requires { entry ≤ length places.now }
    ensures { IfOk result (λ binding. binding
        ≡ record { levels = insert places.now entry row ∷ [] }) }
{
    let mut joined = copied(alloc, places)?.into_vec();
    joined.insert(entry, row)?;
    let mut levels = Items::new(alloc);
    levels.push(Items::from_vec(joined))?;
    Ok(Binding { levels })
}

fn join_points(
    alloc: Global,
    query: &Query,
    entry: u32,
    sentence: &Sentence,
    terms: &[RowTerm],
    places: &[Option<u32>],
) -> Result<Points, NoMemory>
    requires few { length terms.now ≤ 512 }
    requires nodes { nodes sentence.now < 2 ^ 32 }
    requires entry { nat_lt entry (length (main_entries query.now)) ≡ true }
    ensures { (schema : List Table) (given : Value)
        → sentence.now ≡ counter_sentence schema query.now (NeedlessJoin entry) given
        → IfOk result (ArePoints query.now terms.now places.now
        (two_places terms.now places.now (pair_node schema query.now entry))
        (NeedlessJoin entry)) }
{
    let count = query.block.entries.as_slice().len() - 1;
    let leading = leading_places(alloc, terms, places, count)?;
    let others = front(leading.as_slice(), count);
    let entry = entry as usize;
    match two_places(terms, places, last_way(sentence, count)) {
        Some((row, other)) => Ok(Points::Two(
            joined(alloc, leading.as_slice(), entry, row)?,
            joined(alloc, leading.as_slice(), entry, other)?,
        )),
        None => Ok(Points::Without(one_level(alloc, others)?)),
    }
}

/// The points of a question whose counter sentence this is, from the places of its row terms.
pub(crate) fn points_at(
    alloc: Global,
    query: &Query,
    question: Question,
    sentence: &Sentence,
    terms: &[RowTerm],
    places: &[Option<u32>],
) -> Result<Points, NoMemory>
    requires few { length terms.now ≤ 512 }
    requires nodes { nodes sentence.now < 2 ^ 32 }
    requires asked { (schema : List Table) × (is_asked schema query.now question ≡ true) }
    ensures { (schema : List Table) (given : Value)
        → sentence.now ≡ counter_sentence schema query.now question given
        → IfOk result (ArePoints query.now terms.now places.now
        (fitting_of schema query.now terms.now places.now question) question) }
{
    match question {
        Question::OneRow { sub } => scalar_points(alloc, query, sub, terms, places),
        Question::NeedlessDistinct => distinct_points(alloc, query, terms, places),
        Question::NeedlessJoin { entry } => {
            join_points(alloc, query, entry, sentence, terms, places)
        }
        Question::NullInNotIn { sub } => not_in_points(alloc, query, sub, terms, places),
        Question::Empty
        | Question::Constant { .. }
        | Question::Duplicate { .. }
        | Question::Implied { .. }
        | Question::Impossible { .. }
        | Question::SameRow { .. } => own_points(alloc, query, terms, places),
    }
}
