//! The truth of a condition at a binding.
ghost use Rattle.std.specs.Prelude.{◌≡◌, Ok, map, OnOk, ◌++◌, ◌∷◌, [], length};
ghost use Rattle.lint_tables.specs.declared.op.Op.TheVariants.{Eq};
ghost use Rattle.lint_core.specs.declared.condition.Block.{out-Block};
ghost use Rattle.lint_core.specs.Comparison.{compare};
ghost use Rattle.lint_core.specs.Condition.{truth, selected, items_at, inner_bindings, scalar_value, in_truth, exists_truth};
ghost use Rattle.lint_core.specs.Database.{rows_of};
ghost use Rattle.lint_core.specs.Evaluation.{map_ok, all_ok};
ghost use Rattle.lint_core.specs.Fits.{tables_of};
ghost use Rattle.lint_core.specs.Truth.{not_of, negated_if, least, greatest, and_of, or_of};
ghost use Rattle.sql_meaning.specs.inner.Gathered.{joined, gathered, gathered_at, answer};
ghost use Rattle.sql_meaning.specs.inner.Seen.{value_of, values_of};
ghost use Rattle.sql_meaning.specs.inner.Standing.{tables_of_levels, binding_of_levels};
ghost use Rattle.sql_meaning.specs.Stops.{Gives};

use crate::levels::Levels;
use crate::stop::TruthStop;
use crate::value::{Seen, compare, term_value, truth_of};
use lint_base::{Items, Span};
use lint_core::{Binding, Block, Cond, Database, Entry, Schema, Term, Truth};
use lint_tables::Op;
use std::alloc::Global;

fn not_of(truth: Truth) -> Truth
    ensures { result ≡ not_of truth }
{
    match truth {
        Truth::True => Truth::False,
        Truth::Unknown => Truth::Unknown,
        Truth::False => Truth::True,
    }
}

fn negated_if(negated: bool, truth: Truth) -> Truth
    ensures { result ≡ negated_if negated truth }
{
    if negated { not_of(truth) } else { truth }
}

fn least(left: Truth, right: Truth) -> Truth
    ensures { result ≡ least left right }
{
    match (left, right) {
        (Truth::False, _) | (_, Truth::False) => Truth::False,
        (Truth::True, other) | (other, Truth::True) => other,
        (Truth::Unknown, Truth::Unknown) => Truth::Unknown,
    }
}

fn greatest(left: Truth, right: Truth) -> Truth
    ensures { result ≡ greatest left right }
{
    match (left, right) {
        (Truth::True, _) | (_, Truth::True) => Truth::True,
        (Truth::False, other) | (other, Truth::False) => other,
        (Truth::Unknown, Truth::Unknown) => Truth::Unknown,
    }
}

/// Whether a value is among others.
fn is_in(left: &Seen, items: &[Seen]) -> Truth
    ensures { result ≡ in_truth (value_of left.now) (values_of items.now) }
{
    let mut truth = Truth::False;
    for item in items {
        truth = greatest(truth, compare(Op::Eq, left, item));
    }
    truth
}

/// The one value of a scalar subquery; NULL for no row.
fn scalar_value<'a>(span: Span, items: &[Seen<'a>]) -> Result<Seen<'a>, TruthStop>
    ensures { Gives (scalar_value span (values_of items.now)) (answer value_of result) }
{
    match items {
        [] => Ok(Seen::Null),
        [item] => Ok(*item),
        _ => Err(TruthStop::TwoRows { span }),
    }
}

/// A subquery in the levels outside of it, and what it selects.
#[derive(Clone, Copy)]
struct Search<'a> {
    alloc: Global,
    database: &'a Database,
    block: &'a Block,
    item: &'a Term,
    outer: &'a Levels<'a>,
}

impl<'a> Search<'a> {
    /// Adds what is selected at one list of row places.
    #[cycle(evaluation)]
    fn visit_rows(
        &self,
        rows: &[usize],
        mut found: Vec<Seen<'a>>,
    ) -> Result<Vec<Seen<'a>>, TruthStop>
        ensures { Gives
            (joined (Ok (values_of found.entry.items))
            (gathered_at self.now.database.now self.now.item.now
            (tables_of_levels self.now.outer.now
            ++ tables_of (out-Block self.now.block.now).entries ∷ [])
            (binding_of_levels self.now.outer.now)
            (truth self.now.database.now (out-Block self.now.block.now).cond)
            rows.now))
            (answer (λ found. values_of found.items) result) }
    {
        let levels = Levels::Inside {
            entries: self.block.entries.as_slice(),
            rows,
            outer: &*self.outer,
        };
        if evaluate(self.alloc, self.database, &self.block.cond, &levels)? == Truth::True {
            found.push(term_value(self.database, self.item, &levels))?;
        }
        Ok(found)
    }

    /// Adds what is selected at each list of row places that begins with these and has one for
    /// each of the rest of the entries.
    #[cycle(evaluation)]
    fn visit(
        &self,
        rest: &[Entry],
        rows: &mut Vec<usize>,
        mut found: Vec<Seen<'a>>,
    ) -> Result<Vec<Seen<'a>>, TruthStop>
        ensures gives { Gives
            (joined (Ok (values_of found.entry.items))
            (gathered self.now.database.now self.now.item.now
            (tables_of_levels self.now.outer.now
            ++ tables_of (out-Block self.now.block.now).entries ∷ [])
            (binding_of_levels self.now.outer.now)
            (truth self.now.database.now (out-Block self.now.block.now).cond)
            rows.old.items (tables_of rest.now)))
            (answer (λ found. values_of found.items) result) }
        ensures rows { OnOk result (rows.new.items ≡ rows.old.items) }
    {
        let Some((entry, others)) = rest.split_first() else {
            return self.visit_rows(rows.as_slice(), found);
        };
        for row in 0..row_count(self.database, entry.table) {
            rows.push(row)?;
            found = self.visit(others, rows, found)?;
            rows.pop();
        }
        Ok(found)
    }
}

/// How many rows a table has; 0 where there is no such table.
pub(crate) fn row_count(database: &Database, table: u32) -> usize
    ensures { result ≡ length (rows_of database.now table) }
{
    match database.tables.as_slice().get(table as usize) {
        Some(rows) => rows.as_slice().len(),
        None => 0,
    }
}

/// What a subquery selects, by row lists in their order.
#[cycle(evaluation)]
fn select<'a>(
    alloc: Global,
    database: &'a Database,
    block: &'a Block,
    item: &'a Term,
    outer: &'a Levels<'a>,
) -> Result<Vec<Seen<'a>>, TruthStop>
    ensures { Gives
        (map_ok (items_at database.now item.now) (selected (inner_bindings database.now
        (tables_of (out-Block block.now).entries)
        (truth database.now (out-Block block.now).cond)
        (tables_of_levels outer.now) (binding_of_levels outer.now))))
        (answer (λ found. values_of found.items) result) }
{
    let search = Search {
        alloc,
        database: &*database,
        block: &*block,
        item: &*item,
        outer: &*outer,
    };
    let mut rows = Vec::new(alloc);
    search.visit(block.entries.as_slice(), &mut rows, Vec::new(alloc))
}

#[cycle(evaluation)]
fn all_of(
    alloc: Global,
    database: &Database,
    parts: &[Cond],
    levels: &Levels,
) -> Result<Truth, TruthStop>
    ensures { Gives (map_ok and_of (all_ok (map
        (λ part. truth database.now part
        (tables_of_levels levels.now) (binding_of_levels levels.now))
        parts.now))) result }
{
    let mut truth = Truth::True;
    for part in parts {
        truth = least(truth, evaluate(alloc, database, part, levels)?);
    }
    Ok(truth)
}

#[cycle(evaluation)]
fn any_of(
    alloc: Global,
    database: &Database,
    parts: &[Cond],
    levels: &Levels,
) -> Result<Truth, TruthStop>
    ensures { Gives (map_ok or_of (all_ok (map
        (λ part. truth database.now part
        (tables_of_levels levels.now) (binding_of_levels levels.now))
        parts.now))) result }
{
    let mut truth = Truth::False;
    for part in parts {
        truth = greatest(truth, evaluate(alloc, database, part, levels)?);
    }
    Ok(truth)
}

/// EXISTS asks for rows alone, so that it selects NULL.
#[cycle(evaluation)]
fn exists(
    alloc: Global,
    database: &Database,
    block: &Block,
    levels: &Levels,
) -> Result<Truth, TruthStop>
    ensures { Gives (map_ok exists_truth (selected (inner_bindings database.now
        (tables_of (out-Block block.now).entries)
        (truth database.now (out-Block block.now).cond)
        (tables_of_levels levels.now) (binding_of_levels levels.now)))) result }
{
    let item = Term::Null;
    let found = select(alloc, &*database, &*block, &item, &*levels)?;
    Ok(truth_of(!found.is_empty()))
}

/// The truth of a condition in these levels.
#[cycle(evaluation)]
pub(crate) fn evaluate(
    alloc: Global,
    database: &Database,
    cond: &Cond,
    levels: &Levels,
) -> Result<Truth, TruthStop>
    ensures { Gives
        (truth database.now cond.now (tables_of_levels levels.now) (binding_of_levels levels.now))
        result }
{
    match cond {
        Cond::True => Ok(Truth::True),
        Cond::False => Ok(Truth::False),
        Cond::And(parts) => all_of(alloc, database, parts.as_slice(), levels),
        Cond::Or(parts) => any_of(alloc, database, parts.as_slice(), levels),
        Cond::Not(part) => Ok(not_of(evaluate(alloc, database, part.get(), levels)?)),
        Cond::Compare {
            op,
            left,
            right,
            ..
        } => Ok(compare(
            *op,
            &term_value(database, left, levels),
            &term_value(database, right, levels),
        )),
        Cond::IsNull { term, negated, .. } => {
            let is_null = term_value(database, term, levels).is_null();
            Ok(negated_if(*negated, truth_of(is_null)))
        }
        Cond::Exists { block, .. } => exists(alloc, database, block.get(), levels),
        Cond::In {
            term,
            block,
            item,
            negated,
            ..
        } => {
            let items = select(alloc, &*database, block.get(), item, &*levels)?;
            let left = term_value(database, term, levels);
            Ok(negated_if(*negated, is_in(&left, items.as_slice())))
        }
        Cond::Scalar {
            op,
            left,
            block,
            item,
            ..
        } => {
            let items = select(alloc, &*database, block.get(), item, &*levels)?;
            let value = scalar_value(block.get().span, items.as_slice())?;
            Ok(compare(*op, &term_value(database, left, levels), &value))
        }
    }
}

/// The truth of a condition at a binding, whose row places are of these tables, level by level
/// (ISO/IEC 9075:1992, 8.12). A cell that is not there is NULL.
///
/// `TwoRows` comes where a scalar subquery of the condition gives two rows, also where another
/// part alone would decide: it has the place of the first such subquery in the order of
/// evaluation, which takes the parts from left to right, and the inner bindings in their order.
/// `NoMemory` may come instead of either.
pub fn truth(
    alloc: Global,
    _schema: &Schema,
    database: &Database,
    cond: &Cond,
    tables: &Items<Items<u32>>,
    at: &Binding,
) -> Result<Truth, TruthStop>
    ensures { Gives (truth database.now cond.now tables.now at.now.levels) result }
{
    let levels = Levels::Given {
        tables: tables.as_slice(),
        rows: at.levels.as_slice(),
    };
    evaluate(alloc, database, cond, &levels)
}
