//! Conditions as formulas.
ghost use Rattle.std.specs.Prelude.{◌≡◌, ◌<◌, ◌+◌, ◌^◌, ◌∷◌, [], true, map, if◌then◌else◌, IfOk};
ghost use Rattle.std.specs.List.{list_all, sum_by};
ghost use Rattle.lint_core.specs.Fits.{tables_of};
ghost use Rattle.lint_tables.specs.Operators.{negation};
ghost use Rattle.sort_formula.specs.Negated.{negated};
ghost use Rattle.sort_formula.specs.Translation.{exists_both, is_false_formula, is_true_formula, translation};
ghost use Rattle.sort_formula.specs.Bounds.{is_within};
ghost use Rattle.truth_formula.specs.inner.HalfOpen.{is_half_open};
ghost use Rattle.truth_formula.specs.inner.Standing.{scope_of};
ghost use Rattle.truth_formula.specs.inner.Parts.{block_translation, chosen, count_block, every_row, joined, quantified, some_row};
ghost use Rattle.truth_formula.specs.Scopes.{CanStand, count_entries};

use crate::sides::{comparison, constant, null_test};
use crate::standing::Standing;
use lint_base::{Items, NoMemory};
use lint_core::{Block, Cond, Entry, Schema, Scope, Table, Term};
use lint_tables::Op;
use sort_formula::{Formula, negate};
use sqlite_items::Boxed;
use std::alloc::Global;

/// And, or Or.
fn joined(parts: Items<Formula>, all: bool) -> Formula
    requires { list_all is_half_open parts ≡ true }
    ensures formula { result ≡ joined all parts }
    ensures bounds { is_half_open result ≡ true }
{
    if all {
        Formula::And(parts)
    } else {
        Formula::Or(parts)
    }
}

fn two(alloc: Global, one: Formula, other: Formula, all: bool) -> Result<Formula, NoMemory>
    requires one { is_half_open one ≡ true }
    requires other { is_half_open other ≡ true }
    ensures formula { IfOk result (λ made. made ≡ joined all (one ∷ other ∷ [])) }
    ensures bounds { IfOk result (λ made. is_half_open made ≡ true) }
{
    let mut parts = Items::new(alloc);
    parts.push(one)?;
    parts.push(other)?;
    Ok(joined(parts, all))
}

/// One quantifier for each entry, in order.
fn quantified(
    alloc: Global,
    entries: &[Entry],
    body: Formula,
    some: bool,
) -> Result<Formula, NoMemory>
    requires { is_half_open body ≡ true }
    ensures formula { IfOk result (λ made. made ≡ quantified some (tables_of entries.now) body) }
    ensures bounds { IfOk result (λ made. is_half_open made ≡ true) }
{
    let Some((entry, others)) = entries.split_first() else {
        return Ok(body);
    };
    let table = entry.table;
    let body = Boxed::new(alloc, quantified(alloc, others, body, some)?)?;
    Ok(if some {
        Formula::Exists { table, body }
    } else {
        Formula::Forall { table, body }
    })
}

/// The negation. Its bounds stay in the same interval.
#[tactic(auto, using(crate::proofs::Nearness::not_near))]
fn negated(alloc: Global, formula: &Formula) -> Result<Formula, NoMemory>
    requires { is_half_open formula.now ≡ true }
    ensures formula { IfOk result (λ made. made ≡ negated formula.now) }
    ensures bounds { IfOk result (λ made. is_half_open made ≡ true) }
{
    negate(alloc, formula)
}

/// The operator, or the one that holds exactly where it does not.
fn op_if(op: Op, holds: bool) -> Op
    ensures { result ≡ (if holds then op else negation op) }
{
    if holds { op } else { op.negated() }
}

/// Some row satisfies the subquery's condition (`holds`), or no row does.
#[cycle(translate)]
fn exists(
    alloc: Global,
    tables: &[Table],
    standing: &Standing,
    block: &Block,
    holds: bool,
) -> Result<Formula, NoMemory>
    requires { (scope_of standing.now).depth + count_block block.now < 2 ^ 32 }
    ensures formula { IfOk result (λ made. made ≡ chosen holds (exists_both tables.now
        (block_translation tables.now block.now) (scope_of standing.now))) }
    ensures bounds { IfOk result (λ made. is_half_open made ≡ true) }
{
    let entries = block.entries.as_slice();
    let inside = (&*standing).inside(entries);
    let mut body = translate(alloc, tables, &inside, &block.cond, true)?;
    if !holds {
        body = negated(alloc, &body)?;
    }
    quantified(alloc, entries, body, holds)
}

/// Some row of the subquery's compares so.
#[cycle(translate)]
fn some_row(
    alloc: Global,
    tables: &[Table],
    standing: &Standing,
    op: Op,
    left: &Term,
    block: &Block,
    item: &Term,
) -> Result<Formula, NoMemory>
    requires { (scope_of standing.now).depth + count_block block.now < 2 ^ 32 }
    ensures formula { IfOk result (λ made. made ≡ some_row tables.now (scope_of standing.now) op
        left.now (block_translation tables.now block.now) item.now) }
    ensures bounds { IfOk result (λ made. is_half_open made ≡ true) }
{
    let entries = block.entries.as_slice();
    let inside = (&*standing).inside(entries);
    let chosen = translate(alloc, tables, &inside, &block.cond, true)?;
    let compared = comparison(alloc, tables, &inside, op, left, item)?;
    quantified(alloc, entries, two(alloc, chosen, compared, true)?, true)
}

/// Every row either fails the subquery's condition or satisfies the comparison.
#[cycle(translate)]
fn every_row(
    alloc: Global,
    tables: &[Table],
    standing: &Standing,
    op: Op,
    left: &Term,
    block: &Block,
    item: &Term,
) -> Result<Formula, NoMemory>
    requires { (scope_of standing.now).depth + count_block block.now < 2 ^ 32 }
    ensures formula { IfOk result (λ made. made ≡ every_row tables.now (scope_of standing.now) op
        left.now (block_translation tables.now block.now) item.now) }
    ensures bounds { IfOk result (λ made. is_half_open made ≡ true) }
{
    let entries = block.entries.as_slice();
    let inside = (&*standing).inside(entries);
    let chosen = translate(alloc, tables, &inside, &block.cond, true)?;
    let none = negated(alloc, &chosen)?;
    let compared = comparison(alloc, tables, &inside, op, left, item)?;
    quantified(alloc, entries, two(alloc, none, compared, false)?, false)
}

#[cycle(translate)]
fn translate_parts(
    alloc: Global,
    tables: &[Table],
    standing: &Standing,
    parts: &[Cond],
    holds: bool,
) -> Result<Items<Formula>, NoMemory>
    requires { (scope_of standing.now).depth + sum_by count_entries parts.now < 2 ^ 32 }
    ensures formulas { IfOk result (λ made. made ≡ map
        (λ part. chosen holds (translation tables.now part (scope_of standing.now))) parts.now) }
    ensures bounds { IfOk result (λ made. list_all is_half_open made ≡ true) }
{
    let mut formulas = Items::new(alloc);
    for part in parts {
        formulas.push(translate(alloc, tables, standing, part, holds)?)?;
    }
    Ok(formulas)
}

/// The formula that holds where the condition is true, or the one that holds where it is false.
#[cycle(translate)]
fn translate(
    alloc: Global,
    tables: &[Table],
    standing: &Standing,
    cond: &Cond,
    holds: bool,
) -> Result<Formula, NoMemory>
    requires { (scope_of standing.now).depth + count_entries cond.now < 2 ^ 32 }
    ensures formula { IfOk result (λ made. made
        ≡ chosen holds (translation tables.now cond.now (scope_of standing.now))) }
    ensures bounds { IfOk result (λ made. is_half_open made ≡ true) }
{
    match cond {
        Cond::True => Ok(constant(alloc, holds)),
        Cond::False => Ok(constant(alloc, !holds)),
        Cond::And(parts) => {
            let parts = translate_parts(alloc, tables, standing, parts.as_slice(), holds)?;
            Ok(joined(parts, holds))
        }
        Cond::Or(parts) => {
            let parts = translate_parts(alloc, tables, standing, parts.as_slice(), holds)?;
            Ok(joined(parts, !holds))
        }
        Cond::Not(part) => translate(alloc, tables, standing, part.get(), !holds),
        Cond::Compare {
            op,
            left,
            right,
            ..
        } => comparison(alloc, tables, standing, op_if(*op, holds), left, right),
        Cond::IsNull { term, negated, .. } => {
            Ok(null_test(alloc, tables, standing, term, holds != *negated))
        }
        Cond::Exists { block, .. } => exists(alloc, tables, standing, block.get(), holds),
        Cond::In {
            term,
            block,
            item,
            negated,
            ..
        } => {
            if holds != *negated {
                some_row(alloc, tables, standing, Op::Eq, term, block.get(), item)
            } else {
                every_row(alloc, tables, standing, Op::Ne, term, block.get(), item)
            }
        }
        Cond::Scalar {
            op,
            left,
            block,
            item,
            ..
        } => some_row(
            alloc,
            tables,
            standing,
            op_if(*op, holds),
            left,
            block.get(),
            item,
        ),
    }
}

/// The formula that holds exactly where the condition is true, in databases of the schema's
/// domains, at bindings where it has a truth. A condition is neither true nor false where it is
/// unknown. `NoMemory` where there is no memory for all of it.
pub fn is_true(
    alloc: Global,
    schema: &Schema,
    cond: &Cond,
    scope: &Scope,
) -> Result<Formula, NoMemory>
    requires { CanStand schema.now cond.now scope.now }
    ensures formula { IfOk result (λ f. f ≡ is_true_formula schema.now cond.now scope.now) }
    ensures bounds { IfOk result (λ f. is_within (2 ^ 65) f ≡ true) }
{
    let standing = Standing::new(scope);
    translate(alloc, schema.tables().as_slice(), &standing, cond, true)
}

/// The formula that holds exactly where the condition is false, in databases of the schema's
/// domains, at bindings where it has a truth. `NoMemory` where there is no memory for all of it.
pub fn is_false(
    alloc: Global,
    schema: &Schema,
    cond: &Cond,
    scope: &Scope,
) -> Result<Formula, NoMemory>
    requires { CanStand schema.now cond.now scope.now }
    ensures formula { IfOk result (λ f. f ≡ is_false_formula schema.now cond.now scope.now) }
    ensures bounds { IfOk result (λ f. is_within (2 ^ 65) f ≡ true) }
{
    let standing = Standing::new(scope);
    translate(alloc, schema.tables().as_slice(), &standing, cond, false)
}
