//! Comparisons and IS NULL as formulas.
ghost use Rattle.std.specs.Prelude.{◌≡◌, ◌<◌, ◌^◌, pos, ◌-ℤ◌, true, if◌then◌else◌, IfOk};
ghost use Rattle.sort_formula.specs.Sides.{added_to, compare_formula, everything, is_null_formula, is_null_term, is_text_term, not_null_formula, nothing, side_of, texts_formula, values_formula, way_formula, ways_formula};
ghost use Rattle.sort_formula.specs.declared.formula.Atom.TheVariants as atom;
ghost use Rattle.sort_formula.specs.declared.formula.Formula.TheVariants as f;
ghost use Rattle.truth_formula.specs.inner.HalfOpen.{is_half_open, is_near};
ghost use Rattle.truth_formula.specs.inner.Standing.{scope_of};

use crate::standing::Standing;
use lint_base::{Items, NoMemory};
use lint_core::{Kind, Table, Term};
use lint_tables::{Op, Way, Ways};
use sort_formula::{Atom, Formula, Side};
use std::alloc::Global;

fn side_of(
    alloc: Global,
    tables: &[Table],
    standing: &Standing,
    term: &Term,
) -> Result<Side, NoMemory>
    requires { (scope_of standing.now).depth < 2 ^ 32 }
    ensures { IfOk result (λ s. s ≡ side_of tables.now (scope_of standing.now) term.now) }
{
    match term {
        Term::Cell {
            level,
            entry,
            column,
            ..
        } => Ok(Side::Cell {
            row: standing.variable_at(*level, *entry),
            column: *column,
        }),
        Term::Number { .. } | Term::Null => Ok(Side::Zero),
        Term::Text(text) => Ok(Side::Text(text.copy(alloc)?)),
    }
}

fn added_to(tables: &[Table], standing: &Standing, term: &Term) -> i64
    ensures { result ≡ added_to tables.now (scope_of standing.now) term.now }
{
    match term {
        Term::Cell { plus, .. } => *plus,
        Term::Number { value, .. } => *value,
        Term::Text(_) | Term::Null => 0,
    }
}

fn is_text(tables: &[Table], standing: &Standing, term: &Term) -> bool
    ensures { result ≡ is_text_term tables.now (scope_of standing.now) term.now }
{
    matches!(term.kind(tables, &standing.tables), Some(Kind::Text))
}

fn difference(greater: i64, lesser: i64, less: u8) -> i128
    ensures exact { result ≡ greater -ℤ lesser -ℤ pos less }
    ensures near { is_near result ≡ true }
{
    i128::from(greater) - i128::from(lesser) - i128::from(less)
}

/// The first term lies below the second by at least so much.
fn bound(
    alloc: Global,
    tables: &[Table],
    standing: &Standing,
    lesser: &Term,
    greater: &Term,
    less: u8,
) -> Result<Formula, NoMemory>
    requires { (scope_of standing.now).depth < 2 ^ 32 }
    ensures formula { IfOk result (λ made. made ≡ f.Atom (atom.Le
        (side_of tables.now (scope_of standing.now) lesser.now)
        (side_of tables.now (scope_of standing.now) greater.now)
        (added_to tables.now (scope_of standing.now) greater.now
        -ℤ added_to tables.now (scope_of standing.now) lesser.now -ℤ pos less))) }
    ensures bounds { IfOk result (λ f. is_half_open f ≡ true) }
{
    let left = side_of(alloc, tables, standing, lesser)?;
    let right = side_of(alloc, tables, standing, greater)?;
    let most = difference(
        added_to(tables, standing, greater),
        added_to(tables, standing, lesser),
        less,
    );
    Ok(Formula::Atom(Atom::Le { left, right, most }))
}

fn way(
    alloc: Global,
    tables: &[Table],
    standing: &Standing,
    left: &Term,
    right: &Term,
    way: Way,
) -> Result<Formula, NoMemory>
    requires { (scope_of standing.now).depth < 2 ^ 32 }
    ensures formula { IfOk result (λ f. f
        ≡ way_formula tables.now (scope_of standing.now) left.now right.now way) }
    ensures bounds { IfOk result (λ f. is_half_open f ≡ true) }
{
    if way.swapped {
        bound(alloc, tables, standing, right, left, way.less)
    } else {
        bound(alloc, tables, standing, left, right, way.less)
    }
}

fn ways(
    alloc: Global,
    tables: &[Table],
    standing: &Standing,
    left: &Term,
    right: &Term,
    ways: Ways,
) -> Result<Formula, NoMemory>
    requires { (scope_of standing.now).depth < 2 ^ 32 }
    ensures formula { IfOk result (λ f. f
        ≡ ways_formula tables.now (scope_of standing.now) left.now right.now ways) }
    ensures bounds { IfOk result (λ f. is_half_open f ≡ true) }
{
    let one = way(alloc, tables, standing, left, right, ways.one)?;
    let Some(two) = ways.two else {
        return Ok(one);
    };
    let mut parts = Items::new(alloc);
    parts.push(one)?;
    parts.push(way(alloc, tables, standing, left, right, two)?)?;
    if ways.all {
        Ok(Formula::And(parts))
    } else {
        Ok(Formula::Or(parts))
    }
}

/// Texts are compared by `=` and `<>` alone.
fn texts(
    alloc: Global,
    tables: &[Table],
    standing: &Standing,
    op: Op,
    left: &Term,
    right: &Term,
) -> Result<Formula, NoMemory>
    requires { (scope_of standing.now).depth < 2 ^ 32 }
    ensures formula { IfOk result (λ f. f ≡ texts_formula tables.now (scope_of standing.now) op
        (side_of tables.now (scope_of standing.now) left.now)
        (side_of tables.now (scope_of standing.now) right.now)) }
    ensures bounds { IfOk result (λ f. is_half_open f ≡ true) }
{
    let left = side_of(alloc, tables, standing, left)?;
    let right = side_of(alloc, tables, standing, right)?;
    match op {
        Op::Eq => Ok(Formula::Atom(Atom::TextEq { left, right })),
        Op::Ne => Ok(Formula::Atom(Atom::TextNe { left, right })),
        Op::Lt | Op::Le | Op::Gt | Op::Ge => Ok(constant(alloc, false)),
    }
}

/// That the comparison of two terms is true. A comparison with NULL never is.
pub(crate) fn comparison(
    alloc: Global,
    tables: &[Table],
    standing: &Standing,
    op: Op,
    left: &Term,
    right: &Term,
) -> Result<Formula, NoMemory>
    requires { (scope_of standing.now).depth < 2 ^ 32 }
    ensures formula { IfOk result (λ f. f
        ≡ compare_formula tables.now (scope_of standing.now) op left.now right.now) }
    ensures bounds { IfOk result (λ f. is_half_open f ≡ true) }
{
    if matches!(left, Term::Null) || matches!(right, Term::Null) {
        Ok(constant(alloc, false))
    } else if is_text(tables, standing, left) || is_text(tables, standing, right) {
        texts(alloc, tables, standing, op, left, right)
    } else {
        ways(alloc, tables, standing, left, right, op.ways())
    }
}

/// That a term is NULL, or that it is not.
pub(crate) fn null_test(
    alloc: Global,
    tables: &[Table],
    standing: &Standing,
    term: &Term,
    null: bool,
) -> Formula
    requires { (scope_of standing.now).depth < 2 ^ 32 }
    ensures formula { result ≡ (if null
        then is_null_formula tables.now (scope_of standing.now) term.now
        else not_null_formula tables.now (scope_of standing.now) term.now) }
    ensures bounds { is_half_open result ≡ true }
{
    let Term::Cell {
        level,
        entry,
        column,
        ..
    } = term
    else {
        return constant(alloc, matches!(term, Term::Null) == null);
    };
    let row = standing.variable_at(*level, *entry);
    let column = *column;
    Formula::Atom(if null {
        Atom::IsNull { row, column }
    } else {
        Atom::NotNull { row, column }
    })
}

/// And of nothing, or Or of nothing.
pub(crate) fn constant(alloc: Global, holds: bool) -> Formula
    ensures formula { result ≡ (if holds then everything else nothing) }
    ensures bounds { is_half_open result ≡ true }
{
    if holds {
        Formula::And(Items::new(alloc))
    } else {
        Formula::Or(Items::new(alloc))
    }
}
