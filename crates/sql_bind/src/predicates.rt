//! Predicates without subqueries, and what those with subqueries compare.
ghost use Rattle.std.specs.Prelude.{◌≡◌, ◌∷◌, [], IfOk, map};
ghost use Rattle.std.specs.List.{list_all};
ghost use Rattle.lint_tables.specs.declared.op.Op.TheVariants.{Eq};
ghost use Rattle.sql_bind.specs.Terms.{compares};
ghost use Rattle.lint_core.specs.declared.condition.Cond.TheVariants as cond;
ghost use Rattle.sql_tree.specs.declared.select.CondTree.TheOpen.{CondTree-F};
ghost use Rattle.lint_core.specs.Fits.{term_fits};
ghost use Rattle.sql_bind.specs.Bound.{Gives};
ghost use Rattle.sql_bind.specs.Names.{level_tables};
ghost use Rattle.sql_bind.specs.Conditions.{matching, between, joined, tree_span, in_list, one_column, compares_selected, bind_values, cond_step};
ghost use Rattle.sql_bind.specs.inner.Levels.{levels_seen};

use crate::bound::refused;
use crate::levels::Levels;
use crate::selects::BoundSelect;
use crate::terms::{bind_term, compares, kind};
use lint_base::{Fault, Items, NoMemory, Span, TextStop};
use lint_core::{Cond, Kind, Table, Term};
use lint_tables::Op;
use sql_tree::TermTree;
use std::alloc::Global;

/// A value of an IN list with its place.
#[derive(Drop)]
pub(crate) struct Value {
    pub term: Term,
    pub span: Span,
}

/// A predicate that compares what may be compared.
pub(crate) fn matching(goes: bool, at: Span, cond: Cond) -> Result<Cond, TextStop>
    ensures { Gives (matching goes at cond) result }
{
    if goes {
        Ok(cond)
    } else {
        Err(refused(Fault::TypeMismatch, at))
    }
}

/// The place of a term.
pub(crate) fn tree_span(tree: &TermTree) -> Span
    ensures { result ≡ tree_span tree.now }
{
    match tree {
        TermTree::Column { span, .. }
        | TermTree::Number { span, .. }
        | TermTree::Text { span, .. }
        | TermTree::Null { span } => *span,
    }
}

/// A comparison of two terms.
#[tactic(auto, unfolding(crate::specs::Bound::and_then))]
pub(crate) fn compare(
    alloc: Global,
    tables: &[Table],
    levels: &Levels,
    op: Op,
    left: &TermTree,
    right: &TermTree,
    span: Span,
) -> Result<Cond, TextStop>
    ensures { Gives (cond_step tables.now (CondTree-F.Compare op left.now right.now span)
        (levels_seen levels.now)) result }
{
    let left = bind_term(alloc, tables, left, levels)?;
    let right = bind_term(alloc, tables, right, levels)?;
    let goes = compares(tables, levels, op, &left, &right);
    matching(
        goes,
        span,
        Cond::Compare {
            op,
            left,
            right,
            span,
        },
    )
}

/// IS NULL, or IS NOT NULL.
#[tactic(auto, unfolding(crate::specs::Bound::and_then))]
pub(crate) fn is_null(
    alloc: Global,
    tables: &[Table],
    levels: &Levels,
    term: &TermTree,
    negated: bool,
    span: Span,
) -> Result<Cond, TextStop>
    ensures { Gives (cond_step tables.now (CondTree-F.IsNull term.now negated span)
        (levels_seen levels.now)) result }
{
    let term = bind_term(alloc, tables, term, levels)?;
    let fits = kind(tables, levels, &term).is_some();
    matching(
        fits,
        span,
        Cond::IsNull {
            term,
            negated,
            span,
        },
    )
}

/// The two comparisons of BETWEEN.
fn two_comparisons(
    alloc: Global,
    negated: bool,
    term: Term,
    low: Term,
    high: Term,
    first: Span,
    second: Span,
) -> Result<Cond, NoMemory>
    ensures { IfOk result (λ cond. cond ≡ between negated term low high first second) }
{
    let again = term.copy(alloc)?;
    let (above, below) = if negated {
        (Op::Lt, Op::Gt)
    } else {
        (Op::Ge, Op::Le)
    };
    let mut parts = Items::new(alloc);
    parts.push(Cond::Compare {
        op: above,
        left: term,
        right: low,
        span: first,
    })?;
    parts.push(Cond::Compare {
        op: below,
        left: again,
        right: high,
        span: second,
    })?;
    Ok(if negated {
        Cond::Or(parts)
    } else {
        Cond::And(parts)
    })
}

/// BETWEEN, or NOT BETWEEN.
#[tactic(auto, unfolding(crate::specs::Bound::and_then))]
pub(crate) fn bind_between(
    alloc: Global,
    tables: &[Table],
    levels: &Levels,
    term: &TermTree,
    low: &TermTree,
    high: &TermTree,
    negated: bool,
    span: Span,
) -> Result<Cond, TextStop>
    ensures { Gives (cond_step tables.now
        (CondTree-F.Between term.now low.now high.now negated span)
        (levels_seen levels.now)) result }
{
    let first = Span {
        from: tree_span(term).from,
        to: tree_span(low).to,
    };
    let second = tree_span(high);
    let term = bind_term(alloc, tables, term, levels)?;
    let low = bind_term(alloc, tables, low, levels)?;
    let high = bind_term(alloc, tables, high, levels)?;
    let goes = compares(tables, levels, Op::Ge, &term, &low)
        && compares(tables, levels, Op::Le, &term, &high);
    let cond = two_comparisons(alloc, negated, term, low, high, first, second)?;
    matching(goes, span, cond)
}

/// The values of an IN list.
#[tactic(auto, unfolding(crate::specs::Conditions::bind_values, crate::specs::Bound::and_then))]
fn bind_values(
    alloc: Global,
    tables: &[Table],
    levels: &Levels,
    trees: &[TermTree],
) -> Result<Items<Value>, TextStop>
    ensures { Gives (bind_values tables.now (levels_seen levels.now) trees.now) result }
{
    let mut values = Items::new(alloc);
    let mut rest = trees;
    while let Some((tree, more)) = rest.split_first() {
        let term = bind_term(alloc, tables, tree, levels)?;
        values.push(Value {
            term,
            span: tree_span(tree),
        })?;
        rest = more;
    }
    Ok(values)
}

/// A comparison of a term with each value.
fn comparisons(
    alloc: Global,
    op: Op,
    term: &Term,
    values: Items<Value>,
) -> Result<Items<Cond>, NoMemory>
    ensures { IfOk result
        (λ conds. conds ≡ map (λ v. cond.Compare op term.now v.term v.span) values) }
{
    let mut conds = Items::new(alloc);
    for value in values.into_vec() {
        conds.push(Cond::Compare {
            op,
            left: term.copy(alloc)?,
            right: value.term,
            span: value.span,
        })?;
    }
    Ok(conds)
}

/// One condition alone is that condition; others are joined by OR.
fn any_of(conds: Items<Cond>) -> Cond
    ensures { result ≡ joined cond.Or conds }
{
    let mut conds = conds.into_vec();
    if conds.len() == 1 {
        if let Some(cond) = conds.pop() {
            return cond;
        }
    }
    Cond::Or(Items::from_vec(conds))
}

/// One condition alone is that condition; others are joined by AND.
pub(crate) fn all_of(conds: Items<Cond>) -> Cond
    ensures { result ≡ joined cond.And conds }
{
    let mut conds = conds.into_vec();
    if conds.len() == 1 {
        if let Some(cond) = conds.pop() {
            return cond;
        }
    }
    Cond::And(Items::from_vec(conds))
}

/// One comparison for each value of an IN list.
fn in_list(alloc: Global, negated: bool, term: Term, values: Items<Value>) -> Result<Cond, NoMemory>
    ensures { IfOk result (λ cond. cond ≡ in_list negated term values) }
{
    if negated {
        return Ok(all_of(comparisons(alloc, Op::Ne, &term, values)?));
    }
    Ok(any_of(comparisons(alloc, Op::Eq, &term, values)?))
}

/// IN over a list, or NOT IN.
#[tactic(auto, unfolding(crate::specs::Bound::and_then))]
pub(crate) fn bind_in_list(
    alloc: Global,
    tables: &[Table],
    levels: &Levels,
    term: &TermTree,
    values: &Items<TermTree>,
    negated: bool,
    span: Span,
) -> Result<Cond, TextStop>
    ensures { Gives (cond_step tables.now (CondTree-F.InList term.now values.now negated span)
        (levels_seen levels.now)) result }
{
    let term = bind_term(alloc, tables, term, levels)?;
    let values = bind_values(alloc, tables, levels, values.as_slice())?;
    let goes = kind(tables, levels, &term).is_some()
        && compare_all(tables, levels, &term, values.as_slice());
    let cond = in_list(alloc, negated, term, values)?;
    matching(goes, span, cond)
}

/// Whether = compares a term with each value.
fn compare_all(tables: &[Table], levels: &Levels, term: &Term, values: &[Value]) -> bool
    ensures { result ≡ list_all
        (λ v. compares tables.now (levels_seen levels.now) Eq term.now v.term) values.now }
{
    values.iter().all(|value| compares(tables, levels, Op::Eq, term, &value.term))
}

/// The one column of a subquery.
pub(crate) fn one_column(alloc: Global, select: &BoundSelect) -> Result<Term, TextStop>
    ensures { Gives (one_column select.now) result }
{
    match select.selected.as_slice() {
        [selected] => Ok(selected.item.term.copy(alloc)?),
        _ => Err(refused(Fault::OneColumnNeeded, select.block.span)),
    }
}

/// Whether an operator compares a term with what a subquery selects, which stands in the
/// subquery's level.
pub(crate) fn compares_selected(
    tables: &[Table],
    levels: &Levels,
    op: Op,
    left: &Term,
    select: &BoundSelect,
    item: &Term,
) -> bool
    ensures { result ≡ compares_selected tables.now
        (levels_seen levels.now) op left.now select.now item.now }
{
    let inner = Levels::whole(select.block.entries.as_slice(), &*levels);
    Kind::both_compare(op, kind(tables, levels, left), kind(tables, &inner, item))
}
