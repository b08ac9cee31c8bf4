//! The places of a query's subqueries and predicates, in the order in which questions count them.
ghost use Rattle.std.specs.Prelude.{◌≡◌, ◌&&◌, ◌++◌, IfOk, OnOk, map};
ghost use Rattle.std.specs.List.{flat_map};
ghost use Rattle.lint_core.specs.declared.condition.Block.{out-Block};
ghost use Rattle.lint_core.specs.Asked.{main_condition};
ghost use Rattle.lint_core.specs.Subqueries.{is_column};
ghost use Rattle.lint_report.specs.inner.Listed.{of_predicate, of_in, of_scalar, places, inside, places_of};

use lint_base::{Items, NoMemory, Span};
use lint_core::{Block, Cond, Query, Term};
use std::alloc::Global;

/// What is listed of a condition.
#[derive(Clone, Copy)]
enum Listed {
    Scalars,
    Predicates,
    NotIns,
}

/// Places that the questions of a query may stand at.
#[derive(Drop)]
pub(crate) struct Places {
    pub(crate) scalars: Items<Span>,
    pub(crate) predicates: Items<Span>,
    pub(crate) not_ins: Items<Span>,
}

fn push_predicate(out: &mut Items<Span>, listed: Listed, span: Span) -> Result<(), NoMemory>
    ensures { OnOk result (out.new ≡ out.old ++ of_predicate listed span) }
{
    match listed {
        Listed::Predicates => out.push(span),
        _ => Ok(()),
    }
}

fn is_column(term: &Term) -> bool
    ensures { result ≡ is_column term.now }
{
    matches!(term, Term::Cell { .. })
}

fn push_in(out: &mut Items<Span>, listed: Listed, counts: bool, span: Span) -> Result<(), NoMemory>
    ensures { OnOk result (out.new ≡ out.old ++ of_in listed counts span) }
{
    match listed {
        Listed::Predicates => out.push(span),
        Listed::NotIns if counts => out.push(span),
        _ => Ok(()),
    }
}

/// Adds the places of what is listed of the condition.
#[cycle(listing)]
fn push_places(out: &mut Items<Span>, listed: Listed, cond: &Cond) -> Result<(), NoMemory>
    ensures { OnOk result (out.new ≡ out.old ++ places listed cond.now) }
{
    match cond {
        Cond::True | Cond::False => Ok(()),
        Cond::And(parts) | Cond::Or(parts) => push_each(out, listed, parts.as_slice()),
        Cond::Not(part) => push_places(out, listed, part.get()),
        Cond::Compare { span, .. } | Cond::IsNull { span, .. } => {
            push_predicate(out, listed, *span)
        }
        Cond::Exists { block, span } => {
            push_predicate(out, listed, *span)?;
            push_within(out, listed, block.get())
        }
        Cond::In {
            block,
            item,
            negated,
            span,
            ..
        } => {
            push_in(out, listed, *negated && is_column(item), *span)?;
            push_within(out, listed, block.get())
        }
        Cond::Scalar { block, span, .. } => push_scalar(out, listed, block.get(), *span),
    }
}

#[cycle(listing)]
fn push_each(out: &mut Items<Span>, listed: Listed, conds: &[Cond]) -> Result<(), NoMemory>
    ensures { OnOk result (out.new ≡ out.old ++ flat_map (places listed) conds.now) }
{
    for cond in conds {
        push_places(out, listed, cond)?;
    }
    Ok(())
}

#[cycle(listing)]
fn push_scalar(
    out: &mut Items<Span>,
    listed: Listed,
    block: &Block,
    span: Span,
) -> Result<(), NoMemory>
    ensures { OnOk result
        (out.new ≡ out.old ++ of_scalar listed span (inside listed block.now)) }
{
    match listed {
        Listed::Predicates => out.push(span),
        Listed::NotIns => push_within(out, listed, block),
        Listed::Scalars => {
            push_within(out, listed, block)?;
            out.push(block.span)
        }
    }
}

#[cycle(listing)]
fn push_within(out: &mut Items<Span>, listed: Listed, block: &Block) -> Result<(), NoMemory>
    ensures { OnOk result
        (out.new ≡ out.old ++ places listed (out-Block block.now).cond) }
{
    push_places(out, listed, &block.cond)
}

fn listed_of(alloc: Global, listed: Listed, query: &Query) -> Result<Items<Span>, NoMemory>
    ensures { IfOk result (λ spans. spans ≡ places listed (main_condition query.now)) }
{
    let mut spans = Items::new(alloc);
    push_places(&mut spans, listed, &query.block.cond)?;
    Ok(spans)
}

/// The places of the query's scalar subqueries, of its predicates, and of its NOT IN subqueries
/// that select a column.
#[tactic(auto, using(crate::proofs::ListedPlaces::all_listed))]
pub(crate) fn places_of(alloc: Global, query: &Query) -> Result<Places, NoMemory>
    ensures { IfOk result (λ found. found ≡ places_of query.now) }
{
    Ok(Places {
        scalars: listed_of(alloc, Listed::Scalars, query)?,
        predicates: listed_of(alloc, Listed::Predicates, query)?,
        not_ins: listed_of(alloc, Listed::NotIns, query)?,
    })
}
