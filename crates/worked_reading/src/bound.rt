//! Bound forms as texts that leave nothing out.
//!
//! - A schema: its tables with `|` between them. Of each its name, its columns with their domains,
//! and then `key`,
//!   `check` and `foreign` before each of its keys, CHECKs and foreign keys.
//! - A query: `distinct` with its place, the items, those of a star with `*`, `from` its block,
//! `by` its order keys. - A block: in parentheses its entries, each by the number of its table and
//! its visible name, and `where` its
//!   condition. `of` a block is written behind the predicate whose subquery it is.
//! - A cell: level, entry and column, and what is added to it.
use lint_base::{NoMemory, Span};
use lint_core::{
    Block, Column, Cond, Domain, Entry, ForeignKey, Item, Key, Query, Schema, Table, Term, Unit,
};
use lint_tables::Op;
use std::alloc::{AllocError, Global};

/// What stands before the part of a number in a list.
fn push_comma(out: &mut String, number: usize) -> Result<(), AllocError> {
    if number > 0 {
        out.push_str(", ")?;
    }
    Ok(())
}

fn push_place(out: &mut String, span: Span) -> Result<(), AllocError> {
    write!(out, " at {}..{}", span.from, span.to)
}

/// What is added, if it is not 0.
fn push_added(out: &mut String, plus: i64) -> Result<(), AllocError> {
    if plus > 0 {
        out.push('+')?;
    }
    if plus != 0 {
        write!(out, "{plus}")?;
    }
    Ok(())
}

fn push_term(out: &mut String, term: &Term) -> Result<(), AllocError> {
    match term {
        Term::Cell {
            level,
            entry,
            column,
            plus,
        } => {
            write!(out, "{level}.{entry}.{column}")?;
            push_added(out, *plus)
        }
        Term::Number {
            value,
            unit: Unit::Whole,
        } => write!(out, "{value}"),
        Term::Text(text) => write!(out, "'{}'", text.as_str()),
        Term::Null => out.push_str("NULL"),
    }
}

fn op_word(op: Op) -> &'static str {
    match op {
        Op::Eq => "Eq",
        Op::Ne => "Ne",
        Op::Lt => "Lt",
        Op::Le => "Le",
        Op::Gt => "Gt",
        Op::Ge => "Ge",
    }
}

/// Two terms with a word between them, and the place of their predicate.
fn push_two(
    out: &mut String,
    left: &Term,
    word: &str,
    right: &Term,
    span: Span,
) -> Result<(), AllocError> {
    push_term(out, left)?;
    write!(out, " {word} ")?;
    push_term(out, right)?;
    push_place(out, span)
}

fn push_null(out: &mut String, term: &Term, negated: bool, span: Span) -> Result<(), AllocError> {
    push_term(out, term)?;
    out.push_str(if negated { " IsNotNull" } else { " IsNull" })?;
    push_place(out, span)
}

fn push_entries(out: &mut String, entries: &[Entry]) -> Result<(), AllocError> {
    for (number, entry) in entries.iter().enumerate() {
        push_comma(out, number)?;
        write!(out, "{} {}", entry.table, entry.name.as_str())?;
        push_place(out, entry.span)?;
    }
    Ok(())
}

#[cycle(push_cond)]
fn push_block(out: &mut String, block: &Block) -> Result<(), AllocError> {
    out.push('(')?;
    push_entries(out, block.entries.as_slice())?;
    out.push_str(" where ")?;
    push_cond(out, &block.cond)?;
    out.push(')')?;
    push_place(out, block.span)
}

/// Two terms with a word between them, of which the right one is what a subquery selects.
#[cycle(push_cond)]
fn push_selected(
    out: &mut String,
    left: &Term,
    word: &str,
    block: &Block,
    item: &Term,
    span: Span,
) -> Result<(), AllocError> {
    push_two(out, left, word, item, span)?;
    out.push_str(" of ")?;
    push_block(out, block)
}

#[cycle(push_cond)]
fn push_exists(out: &mut String, block: &Block, span: Span) -> Result<(), AllocError> {
    out.push_str("Exists")?;
    push_place(out, span)?;
    out.push_str(" of ")?;
    push_block(out, block)
}

#[cycle(push_cond)]
fn push_not(out: &mut String, part: &Cond) -> Result<(), AllocError> {
    out.push_str("Not[")?;
    push_cond(out, part)?;
    out.push(']')
}

/// A word, and conditions in brackets.
#[cycle(push_cond)]
fn push_parts(out: &mut String, word: &str, parts: &[Cond]) -> Result<(), AllocError> {
    write!(out, "{word}[")?;
    for (number, part) in parts.iter().enumerate() {
        push_comma(out, number)?;
        push_cond(out, part)?;
    }
    out.push(']')
}

#[cycle(push_cond)]
fn push_cond(out: &mut String, cond: &Cond) -> Result<(), AllocError> {
    match cond {
        Cond::True => out.push_str("true"),
        Cond::False => out.push_str("false"),
        Cond::And(parts) => push_parts(out, "And", parts.as_slice()),
        Cond::Or(parts) => push_parts(out, "Or", parts.as_slice()),
        Cond::Not(part) => push_not(out, part.get()),
        Cond::Compare {
            op,
            left,
            right,
            span,
        } => push_two(out, left, op_word(*op), right, *span),
        Cond::IsNull {
            term,
            negated,
            span,
        } => push_null(out, term, *negated, *span),
        Cond::Exists { block, span } => push_exists(out, block.get(), *span),
        Cond::In {
            term,
            block,
            item,
            negated,
            span,
        } => {
            let word = if *negated { "NotIn" } else { "In" };
            push_selected(out, term, word, block.get(), item, *span)
        }
        Cond::Scalar {
            op,
            left,
            block,
            item,
            span,
        } => push_selected(out, left, op_word(*op), block.get(), item, *span),
    }
}

fn push_domain(out: &mut String, domain: Domain) -> Result<(), AllocError> {
    match domain {
        Domain::Number {
            least,
            greatest,
            unit: Unit::Whole,
        } => write!(out, " {least}..{greatest}"),
        Domain::Text { length } => write!(out, " text {length}"),
    }
}

fn push_columns(out: &mut String, columns: &[Column]) -> Result<(), AllocError> {
    for (number, column) in columns.iter().enumerate() {
        push_comma(out, number)?;
        out.push_str(column.name.as_str())?;
        push_domain(out, column.domain)?;
        if column.not_null {
            out.push_str(" NOT NULL")?;
        }
    }
    Ok(())
}

fn push_keys(out: &mut String, keys: &[Key]) -> Result<(), AllocError> {
    for key in keys {
        write!(out, "; key {:?}", key.columns.as_slice())?;
    }
    Ok(())
}

fn push_checks(out: &mut String, checks: &[Cond]) -> Result<(), AllocError> {
    for check in checks {
        out.push_str("; check ")?;
        push_cond(out, check)?;
    }
    Ok(())
}

/// Foreign keys: the own columns, the number of the target, and its columns.
fn push_foreign(out: &mut String, keys: &[ForeignKey]) -> Result<(), AllocError> {
    for key in keys {
        let own = key.columns.as_slice();
        let others = key.target_columns.as_slice();
        write!(out, "; foreign {own:?} to {} {others:?}", key.target)?;
    }
    Ok(())
}

fn push_table(out: &mut String, table: &Table) -> Result<(), AllocError> {
    write!(out, "{}: ", table.name.as_str())?;
    push_columns(out, table.columns.as_slice())?;
    push_keys(out, table.keys.as_slice())?;
    push_checks(out, table.checks.as_slice())?;
    push_foreign(out, table.foreign.as_slice())
}

fn push_items(out: &mut String, items: &[Item]) -> Result<(), AllocError> {
    for (number, item) in items.iter().enumerate() {
        push_comma(out, number)?;
        if item.star {
            out.push_str("* ")?;
        }
        push_term(out, &item.term)?;
        push_place(out, item.span)?;
    }
    Ok(())
}

fn push_order(out: &mut String, keys: &[Term]) -> Result<(), AllocError> {
    for (number, key) in keys.iter().enumerate() {
        out.push_str(if number == 0 { " by " } else { ", " })?;
        push_term(out, key)?;
    }
    Ok(())
}

/// The tables of a schema.
pub(crate) fn tables(alloc: Global, schema: &Schema) -> Result<String, NoMemory> {
    let mut out = String::new(alloc);
    for (number, table) in schema.tables().as_slice().iter().enumerate() {
        if number > 0 {
            out.push_str(" | ")?;
        }
        push_table(&mut out, table)?;
    }
    Ok(out)
}

/// The bound form of a query.
pub(crate) fn query(alloc: Global, query: &Query) -> Result<String, NoMemory> {
    let mut out = String::new(alloc);
    if let Some(distinct) = query.distinct {
        out.push_str("distinct")?;
        push_place(&mut out, distinct)?;
        out.push_str(": ")?;
    }
    push_items(&mut out, query.items.as_slice())?;
    out.push_str(" from ")?;
    push_block(&mut out, &query.block)?;
    push_order(&mut out, query.order.as_slice())?;
    Ok(out)
}
