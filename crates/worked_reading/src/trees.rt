//! The trees of texts, whole. `@22..27` is a place: that of the word, the name or the predicate
//! that it stands behind.
use crate::texts::{query_tree, schema_trees};
use case_pages::shown_stop;
use lint_base::{NoMemory, Span};
use lint_tables::Op;
use sql_tree::{
    CondTree, CreateTable, Element, EntryTree, ItemTree, NameTree, OrderTree, QueryTree, RuleTree,
    SelectTree, TermTree, TypeTree,
};
use std::alloc::{AllocError, Global};

// ---- places, names and terms

fn push_place(out: &mut String, place: Span) -> Result<(), AllocError> {
    let Span { from, to } = place;
    write!(out, " @{from}..{to}")
}

/// A comma before every part but the first.
fn push_comma(out: &mut String, number: usize) -> Result<(), AllocError> {
    if number == 0 {
        return Ok(());
    }
    out.push_str(", ")
}

fn push_alias(out: &mut String, alias: &Option<NameTree>) -> Result<(), AllocError> {
    match alias {
        Some(name) => write!(out, " as {}", name.text.as_str()),
        None => Ok(()),
    }
}

/// What is added to a column, where it is not 0.
fn push_added(out: &mut String, plus: i64) -> Result<(), AllocError> {
    if plus == 0 {
        return Ok(());
    }
    if plus > 0 {
        out.push('+')?;
    }
    write!(out, "{plus}")
}

fn push_term(out: &mut String, term: &TermTree) -> Result<(), AllocError> {
    match term {
        TermTree::Column {
            table,
            name,
            plus,
            ..
        } => {
            if let Some(table) = table {
                write!(out, "{}.", table.text.as_str())?;
            }
            out.push_str(name.text.as_str())?;
            push_added(out, *plus)
        }
        TermTree::Number { value, .. } => write!(out, "{value}"),
        TermTree::Text { text, .. } => write!(out, "'{}'", text.as_str()),
        TermTree::Null { .. } => out.push_str("NULL"),
    }
}

fn push_values(out: &mut String, values: &[TermTree]) -> Result<(), AllocError> {
    out.push('(')?;
    for (number, value) in values.iter().enumerate() {
        push_comma(out, number)?;
        push_term(out, value)?;
    }
    out.push(')')
}

// ---- conditions and SELECTs

fn sign(op: Op) -> &'static str {
    match op {
        Op::Eq => "=",
        Op::Ne => "<>",
        Op::Lt => "<",
        Op::Le => "<=",
        Op::Gt => ">",
        Op::Ge => ">=",
    }
}

fn not(negated: bool) -> &'static str {
    if negated { "not " } else { "" }
}

/// The left side of a comparison.
fn push_left(out: &mut String, left: &TermTree, op: Op) -> Result<(), AllocError> {
    push_term(out, left)?;
    write!(out, " {} ", sign(op))
}

/// A term before BETWEEN or IN.
fn push_before(
    out: &mut String,
    term: &TermTree,
    negated: bool,
    word: &str,
) -> Result<(), AllocError> {
    push_term(out, term)?;
    write!(out, " {}{word} ", not(negated))
}

/// A predicate without a subquery, but for its place.
fn push_plain(out: &mut String, cond: &CondTree) -> Result<(), AllocError> {
    match cond {
        CondTree::Compare {
            op,
            left,
            right,
            ..
        } => {
            push_left(out, left, *op)?;
            push_term(out, right)
        }
        CondTree::IsNull { term, negated, .. } => {
            push_term(out, term)?;
            write!(out, " is {}null", not(*negated))
        }
        CondTree::Between {
            term,
            low,
            high,
            negated,
            ..
        } => {
            push_before(out, term, *negated, "between")?;
            push_term(out, low)?;
            out.push_str(" and ")?;
            push_term(out, high)
        }
        CondTree::InList {
            term,
            values,
            negated,
            ..
        } => {
            push_before(out, term, *negated, "in")?;
            push_values(out, values.as_slice())
        }
        _ => Ok(()),
    }
}

/// Where a predicate stands. Other conditions have no place.
fn place_of(cond: &CondTree) -> Option<Span> {
    match cond {
        CondTree::Compare { span, .. } => Some(*span),
        CondTree::Scalar { span, .. } => Some(*span),
        CondTree::IsNull { span, .. } => Some(*span),
        CondTree::Between { span, .. } => Some(*span),
        CondTree::InList { span, .. } => Some(*span),
        CondTree::InSelect { span, .. } => Some(*span),
        CondTree::Exists { span, .. } => Some(*span),
        _ => None,
    }
}

/// Conditions with commas between them, in brackets behind a word.
#[cycle(push_cond)]
fn push_parts(out: &mut String, word: &str, parts: &[CondTree]) -> Result<(), AllocError> {
    write!(out, "{word}[")?;
    for (number, part) in parts.iter().enumerate() {
        push_comma(out, number)?;
        push_cond(out, part)?;
    }
    out.push(']')
}

/// A condition, but for its place.
#[cycle(push_cond)]
fn push_placeless(out: &mut String, cond: &CondTree) -> Result<(), AllocError> {
    match cond {
        CondTree::And(parts) => push_parts(out, "And", parts.as_slice()),
        CondTree::Or(parts) => push_parts(out, "Or", parts.as_slice()),
        CondTree::Not(inner) => {
            out.push_str("Not[")?;
            push_cond(out, inner.get())?;
            out.push(']')
        }
        CondTree::Scalar {
            op,
            left,
            select,
            ..
        } => {
            push_left(out, left, *op)?;
            push_subquery(out, select.get())
        }
        CondTree::InSelect {
            term,
            select,
            negated,
            ..
        } => {
            push_before(out, term, *negated, "in")?;
            push_subquery(out, select.get())
        }
        CondTree::Exists { select, .. } => {
            out.push_str("exists ")?;
            push_subquery(out, select.get())
        }
        plain => push_plain(out, plain),
    }
}

#[cycle(push_cond)]
fn push_cond(out: &mut String, cond: &CondTree) -> Result<(), AllocError> {
    push_placeless(out, cond)?;
    match place_of(cond) {
        Some(place) => push_place(out, place),
        None => Ok(()),
    }
}

#[cycle(push_cond)]
fn push_subquery(out: &mut String, select: &SelectTree) -> Result<(), AllocError> {
    out.push('(')?;
    push_select(out, select)?;
    out.push(')')
}

/// An item. The place of a `*` is that of the sign.
fn push_item(out: &mut String, item: &ItemTree) -> Result<(), AllocError> {
    match item {
        ItemTree::Star(star) => {
            out.push('*')?;
            push_place(out, *star)
        }
        ItemTree::StarOf { table, star } => {
            write!(out, "{}.*", table.text.as_str())?;
            push_place(out, *star)
        }
        ItemTree::Term { term, alias } => {
            push_term(out, term)?;
            push_alias(out, alias)
        }
    }
}

/// An entry, behind the number of the first of its group.
#[cycle(push_cond)]
fn push_entry(out: &mut String, entry: &EntryTree) -> Result<(), AllocError> {
    write!(out, "{}: {}", entry.first, entry.table.text.as_str())?;
    push_alias(out, &entry.alias)?;
    if let Some(cond) = &entry.on {
        out.push_str(" on ")?;
        push_cond(out, cond)?;
    }
    Ok(())
}

#[cycle(push_cond)]
fn push_entries(out: &mut String, entries: &[EntryTree]) -> Result<(), AllocError> {
    for (number, entry) in entries.iter().enumerate() {
        push_comma(out, number)?;
        push_entry(out, entry)?;
    }
    Ok(())
}

/// What a SELECT begins with, up to its items.
fn push_front(out: &mut String, select: &SelectTree) -> Result<(), AllocError> {
    out.push_str("select")?;
    push_place(out, select.span)?;
    if let Some(place) = select.distinct {
        out.push_str(" distinct")?;
        push_place(out, place)?;
    }
    out.push(' ')?;
    for (number, item) in select.items.as_slice().iter().enumerate() {
        push_comma(out, number)?;
        push_item(out, item)?;
    }
    Ok(())
}

#[cycle(push_cond)]
fn push_select(out: &mut String, select: &SelectTree) -> Result<(), AllocError> {
    push_front(out, select)?;
    out.push_str(" from ")?;
    push_entries(out, select.from.as_slice())?;
    if let Some(cond) = &select.filter {
        out.push_str(" where ")?;
        push_cond(out, cond)?;
    }
    Ok(())
}

// ---- queries

fn push_key(out: &mut String, key: &OrderTree) -> Result<(), AllocError> {
    match key {
        OrderTree::Place { number, span } => {
            write!(out, "{number}")?;
            push_place(out, *span)
        }
        OrderTree::Column(term) => push_term(out, term),
    }
}

fn push_query(out: &mut String, query: &QueryTree) -> Result<(), AllocError> {
    push_select(out, &query.select)?;
    for (number, key) in query.order.as_slice().iter().enumerate() {
        out.push_str(if number == 0 { " order by " } else { ", " })?;
        push_key(out, key)?;
    }
    Ok(())
}

/// The tree of a query, or why the text is none.
pub(crate) fn query(alloc: Global, text: &str) -> Result<String, NoMemory> {
    match query_tree(alloc, text) {
        Ok(tree) => {
            let mut out = String::new(alloc);
            push_query(&mut out, &tree)?;
            Ok(out)
        }
        Err(stop) => shown_stop(alloc, stop),
    }
}

// ---- schemas

fn push_name(out: &mut String, name: &NameTree) -> Result<(), AllocError> {
    out.push_str(name.text.as_str())?;
    push_place(out, name.span)
}

fn push_names(out: &mut String, names: &[NameTree]) -> Result<(), AllocError> {
    out.push_str(" (")?;
    for (number, name) in names.iter().enumerate() {
        push_comma(out, number)?;
        push_name(out, name)?;
    }
    out.push(')')
}

/// A type, of a text with its length and the place of that.
fn push_type(out: &mut String, kind: &TypeTree) -> Result<(), AllocError> {
    match kind {
        TypeTree::Small => out.push_str("smallint"),
        TypeTree::Integer => out.push_str("integer"),
        TypeTree::Big => out.push_str("bigint"),
        TypeTree::Text { length, span } => {
            write!(out, "text {length}")?;
            push_place(out, *span)
        }
    }
}

fn push_rule(out: &mut String, rule: &RuleTree) -> Result<(), AllocError> {
    match rule {
        RuleTree::NotNull => out.push_str("not null"),
        RuleTree::Unique { columns } => {
            out.push_str("unique")?;
            push_names(out, columns.as_slice())
        }
        RuleTree::Primary { columns, span } => {
            out.push_str("primary key")?;
            push_place(out, *span)?;
            push_names(out, columns.as_slice())
        }
        RuleTree::Check(cond) => {
            out.push_str("check ")?;
            push_cond(out, cond)
        }
        RuleTree::Foreign {
            columns,
            table,
            target,
            span,
        } => {
            out.push_str("foreign key")?;
            push_place(out, *span)?;
            push_names(out, columns.as_slice())?;
            out.push_str(" references ")?;
            push_name(out, table)?;
            if target.as_slice().is_empty() {
                return Ok(());
            }
            push_names(out, target.as_slice())
        }
    }
}

fn push_element(out: &mut String, element: &Element) -> Result<(), AllocError> {
    match element {
        Element::Column { name, kind, rules } => {
            push_name(out, name)?;
            out.push(' ')?;
            push_type(out, kind)?;
            for rule in rules.as_slice() {
                out.push(' ')?;
                push_rule(out, rule)?;
            }
            Ok(())
        }
        Element::Rule(rule) => push_rule(out, rule),
    }
}

fn push_table(out: &mut String, table: &CreateTable) -> Result<(), AllocError> {
    push_name(out, &table.name)?;
    out.push_str(" (")?;
    for (number, element) in table.elements.as_slice().iter().enumerate() {
        push_comma(out, number)?;
        push_element(out, element)?;
    }
    out.push(')')
}

/// The trees of a schema, with semicolons between them, or why the text is none.
pub(crate) fn schema(alloc: Global, text: &str) -> Result<String, NoMemory> {
    match schema_trees(alloc, text) {
        Ok(tables) => {
            let mut out = String::new(alloc);
            for (number, table) in tables.as_slice().iter().enumerate() {
                out.push_str(if number == 0 { "" } else { "; " })?;
                push_table(&mut out, table)?;
            }
            if out.is_empty() {
                out.push_str("none")?;
            }
            Ok(out)
        }
        Err(stop) => shown_stop(alloc, stop),
    }
}
