//! Queries.
use crate::term::{NameTree, TermTree};
use lint_base::{Items, Span};
use lint_tables::Op;
use sqlite_items::Boxed;

/// A query with its ORDER BY.
#[derive(Drop)]
pub struct QueryTree {
    pub select: SelectTree,
    pub order: Items<OrderTree>,
}

/// A key of ORDER BY: the number of an item, or a column.
#[derive(Drop)]
pub enum OrderTree {
    Place { number: i64, span: Span },
    Column(TermTree),
}

/// A SELECT. `distinct` is the place of the word. The place of a subquery runs from its left to
/// its right parenthesis, that of the main SELECT over all its tokens, ORDER BY included.
#[cycle(select)]
#[derive(Drop)]
pub struct SelectTree {
    pub distinct: Option<Span>,
    pub items: Items<ItemTree>,
    pub from: Items<EntryTree>,
    pub filter: Option<CondTree>,
    pub span: Span,
}

/// An item of a SELECT.
#[derive(Drop)]
pub enum ItemTree {
    Star(Span),
    StarOf {
        table: NameTree,
        star: Span,
    },
    Term {
        term: TermTree,
        alias: Option<NameTree>,
    },
}

/// An entry of a FROM list. `first` is the number of the first entry of its joined group.
#[cycle(select)]
#[derive(Drop)]
pub struct EntryTree {
    pub table: NameTree,
    pub alias: Option<NameTree>,
    pub on: Option<CondTree>,
    pub first: u32,
}

/// A condition. The place of a predicate runs from its first to its last token; a NOT before it
/// does not count.
#[cycle(select)]
#[derive(Drop)]
pub enum CondTree {
    And(Items<CondTree>),
    Or(Items<CondTree>),
    Not(Boxed<CondTree>),
    Compare {
        op: Op,
        left: TermTree,
        right: TermTree,
        span: Span,
    },
    Scalar {
        op: Op,
        left: TermTree,
        select: Boxed<SelectTree>,
        span: Span,
    },
    IsNull {
        term: TermTree,
        negated: bool,
        span: Span,
    },
    Between {
        term: TermTree,
        low: TermTree,
        high: TermTree,
        negated: bool,
        span: Span,
    },
    InList {
        term: TermTree,
        values: Items<TermTree>,
        negated: bool,
        span: Span,
    },
    InSelect {
        term: TermTree,
        select: Boxed<SelectTree>,
        negated: bool,
        span: Span,
    },
    Exists {
        select: Boxed<SelectTree>,
        span: Span,
    },
}
