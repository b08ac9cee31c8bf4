//! Queries in their bound form, and the questions asked of them.
use crate::condition::{Block, Term};
use lint_base::{Items, Span};

/// A selected item. `star` says that it comes from `*`. Nothing is added to its column.
#[derive(Debug, Drop)]
pub struct Item {
    pub term: Term,
    pub star: bool,
    pub span: Span,
}

/// A query: what it selects, and from which combinations of rows. `distinct` is the place of
/// DISTINCT, `order` the columns of ORDER BY.
#[derive(Drop)]
pub struct Query {
    pub distinct: Option<Span>,
    pub items: Items<Item>,
    pub block: Block,
    pub order: Items<Term>,
}

/// What is asked of a query. Subqueries, items, entries and predicates are named by their numbers,
/// from 0.
#[derive(Clone, Copy, Debug, PartialEq, Eq)]
pub enum Question {
    /// E9: does the scalar subquery give at most one row? They are counted by their right
    /// parentheses.
    OneRow { sub: u32 },
    /// E1: is the answer empty?
    Empty,
    /// E2: does DISTINCT leave the answer as it is?
    NeedlessDistinct,
    /// E3: has the item one value in all rows?
    Constant { item: u32 },
    /// E4: have the two items the same value in each row?
    Duplicate { item: u32, other: u32 },
    /// E5: does each combination of the other entries' rows, at which the conjuncts that do not
    /// name the entry are true, find exactly one row of it that makes the other conjuncts true?
    NeedlessJoin { entry: u32 },
    /// E6: is WHERE true at the same bindings with TRUE in place of the predicate?
    Implied { predicate: u32 },
    /// E7: is WHERE true at the same bindings with FALSE in place of the predicate?
    Impossible { predicate: u32 },
    /// E8: have the two entries always the same row?
    SameRow { entry: u32, other: u32 },
    /// E10: does the NOT IN subquery never select NULL? Those that select a column are counted by
    /// their left parentheses.
    NullInNotIn { sub: u32 },
}
