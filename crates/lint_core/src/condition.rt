//! Conditions, in their bound form, and the queries that they stand in.
use crate::schema::Unit;
use lint_base::{Items, Span, Str};
use lint_tables::Op;
use sqlite_items::Boxed;

/// What a comparison compares.
#[derive(Debug, Drop)]
pub enum Term {
    /// A column of a FROM entry, plus a number. Level 0 is the main query; entries and columns
    /// count from 0. Nothing is added to a text.
    Cell {
        level: u32,
        entry: u32,
        column: u32,
        plus: i64,
    },
    /// A number.
    Number {
        value: i64,
        unit: Unit,
    },
    /// A text.
    Text(Str),
    Null,
}

/// A condition. Its truth is false, unknown or true (ISO/IEC 9075:1992, 8.12). The place of a
/// predicate runs from its first to its last token; that of a subquery from its left to its right
/// parenthesis.
#[cycle(condition)]
#[derive(Drop)]
pub enum Cond {
    True,
    False,
    And(Items<Cond>),
    Or(Items<Cond>),
    Not(Boxed<Cond>),
    Compare {
        op: Op,
        left: Term,
        right: Term,
        span: Span,
    },
    IsNull {
        term: Term,
        negated: bool,
        span: Span,
    },
    Exists {
        block: Boxed<Block>,
        span: Span,
    },
    /// `item` is what the subquery selects.
    In {
        term: Term,
        block: Boxed<Block>,
        item: Term,
        negated: bool,
        span: Span,
    },
    /// A comparison with a scalar subquery, which selects `item`.
    Scalar {
        op: Op,
        left: Term,
        block: Boxed<Block>,
        item: Term,
        span: Span,
    },
}

/// A FROM list with its condition: that of WHERE and of each ON.
#[cycle(condition)]
#[derive(Drop)]
pub struct Block {
    pub entries: Items<Entry>,
    pub cond: Cond,
    pub span: Span,
}

/// An entry of a FROM list: the number of its table, its visible name and its place.
#[derive(Debug, Drop)]
pub struct Entry {
    pub table: u32,
    pub name: Str,
    pub span: Span,
}
