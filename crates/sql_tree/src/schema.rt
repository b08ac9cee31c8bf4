//! Declarations of tables.
use crate::select::CondTree;
use crate::term::NameTree;
use lint_base::{Items, Span};

/// CREATE TABLE.
#[derive(Drop)]
pub struct CreateTable {
    pub name: NameTree,
    pub elements: Items<Element>,
}

/// A column with its rules, or a rule beside the columns.
#[derive(Drop)]
pub enum Element {
    Column {
        name: NameTree,
        kind: TypeTree,
        rules: Items<RuleTree>,
    },
    Rule(RuleTree),
}

/// A type. The place of a length is that of its number, or of the word CHAR or CHARACTER where
/// there is none.
#[derive(Drop)]
pub enum TypeTree {
    Small,
    Integer,
    Big,
    Text { length: i64, span: Span },
}

/// A rule. One that is written at a column has that column as its one column.
#[derive(Drop)]
pub enum RuleTree {
    NotNull,
    Unique {
        columns: Items<NameTree>,
    },
    /// The place is that of the word PRIMARY.
    Primary {
        columns: Items<NameTree>,
        span: Span,
    },
    Check(CondTree),
    /// The place runs from REFERENCES or FOREIGN to the last name before the actions.
    Foreign {
        columns: Items<NameTree>,
        table: NameTree,
        target: Items<NameTree>,
        span: Span,
    },
}
