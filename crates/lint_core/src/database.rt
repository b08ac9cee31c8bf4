//! Databases, and places in them.
use lint_base::{Items, Str};

/// A value: NULL, a whole number or a text.
#[derive(Debug, Drop)]
pub enum Value {
    Null,
    Int(i64),
    Text(Str),
}

/// The three truth values.
#[derive(Clone, Copy, Debug, PartialEq, Eq)]
pub enum Truth {
    False,
    Unknown,
    True,
}

/// A row: one value for each column.
#[derive(Drop)]
pub struct Row {
    pub values: Items<Value>,
}

/// A database: for each table its rows, which are named by their place, from 0.
#[derive(Drop)]
pub struct Database {
    pub tables: Items<Items<Row>>,
}

/// One row place for each FROM entry of each level.
#[derive(Drop)]
pub struct Binding {
    pub levels: Items<Items<u32>>,
}

/// Where a question fails: at one binding, at two, or at one of all main entries but one, of which
/// no row fits.
#[derive(Drop)]
pub enum Points {
    One(Binding),
    Two(Binding, Binding),
    Without(Binding),
}

/// The first constraint that a database does not meet, by the numbers of the table, of the column,
/// key or CHECK, and of the row, each from 0.
#[derive(Clone, Copy, Debug, PartialEq, Eq)]
pub enum Violation {
    /// A value outside its column's domain.
    Domain {
        table: u32,
        row: u32,
        column: u32,
    },
    /// NULL in a column that is NOT NULL.
    Null {
        table: u32,
        row: u32,
        column: u32,
    },
    /// Two rows that agree in the columns of a key, the first before the other.
    Twice {
        table: u32,
        key: u32,
        row: u32,
        other: u32,
    },
    /// A row at which a CHECK is false.
    Check {
        table: u32,
        check: u32,
        row: u32,
    },
    /// A row whose foreign key refers to no row.
    Dangling {
        table: u32,
        key: u32,
        row: u32,
    },
}

/// A foreign key, by the number of its table and by its number there, each from 0.
#[derive(Clone, Copy, Debug, PartialEq, Eq)]
pub struct KeyName {
    pub table: u32,
    pub index: u32,
}

/// A database in which a question fails at these points.
#[derive(Drop)]
pub struct Counter {
    pub database: Database,
    pub points: Points,
}
