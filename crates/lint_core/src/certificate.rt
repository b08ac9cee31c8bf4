//! Certificates: proofs that a question's sentence holds in no database that meets the schema.
use crate::database::Value;
use lint_base::Items;

/// An edge of a ring of inequalities.
#[derive(Clone, Copy, Debug, PartialEq, Eq)]
pub enum SumEdge {
    /// The inequality of a fact.
    Fact(u32),
    /// A cell is at least the least value of its domain.
    Low { row: u32, column: u32 },
    /// A cell is at most the greatest value of its domain.
    High { row: u32, column: u32 },
    /// The fact says that two rows are one: the column's value in the first is at most that in the
    /// second.
    Same { fact: u32, column: u32 },
    /// Alike, the second at most the first.
    Back { fact: u32, column: u32 },
}

/// An edge of a chain of equal texts.
#[derive(Clone, Copy, Debug, PartialEq, Eq)]
pub enum TextEdge {
    /// The two texts of a fact are equal, from its left side to its right.
    Fact(u32),
    /// Alike, from its right side to its left.
    FactBack(u32),
    /// The fact says that two rows are one: so are the column's texts, from the first row to the
    /// second.
    Same { fact: u32, column: u32 },
    /// Alike, from the second to the first.
    Back { fact: u32, column: u32 },
}

/// A part of a path between rows: a fact that says that two rows are one, taken from its first to
/// its second, or back.
#[derive(Clone, Copy, Debug, PartialEq, Eq)]
pub struct SameEdge {
    pub fact: u32,
    pub back: bool,
}

/// A step of a certificate. Facts, rows and columns count from 0.
#[derive(Drop)]
pub enum Step {
    /// Takes a conjunction apart.
    And {
        fact: u32,
    },
    /// Makes one branch for each part of a disjunction.
    Or {
        fact: u32,
    },
    /// Takes a new row, of which a quantifier says that it is there.
    Ex {
        fact: u32,
    },
    /// Says of a row what is said of every row of its table.
    All {
        fact: u32,
        row: u32,
    },
    /// Closes the branch: the inequalities of the ring contradict each other.
    Sum {
        edges: Items<SumEdge>,
    },
    /// Closes the branch: the two sides of the last fact are not equal, and the chain makes them
    /// equal; or without a last fact the chain makes two different texts equal.
    Text {
        last: Option<u32>,
        edges: Items<TextEdge>,
    },
    /// Closes the branch: the cell of the fact is NULL, and the other fact, whose row is the same
    /// by the path, says that it is not.
    Null {
        fact: u32,
        other: u32,
        path: Items<SameEdge>,
    },
    /// Closes the branch: the two rows of the fact differ, and are the same by the path.
    Same {
        fact: u32,
        path: Items<SameEdge>,
    },
}

/// A certificate for a question of a query. Both count from 1. The value is that of a constant
/// column; for every other question it is not looked at, and NULL where this program writes it.
#[derive(Drop)]
pub struct Cert {
    pub query: u32,
    pub question: u32,
    pub value: Value,
    pub steps: Items<Step>,
}
