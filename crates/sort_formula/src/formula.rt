//! Formulas about rows. A row variable is the number of quantifiers outside the one that binds it.
use lint_base::{Items, Str};
use sqlite_items::Boxed;

/// A side of a comparison: a cell of the row of a variable, the number 0, or a text.
#[derive(Debug, Drop)]
pub enum Side {
    Cell { row: u32, column: u32 },
    Zero,
    Text(Str),
}

/// What an atom says of rows. A comparison holds only where neither side is NULL.
#[derive(Debug, Drop)]
pub enum Atom {
    /// Left minus right is at most `most`, of numbers.
    Le { left: Side, right: Side, most: i128 },
    /// The two texts are the same.
    TextEq { left: Side, right: Side },
    /// The two texts are not the same.
    TextNe { left: Side, right: Side },
    IsNull { row: u32, column: u32 },
    NotNull { row: u32, column: u32 },
    /// The two variables have one row.
    Same { row: u32, other: u32 },
    /// The two variables have two rows.
    Other { row: u32, other: u32 },
}

/// A formula. And of nothing is true, Or of nothing false; a quantifier ranges over the rows of
/// its table.
#[derive(Drop)]
pub enum Formula {
    Atom(Atom),
    And(Items<Formula>),
    Or(Items<Formula>),
    Exists { table: u32, body: Boxed<Formula> },
    Forall { table: u32, body: Boxed<Formula> },
}
