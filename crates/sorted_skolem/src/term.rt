//! Orders of tables, and row terms.
use lint_base::Items;

/// The live tables, each behind those from which an edge leads to it.
#[derive(Debug, Drop)]
pub struct Order {
    pub tables: Items<u32>,
}

/// A row that an Exists node asks for, at one row term for each Forall around it: the numbers of
/// the sentence and the node, those of the row terms, the outermost Forall's first, and the table.
#[derive(Debug, Drop)]
pub struct RowTerm {
    pub sentence: u32,
    pub node: u32,
    pub rows: Items<u32>,
    pub table: u32,
}

/// The row terms, each at its number.
#[derive(Debug, Drop)]
pub struct Rows {
    pub terms: Items<RowTerm>,
}
