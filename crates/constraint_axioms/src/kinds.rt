//! What a column holds.
ghost use Rattle.std.specs.Prelude.{◌≡◌};
ghost use Rattle.sort_formula.specs.Axioms.{is_text_column};

use lint_core::{Kind, Table};

pub(crate) fn holds_texts(table: &Table, column: u32) -> bool
    ensures { result ≡ is_text_column table.now column }
{
    matches!(table.column_kind(column), Some(Kind::Text))
}
