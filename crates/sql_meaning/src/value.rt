//! Values as an evaluation sees them, and their comparison.
ghost use Rattle.std.specs.Prelude.{◌≡◌, Bool, unwrap_or, option_map};
ghost use Rattle.lint_tables.specs.Operators.{is_related};
ghost use Rattle.lint_core.specs.Comparison.{compare, compare_texts, plus, is_null, is_same_text};
ghost use Rattle.lint_core.specs.Condition.{cell_value, term_value};
ghost use Rattle.lint_core.specs.Database.{value_at};
ghost use Rattle.lint_core.specs.Truth.{truth_of};
ghost use Rattle.lint_core.specs.declared.database.Value.TheVariants.{Null};
ghost use Rattle.sql_meaning.specs.inner.Seen.{value_of, value_in};
ghost use Rattle.sql_meaning.specs.inner.Standing.{tables_of_levels, binding_of_levels};

use crate::levels::Levels;
use lint_base::Str;
use lint_core::{Database, Term, Truth, Value};
use lint_tables::Op;

/// A value where it stands. A cell's number with what is added to it needs more than 64 bits.
#[derive(Clone, Copy, Debug)]
pub(crate) enum Seen<'a> {
    Null,
    Number(i128),
    Text(&'a Str),
}

/// A truth that is not unknown.
pub(crate) fn truth_of(holds: bool) -> Truth
    ensures { result ≡ truth_of holds }
{
    if holds { Truth::True } else { Truth::False }
}

fn is_related(op: Op, left: i128, right: i128) -> bool
    ensures { result ≡ is_related op left right }
{
    match op {
        Op::Eq => left == right,
        Op::Ne => left != right,
        Op::Lt => left < right,
        Op::Le => left <= right,
        Op::Gt => left > right,
        Op::Ge => left >= right,
    }
}

fn is_same_text(left: &Str, right: &Str) -> bool
    ensures { result ≡ is_same_text left.now right.now }
{
    left.as_str() == right.as_str()
}

fn compare_texts(op: Op, left: &Str, right: &Str) -> Truth
    ensures { result ≡ compare_texts op left.now right.now }
{
    match op {
        Op::Eq => truth_of(is_same_text(left, right)),
        Op::Ne => truth_of(!is_same_text(left, right)),
        Op::Lt | Op::Le | Op::Gt | Op::Ge => Truth::Unknown,
    }
}

/// The truth of a comparison.
pub(crate) fn compare(op: Op, left: &Seen, right: &Seen) -> Truth
    ensures { result ≡ compare op (value_of left.now) (value_of right.now) }
{
    match (left, right) {
        (Seen::Number(left), Seen::Number(right)) => truth_of(is_related(op, *left, *right)),
        (Seen::Text(left), Seen::Text(right)) => compare_texts(op, left, right),
        _ => Truth::Unknown,
    }
}

impl<'a> Seen<'a> {
    /// What a cell has, with a number added; NULL where there is no such cell.
    fn sum(cell: Option<&'a Value>, added: i64) -> Seen<'a>
        ensures { value_of result ≡ plus (value_in cell.entry) added }
    {
        match cell {
            Some(Value::Int(number)) => Seen::Number(i128::from(*number) + i128::from(added)),
            Some(Value::Text(text)) => Seen::Text(text),
            Some(Value::Null) | None => Seen::Null,
        }
    }

    pub(crate) fn is_null(&self) -> bool
        ensures { result ≡ is_null (value_of self.now) }
    {
        match self {
            Seen::Null => true,
            Seen::Number(_) | Seen::Text(_) => false,
        }
    }
}

/// The cell of a column, in the row of an entry of a level.
fn cell<'a>(
    database: &'a Database,
    levels: &Levels,
    level: u32,
    entry: u32,
    column: u32,
) -> Option<&'a Value>
    ensures { value_in result
        ≡ cell_value database.now (tables_of_levels levels.now) (binding_of_levels levels.now)
        level entry column }
{
    let table = levels.table_at(level, entry)?;
    let row = levels.row_at(level, entry)?;
    let rows = database.tables.as_slice().get(table as usize)?;
    rows.as_slice()
        .get(row)?
        .values
        .as_slice()
        .get(column as usize)
}

/// The value of a term at a binding.
pub(crate) fn term_value<'a>(database: &'a Database, term: &'a Term, levels: &Levels) -> Seen<'a>
    ensures { value_of result
        ≡ term_value database.now (tables_of_levels levels.now) (binding_of_levels levels.now)
        term.now }
{
    match term {
        Term::Cell {
            level,
            entry,
            column,
            plus,
        } => Seen::sum(cell(database, levels, *level, *entry, *column), *plus),
        Term::Number { value, .. } => Seen::Number(i128::from(*value)),
        Term::Text(text) => Seen::Text(text),
        Term::Null => Seen::Null,
    }
}
