//! The assignment that `judge` answered last, tried on the literals of choices.
ghost use Rattle.std.specs.Prelude.{◌≡◌, Bool, true, not};
ghost use Rattle.std.specs.List.{list_all, zip};
ghost use Rattle.lint_core.specs.Comparison.{is_null, is_same_text};
ghost use Rattle.sort_formula.specs.Holds.{are_texts, differ_by_at_most};
ghost use Rattle.ground_theory.specs.Assignments.{HasAssignment, are_one, cell_at, satisfies};
ghost use Rattle.ground_theory.specs.Assignments.{satisfies_all, side_at};
ghost use Rattle.case_split.specs.Choices.{literal_chosen, literals_of};
ghost use Rattle.case_split.specs.inner.Kept.{IsKept};
ghost use Rattle.case_split.specs.inner.Seen.{value_in, value_of};

use ground_theory::{Assignment, Clause, Frame};
use lint_base::Str;
use lint_core::Value;
use sort_formula::{Atom, Side};

/// A value where it stands.
#[derive(Clone, Copy)]
enum Seen<'a> {
    Null,
    Number(i64),
    Text(&'a Str),
}

/// The value of a cell.
fn cell<'a>(assignment: &'a Assignment, row: u32, column: u32) -> Option<&'a Value>
    ensures { value_in result ≡ cell_at assignment.now row column }
{
    let cells = assignment.cells.as_slice().get(row as usize)?;
    cells.as_slice().get(column as usize)
}

/// A value that was found, or NULL.
fn value_seen<'a>(found: Option<&'a Value>) -> Seen<'a>
    ensures { value_of result ≡ value_in found.entry }
{
    match found {
        Some(Value::Int(number)) => Seen::Number(*number),
        Some(Value::Text(text)) => Seen::Text(text),
        Some(Value::Null) | None => Seen::Null,
    }
}

/// The value of a side.
fn side<'a>(assignment: &'a Assignment, side: &'a Side) -> Seen<'a>
    ensures { value_of result ≡ side_at assignment.now side.now }
{
    match side {
        Side::Cell { row, column } => value_seen(cell(assignment, *row, *column)),
        Side::Zero => Seen::Number(0),
        Side::Text(text) => Seen::Text(text),
    }
}

fn is_null(value: Seen) -> bool
    ensures { result ≡ is_null (value_of value.entry) }
{
    match value {
        Seen::Null => true,
        Seen::Number(_) | Seen::Text(_) => false,
    }
}

fn differ_by_at_most(left: Seen, right: Seen, most: i128) -> bool
    ensures { result ≡ differ_by_at_most (value_of left.entry) (value_of right.entry) most }
{
    match (left, right) {
        (Seen::Number(left), Seen::Number(right)) => i128::from(left) - i128::from(right) <= most,
        _ => false,
    }
}

fn is_same_text(left: &Str, right: &Str) -> bool
    ensures { result ≡ is_same_text left.now right.now }
{
    left.as_str() == right.as_str()
}

fn are_same_texts(left: Seen, right: Seen) -> bool
    ensures { let same = λ (same : Bool). same in
        result ≡ are_texts same (value_of left.entry) (value_of right.entry) }
{
    match (left, right) {
        (Seen::Text(left), Seen::Text(right)) => is_same_text(left, right),
        _ => false,
    }
}

fn are_other_texts(left: Seen, right: Seen) -> bool
    ensures { result ≡ are_texts not (value_of left.entry) (value_of right.entry) }
{
    match (left, right) {
        (Seen::Text(left), Seen::Text(right)) => !is_same_text(left, right),
        _ => false,
    }
}

/// Whether the two row terms are of one class.
fn are_one(assignment: &Assignment, row: u32, other: u32) -> bool
    ensures { result ≡ are_one assignment.now row other }
{
    let classes = assignment.same.as_slice();
    let Some(class) = classes.get(row as usize) else {
        return false;
    };
    match classes.get(other as usize) {
        Some(second) => class == second,
        None => false,
    }
}

/// Whether the assignment satisfies the atom.
fn satisfies(assignment: &Assignment, atom: &Atom) -> bool
    ensures { result ≡ satisfies assignment.now atom.now }
{
    match atom {
        Atom::Le { left, right, most } => {
            differ_by_at_most(side(assignment, left), side(assignment, right), *most)
        }
        Atom::TextEq { left, right } => {
            are_same_texts(side(assignment, left), side(assignment, right))
        }
        Atom::TextNe { left, right } => {
            are_other_texts(side(assignment, left), side(assignment, right))
        }
        Atom::IsNull { row, column } => is_null(value_seen(cell(assignment, *row, *column))),
        Atom::NotNull { row, column } => !is_null(value_seen(cell(assignment, *row, *column))),
        Atom::Same { row, other } => are_one(assignment, *row, *other),
        Atom::Other { row, other } => !are_one(assignment, *row, *other),
    }
}

/// Whether the assignment satisfies the literal of a clause's choice, if there is one.
fn satisfies_choice(assignment: &Assignment, clause: &Clause, choice: Option<u32>) -> bool
    ensures { result ≡ satisfies_all assignment.now (literal_chosen clause.now choice) }
{
    let Some(way) = choice else {
        return true;
    };
    match clause.ways.as_slice().get(way as usize) {
        Some(Some(literal)) => satisfies(assignment, &literal.atom),
        _ => true,
    }
}

fn pairs_hold(assignment: &Assignment, clauses: &[Clause], chosen: &[Option<u32>]) -> bool
    ensures { result ≡ list_all
        (λ pair. satisfies_all assignment.now (literal_chosen pair.0 pair.1))
        (zip clauses.now chosen.now) }
{
    clauses.iter().zip(chosen).all(|(clause, choice)| satisfies_choice(assignment, clause, *choice))
}

/// Whether the assignment satisfies the literals of all choices.
#[tactic(auto, using(crate::proofs::Pairs::choices_satisfied))]
fn satisfies_all(assignment: &Assignment, clauses: &[Clause], chosen: &[Option<u32>]) -> bool
    ensures { result ≡ satisfies_all assignment.now (literals_of clauses.now chosen.now) }
{
    pairs_hold(assignment, clauses, chosen)
}

/// Whether the kept assignment satisfies the literals of all choices. `frame` is what it fits.
pub(crate) fn is_kept(
    kept: &Option<Assignment>,
    clauses: &[Clause],
    frame: &Frame,
    chosen: &[Option<u32>],
) -> bool
    requires { IsKept frame.now kept.now }
    ensures { result ≡ true → HasAssignment frame.now (literals_of clauses.now chosen.now) }
{
    match kept {
        Some(assignment) => satisfies_all(assignment, clauses, chosen),
        None => false,
    }
}
