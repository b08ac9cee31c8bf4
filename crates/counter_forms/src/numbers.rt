//! The numbers of conditions and values have 64 bits, since those of their types do.
ghost use Rattle.std.specs.Prelude.{◌≡◌, true};
ghost use Rattle.std.specs.List.{list_all};
ghost use Rattle.counter_forms.specs.SmallNumbers.{has_small_numbers, is_small, term_is_small, value_is_small};

use lint_core::{Cond, Term, Value};

fn number_is_small(number: i64)
    ensures { is_small number ≡ true }
{}

fn term_is_small(term: &Term)
    ensures { term_is_small term.now ≡ true }
{
    match term {
        Term::Cell { plus, .. } => number_is_small(*plus),
        Term::Number { value, .. } => number_is_small(*value),
        Term::Text(_) | Term::Null => {}
    }
}

/// The numbers of a condition have 64 bits. It reads the condition, and does nothing else.
#[cycle(small)]
pub fn condition_has_small_numbers(cond: &Cond)
    ensures { has_small_numbers cond.now ≡ true }
{
    match cond {
        Cond::True | Cond::False | Cond::IsNull { .. } => {}
        Cond::And(parts) | Cond::Or(parts) => all_have_small_numbers(parts.as_slice()),
        Cond::Not(part) => condition_has_small_numbers(part.get()),
        Cond::Compare { left, right, .. } => {
            term_is_small(left);
            term_is_small(right);
        }
        Cond::Exists { block, .. } => condition_has_small_numbers(&block.get().cond),
        Cond::In {
            term,
            block,
            item,
            ..
        } => {
            term_is_small(term);
            term_is_small(item);
            condition_has_small_numbers(&block.get().cond);
        }
        Cond::Scalar {
            left,
            block,
            item,
            ..
        } => {
            term_is_small(left);
            term_is_small(item);
            condition_has_small_numbers(&block.get().cond);
        }
    }
}

#[cycle(small)]
fn all_have_small_numbers(conds: &[Cond])
    ensures { list_all has_small_numbers conds.now ≡ true }
{
    for cond in conds {
        condition_has_small_numbers(cond);
    }
}

/// The number that a value is has 64 bits.
pub fn value_is_small(value: &Value)
    ensures { value_is_small value.now ≡ true }
{
    match value {
        Value::Int(number) => number_is_small(*number),
        Value::Null | Value::Text(_) => {}
    }
}
