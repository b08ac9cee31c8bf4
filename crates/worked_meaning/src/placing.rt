//! Which formulas `place` takes.
ghost use Rattle.std.specs.Prelude.{◌≡◌, ◌+◌, ◌-◌, ◌<◌, ◌^◌, true, min, sum, map};
ghost use Rattle.std.specs.List.{list_all};
ghost use Rattle.sort_formula.specs.Nodes.{quantifiers};
ghost use Rattle.sort_formula.specs.Variables.{side_is_below, atom_is_below, is_numbered_from};

use sort_formula::{Atom, Formula, Side};

fn side_is_below(side: &Side, count: u64) -> bool
    ensures { result ≡ side_is_below count side.now }
{
    match side {
        Side::Cell { row, .. } => u64::from(*row) < count,
        Side::Zero | Side::Text(_) => true,
    }
}

/// Whether each variable of the atom is below the number.
fn atom_is_below(atom: &Atom, count: u64) -> bool
    ensures { result ≡ atom_is_below count atom.now }
{
    match atom {
        Atom::Le { left, right, .. }
        | Atom::TextEq { left, right }
        | Atom::TextNe { left, right } => side_is_below(left, count) && side_is_below(right, count),
        Atom::IsNull { row, .. } | Atom::NotNull { row, .. } => u64::from(*row) < count,
        Atom::Same { row, other } | Atom::Other { row, other } => {
            u64::from(*row) < count && u64::from(*other) < count
        }
    }
}

/// Whether each variable is below the number of quantifiers outside it, of which so many stand
/// outside the formula.
#[cycle(numbered)]
fn is_numbered(formula: &Formula, outside: u64) -> bool
    ensures { result ≡ true → is_numbered_from outside formula.now ≡ true }
{
    match formula {
        Formula::Atom(atom) => atom_is_below(atom, outside),
        Formula::And(parts) => are_numbered(parts.as_slice(), outside),
        Formula::Or(parts) => are_numbered(parts.as_slice(), outside),
        Formula::Exists { body, .. } => outside != u64::MAX && is_numbered(body.get(), outside + 1),
        Formula::Forall { body, .. } => outside != u64::MAX && is_numbered(body.get(), outside + 1),
    }
}

#[cycle(numbered)]
fn are_numbered(parts: &[Formula], outside: u64) -> bool
    ensures { result ≡ true → list_all (is_numbered_from outside) parts.now ≡ true }
{
    for part in parts {
        if !is_numbered(part, outside) {
            return false;
        }
    }
    true
}

/// How many quantifiers the formula has. The greatest `u64` where there are more.
#[cycle(quantifiers)]
fn quantifiers(formula: &Formula) -> u64
    ensures { result ≡ min (quantifiers formula.now) (2 ^ 64 - 1) }
{
    match formula {
        Formula::Atom(_) => 0,
        Formula::And(parts) | Formula::Or(parts) => quantifiers_of_all(parts.as_slice()),
        Formula::Exists { body, .. } | Formula::Forall { body, .. } => {
            quantifiers(body.get()).saturating_add(1)
        }
    }
}

#[cycle(quantifiers)]
fn quantifiers_of_all(parts: &[Formula]) -> u64
    ensures { result ≡ min (sum (map quantifiers parts.now)) (2 ^ 64 - 1) }
{
    let mut count: u64 = 0;
    for part in parts {
        count = count.saturating_add(quantifiers(part));
    }
    count
}

/// Whether the formula can be placed: each variable is bound in it or among so many outside it,
/// and its quantifiers can be counted from the depth on.
pub(crate) fn can_be_placed(formula: &Formula, outside: usize, depth: u32) -> bool
    ensures variables { result ≡ true → is_numbered_from outside formula.now ≡ true }
    ensures depth { result ≡ true → depth + quantifiers formula.now < 2 ^ 32 }
{
    is_numbered(formula, outside as u64) && quantifiers(formula) < (1 << 32) - u64::from(depth)
}
