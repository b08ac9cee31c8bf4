//! Formulas put together.
ghost use Rattle.std.specs.Prelude.{◌≡◌, ◌∷◌, [], ◌<◌, ◌+◌, ◌^◌, IfOk};
ghost use Rattle.lint_core.specs.Asked.{main_entries};
ghost use Rattle.lint_core.specs.Fits.{tables_of};
ghost use Rattle.sort_formula.specs.Counters.{some_other};
ghost use Rattle.sort_formula.specs.Sides.{from_number};
ghost use Rattle.sort_formula.specs.Translation.{exist_rows};
ghost use Rattle.sort_formula.specs.declared.formula.Formula.TheVariants as f;

use crate::scopes::own_tables;
use lint_base::{Items, NoMemory};
use lint_core::Query;
use sort_formula::{Atom, Formula, exist_rows};
use std::alloc::Global;

/// Both hold.
pub(crate) fn both(alloc: Global, one: Formula, other: Formula) -> Result<Formula, NoMemory>
    ensures { IfOk result (λ formula. formula ≡ f.And (one ∷ other ∷ [])) }
{
    let mut parts = Items::new(alloc);
    parts.push(one)?;
    parts.push(other)?;
    Ok(Formula::And(parts))
}

/// One of the two holds.
pub(crate) fn either(alloc: Global, one: Formula, other: Formula) -> Result<Formula, NoMemory>
    ensures { IfOk result (λ formula. formula ≡ f.Or (one ∷ other ∷ [])) }
{
    let mut ways = Items::new(alloc);
    ways.push(one)?;
    ways.push(other)?;
    Ok(Formula::Or(ways))
}

/// Some two rows differ: of the variables from the first on, and from the second on, so many.
pub(crate) fn some_other(
    alloc: Global,
    first: u32,
    second: u32,
    count: u32,
) -> Result<Formula, NoMemory>
    requires first { first + count < 2 ^ 32 }
    requires second { second + count < 2 ^ 32 }
    ensures { IfOk result (λ formula. formula
        ≡ some_other (from_number first count) (from_number second count)) }
{
    let mut ways = Items::new(alloc);
    for number in 0..count {
        ways.push(Formula::Atom(Atom::Other {
            row: first + number,
            other: second + number,
        }))?;
    }
    Ok(Formula::Or(ways))
}

/// Some rows of the main entries satisfy the body.
pub(crate) fn some_own(alloc: Global, query: &Query, body: Formula) -> Result<Formula, NoMemory>
    ensures { IfOk result (λ formula. formula
        ≡ exist_rows (tables_of (main_entries query.now)) body) }
{
    let own = own_tables(alloc, query)?;
    exist_rows(alloc, own.as_slice(), body)
}
