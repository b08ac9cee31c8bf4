//! The lists of clauses, over one row term with one number column, x.
ghost use Rattle.std.specs.Prelude.{◌≡◌, ◌+◌, true, length, IfOk, OnOk, Some, [], ◌∷◌};
ghost use Rattle.case_split.specs.Fitting.{are_fit, have_few_ways};
ghost use Rattle.sort_formula.specs.declared.formula.Atom.TheVariants as atom;
ghost use Rattle.worked_searches.specs.Lists.{one_number, IsSearchable};

use ground_theory::{Clause, Frame, Guard, Literal};
use lint_base::{Items, NoMemory};
use lint_core::{Domain, Unit};
use sort_formula::{Atom, Side};
use std::alloc::Global;

const X: Side = Side::Cell { row: 0, column: 0 };

pub(crate) fn frame(alloc: Global) -> Result<Frame, NoMemory>
    ensures { IfOk result (λ frame. frame ≡ one_number) }
{
    let mut columns = Items::new(alloc);
    columns.push(Domain::Number {
        least: -0x8000,
        greatest: 0x7fff,
        unit: Unit::Whole,
    })?;
    let mut domains = Items::new(alloc);
    domains.push(columns)?;
    let mut tables = Items::new(alloc);
    tables.push(0)?;
    Ok(Frame { tables, domains })
}

/// A way whose literal says that left minus right is at most this.
fn le(left: Side, right: Side, most: i128) -> Option<Literal>
    ensures { result ≡ Some (record { atom = atom.Le left right most }) }
{
    Some(Literal {
        atom: Atom::Le { left, right, most },
    })
}

/// A clause of one way.
fn one(alloc: Global, guards: Items<Guard>, way: Option<Literal>) -> Result<Clause, NoMemory>
    ensures { IfOk result (λ clause. clause.ways ≡ way ∷ []) }
{
    let mut ways = Items::new(alloc);
    ways.push(way)?;
    Ok(Clause { guards, ways })
}

/// A clause of two ways that waits for nothing.
fn two(alloc: Global, first: Option<Literal>, second: Option<Literal>) -> Result<Clause, NoMemory>
    ensures { IfOk result (λ clause. clause.ways ≡ first ∷ second ∷ []) }
{
    let mut ways = Items::new(alloc);
    ways.push(first)?;
    ways.push(second)?;
    Ok(Clause {
        guards: Items::new(alloc),
        ways,
    })
}

/// Adds twenty clauses of two ways without literals.
fn add_free_choices(alloc: Global, clauses: &mut Items<Clause>) -> Result<(), NoMemory>
    requires fitting { are_fit one_number clauses.old ≡ true }
    requires ways { have_few_ways clauses.old ≡ true }
    ensures fitting { OnOk result (are_fit one_number clauses.new ≡ true) }
    ensures ways { OnOk result (have_few_ways clauses.new ≡ true) }
    ensures count { OnOk result (length clauses.new ≡ length clauses.old + 20) }
{
    for number in 0..20_u32 {
        clauses.push(two(alloc, None, None)?)?;
    }
    Ok(())
}

/// One choice of two ways, both free.
pub(crate) fn free_choice(alloc: Global) -> Result<Items<Clause>, NoMemory>
    ensures { IfOk result (λ clauses. IsSearchable clauses) }
{
    let mut clauses = Items::new(alloc);
    clauses.push(two(alloc, None, None)?)?;
    Ok(clauses)
}

/// x is below 0; where that is taken, x is at least 0.
pub(crate) fn contradiction(alloc: Global) -> Result<Items<Clause>, NoMemory>
    ensures { IfOk result (λ clauses. IsSearchable clauses) }
{
    let mut guards = Items::new(alloc);
    guards.push(Guard { clause: 0, way: 0 })?;
    let mut clauses = Items::new(alloc);
    clauses.push(one(alloc, Items::new(alloc), le(X, Side::Zero, -1))?)?;
    clauses.push(one(alloc, guards, le(Side::Zero, X, 0))?)?;
    Ok(clauses)
}

/// x is below 0, twenty free choices, x is at least 0.
pub(crate) fn useless_choices(alloc: Global) -> Result<Items<Clause>, NoMemory>
    ensures { IfOk result (λ clauses. IsSearchable clauses) }
{
    let mut clauses = Items::new(alloc);
    clauses.push(one(alloc, Items::new(alloc), le(X, Side::Zero, -1))?)?;
    add_free_choices(alloc, &mut clauses)?;
    clauses.push(one(alloc, Items::new(alloc), le(Side::Zero, X, 0))?)?;
    Ok(clauses)
}

/// x is below 0 or below -1, twenty free choices, x is at least 0 or at least 1.
pub(crate) fn needed_choice(alloc: Global) -> Result<Items<Clause>, NoMemory>
    ensures { IfOk result (λ clauses. IsSearchable clauses) }
{
    let mut clauses = Items::new(alloc);
    clauses.push(two(alloc, le(X, Side::Zero, -1), le(X, Side::Zero, -2))?)?;
    add_free_choices(alloc, &mut clauses)?;
    clauses.push(two(alloc, le(Side::Zero, X, 0), le(Side::Zero, X, -1))?)?;
    Ok(clauses)
}
