//! What `judge` answers of small lists of literals.
ghost use Rattle.std.specs.Prelude.{◌≡◌, ◌≤◌, true, IfOk, length};
ghost use Rattle.std.specs.List.{list_all};
ghost use Rattle.sort_formula.specs.declared.formula.Side.TheVariants as side;
ghost use Rattle.sort_formula.specs.declared.formula.Atom.TheVariants as atom;
ghost use Rattle.ground_theory.specs.Examples.{mixed};
ghost use Rattle.ground_theory.specs.Judgeable.{can_be_judged};

use ground_theory::{Frame, Judged, Literal, judge};
use lint_base::{Items, NoMemory, Str};
use lint_core::{Domain, Step, Unit, Value};
use sort_formula::{Atom, Side};
use std::alloc::Global;

fn cell(row: u32, column: u32) -> Side
    ensures { result ≡ side.Cell row column }
{
    Side::Cell { row, column }
}

fn le(left: Side, right: Side, most: i128) -> Literal
    ensures { result ≡ record { atom = atom.Le left right most } }
{
    Literal {
        atom: Atom::Le { left, right, most },
    }
}

fn same(row: u32, other: u32) -> Literal
    ensures { result ≡ record { atom = atom.Same row other } }
{
    Literal {
        atom: Atom::Same { row, other },
    }
}

/// Three rows of one table, of one SMALLINT column and one of texts.
fn frame(alloc: Global) -> Result<Frame, NoMemory>
    ensures { IfOk result (λ frame. frame ≡ mixed) }
{
    let mut columns = Items::new(alloc);
    columns.push(Domain::Number {
        least: -0x8000,
        greatest: 0x7fff,
        unit: Unit::Whole,
    })?;
    columns.push(Domain::Text { length: 10 })?;
    let mut domains = Items::new(alloc);
    domains.push(columns)?;
    let mut tables = Items::new(alloc);
    tables.push(0)?;
    tables.push(0)?;
    tables.push(0)?;
    Ok(Frame { tables, domains })
}

fn judged(alloc: Global, literals: &[Literal]) -> Result<Judged, NoMemory>
    requires fitting { list_all (can_be_judged mixed) literals.now ≡ true }
    requires count { length literals.now ≤ 400000 }
{
    let frame = frame(alloc)?;
    judge(alloc, literals, &frame)
}

/// Whether the cells are a number of at least 7 and the text A.
fn are_found(cells: &[Value]) -> bool {
    match cells {
        [Value::Int(number), Value::Text(text)] => *number >= 7 && text.as_str() == "A",
        _ => false,
    }
}

#[test]
fn ring_through_a_same(rt: HostRuntime) {
    let literals = [le(cell(0, 0), cell(1, 0), -1), same(1, 0)];
    match judged(rt.alloc(), &literals).expect(&rt, "memory") {
        Judged::Clash(conflict) => match conflict.leaf {
            Step::Sum { edges } => assert_eq!(rt; edges.as_slice().len(), 2),
            _ => assert!(rt; false, "another leaf"),
        },
        Judged::Holds(_) => assert!(rt; false, "an assignment"),
    }
}

#[test]
fn null_through_a_same(rt: HostRuntime) {
    let null = Literal {
        atom: Atom::IsNull { row: 2, column: 0 },
    };
    let literals = [le(Side::Zero, cell(0, 0), 5), same(1, 0), same(1, 2), null];
    match judged(rt.alloc(), &literals).expect(&rt, "memory") {
        Judged::Clash(conflict) => match conflict.leaf {
            Step::Null { fact, other, path } => {
                assert_eq!(rt; fact, 3);
                assert_eq!(rt; other, 0);
                assert_eq!(rt; path.as_slice().len(), 2);
            }
            _ => assert!(rt; false, "another leaf"),
        },
        Judged::Holds(_) => assert!(rt; false, "an assignment"),
    }
}

#[test]
fn values_of_a_class(rt: HostRuntime) {
    let text = Str::from_str(rt.alloc(), "A").expect(&rt, "memory");
    let equal = Literal {
        atom: Atom::TextEq {
            left: cell(1, 1),
            right: Side::Text(text),
        },
    };
    let literals = [le(Side::Zero, cell(0, 0), -7), same(1, 0), equal];
    match judged(rt.alloc(), &literals).expect(&rt, "memory") {
        Judged::Clash(_) => assert!(rt; false, "a clash"),
        Judged::Holds(found) => match found.cells.as_slice() {
            [first, second, third] => {
                assert!(rt; are_found(first.as_slice()));
                assert!(rt; are_found(second.as_slice()));
                assert!(rt; matches!(third.as_slice(), [Value::Null, Value::Null]));
            }
            _ => assert!(rt; false, "other rows"),
        },
    }
}
