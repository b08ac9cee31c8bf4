//! How a formula is written: E2 is some row of table 2, A2 each of its rows.
use case_pages::push_atom;
use lint_base::NoMemory;
use sort_formula::Formula;
use std::alloc::{AllocError, Global};

/// Parts with commas between them.
#[cycle(push_formula)]
fn push_parts(out: &mut String, parts: &[Formula]) -> Result<(), AllocError> {
    out.push('[')?;
    for (number, part) in parts.iter().enumerate() {
        if number > 0 {
            out.push_str(", ")?;
        }
        push_formula(out, part)?;
    }
    out.push(']')
}

/// Adds a formula.
#[cycle(push_formula)]
fn push_formula(out: &mut String, formula: &Formula) -> Result<(), AllocError> {
    match formula {
        Formula::Atom(atom) => push_atom(out, atom),
        Formula::And(parts) => {
            out.push_str("And")?;
            push_parts(out, parts.as_slice())
        }
        Formula::Or(parts) => {
            out.push_str("Or")?;
            push_parts(out, parts.as_slice())
        }
        Formula::Exists { table, body } => {
            write!(out, "E{table}: ")?;
            push_formula(out, body.get())
        }
        Formula::Forall { table, body } => {
            write!(out, "A{table}: ")?;
            push_formula(out, body.get())
        }
    }
}

/// A formula as text. `NoMemory` where there is no memory for it.
pub(crate) fn shown(alloc: Global, formula: &Formula) -> Result<String, NoMemory> {
    let mut out = String::new(alloc);
    push_formula(&mut out, formula)?;
    Ok(out)
}
