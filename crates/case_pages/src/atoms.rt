//! How an atom is written: 0.1 is column 1 in row 0, which is a variable or a row term.
use sort_formula::{Atom, Side};
use std::alloc::AllocError;

fn push_side(out: &mut String, side: &Side) -> Result<(), AllocError> {
    match side {
        Side::Cell { row, column } => write!(out, "{row}.{column}"),
        Side::Zero => out.push_str("Zero"),
        Side::Text(text) => write!(out, "'{}'", text.as_str()),
    }
}

fn push_sides(out: &mut String, word: &str, left: &Side, right: &Side) -> Result<(), AllocError> {
    out.push_str(word)?;
    out.push('(')?;
    push_side(out, left)?;
    out.push_str(", ")?;
    push_side(out, right)
}

/// Adds an atom. `AllocError` where there is no memory for it.
pub fn push_atom(out: &mut String, atom: &Atom) -> Result<(), AllocError> {
    match atom {
        Atom::Le { left, right, most } => {
            push_sides(out, "Le", left, right)?;
            write!(out, ", {most})")
        }
        Atom::TextEq { left, right } => {
            push_sides(out, "TextEq", left, right)?;
            out.push(')')
        }
        Atom::TextNe { left, right } => {
            push_sides(out, "TextNe", left, right)?;
            out.push(')')
        }
        Atom::IsNull { row, column } => write!(out, "IsNull({row}.{column})"),
        Atom::NotNull { row, column } => write!(out, "NotNull({row}.{column})"),
        Atom::Same { row, other } => write!(out, "Same({row}, {other})"),
        Atom::Other { row, other } => write!(out, "Other({row}, {other})"),
    }
}
