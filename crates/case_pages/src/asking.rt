//! Questions by name: the code of each, with the numbers of what it asks about, from 0: `E1`,
//! `E3 0`, `E4 0 1`.
use lint_base::NoMemory;
use lint_core::Question;
use std::alloc::{AllocError, Global};

/// The question of a code and its numbers, if that code has as many.
pub fn named(code: &str, numbers: &[u32]) -> Option<Question> {
    match (code, numbers) {
        ("E1", []) => Some(Question::Empty),
        ("E2", []) => Some(Question::NeedlessDistinct),
        ("E3", [item]) => Some(Question::Constant { item: *item }),
        ("E4", [item, other]) => Some(Question::Duplicate {
            item: *item,
            other: *other,
        }),
        ("E5", [entry]) => Some(Question::NeedlessJoin { entry: *entry }),
        ("E6", [predicate]) => Some(Question::Implied {
            predicate: *predicate,
        }),
        ("E7", [predicate]) => Some(Question::Impossible {
            predicate: *predicate,
        }),
        ("E8", [entry, other]) => Some(Question::SameRow {
            entry: *entry,
            other: *other,
        }),
        ("E9", [sub]) => Some(Question::OneRow { sub: *sub }),
        ("E10", [sub]) => Some(Question::NullInNotIn { sub: *sub }),
        _ => None,
    }
}

/// The question that a text names, if it names one. `NoMemory` where there is no memory for its
/// numbers.
pub fn question(alloc: Global, text: &str) -> Result<Option<Question>, NoMemory> {
    let (code, rest) = text.split_once(' ').unwrap_or((text, ""));
    let mut numbers = Vec::new(alloc);
    for word in rest.split_whitespace() {
        match word.parse::<u32>() {
            Ok(number) => numbers.push(number)?,
            Err(_) => return Ok(None),
        }
    }
    Ok(named(code, numbers.as_slice()))
}

/// Adds the name of a question, behind a comma where others stand before it. `AllocError` where
/// there is no memory for it.
pub fn push_question(out: &mut String, question: &Question) -> Result<(), AllocError> {
    if !out.is_empty() {
        out.push_str(", ")?;
    }
    match question {
        Question::OneRow { sub } => write!(out, "E9 {sub}"),
        Question::Empty => out.push_str("E1"),
        Question::NeedlessDistinct => out.push_str("E2"),
        Question::Constant { item } => write!(out, "E3 {item}"),
        Question::Duplicate { item, other } => write!(out, "E4 {item} {other}"),
        Question::NeedlessJoin { entry } => write!(out, "E5 {entry}"),
        Question::Implied { predicate } => write!(out, "E6 {predicate}"),
        Question::Impossible { predicate } => write!(out, "E7 {predicate}"),
        Question::SameRow { entry, other } => write!(out, "E8 {entry} {other}"),
        Question::NullInNotIn { sub } => write!(out, "E10 {sub}"),
    }
}
