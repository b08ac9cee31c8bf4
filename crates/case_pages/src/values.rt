//! Values and databases from texts.
use lint_base::{Items, NoMemory, Str};
use lint_core::{Database, Row, Value};
use std::alloc::Global;

/// A text. What stands between two quotes is the text of a word that has them.
fn text_value(alloc: Global, word: &str) -> Result<Value, NoMemory> {
    let text = word.replace(alloc, '_', " ")?;
    let text = text.as_str();
    let quoted = text.strip_prefix('\'').and_then(|t| t.strip_suffix('\''));
    Ok(Value::Text(Str::from_str(alloc, quoted.unwrap_or(text))?))
}

/// A value: NULL, a number, or a text, in which `_` stands for a space and which may stand between
/// quotes. `NoMemory` where there is no memory for it.
pub fn value(alloc: Global, word: &str) -> Result<Value, NoMemory> {
    if word == "NULL" {
        return Ok(Value::Null);
    }
    match word.parse::<i64>() {
        Ok(number) => Ok(Value::Int(number)),
        Err(_) => text_value(alloc, word),
    }
}

fn row(alloc: Global, text: &str) -> Result<Row, NoMemory> {
    let mut values = Items::new(alloc);
    for word in text.split_whitespace() {
        values.push(value(alloc, word)?)?;
    }
    Ok(Row { values })
}

fn rows(alloc: Global, text: &str) -> Result<Items<Row>, NoMemory> {
    let mut rows = Items::new(alloc);
    for part in text.split(';') {
        let row = row(alloc, part)?;
        if !row.values.as_slice().is_empty() {
            rows.push(row)?;
        }
    }
    Ok(rows)
}

/// A database: tables with `|` between them, rows with `;` between them. `NoMemory` where there is
/// no memory for it.
pub fn database(alloc: Global, text: &str) -> Result<Database, NoMemory> {
    let mut tables = Items::new(alloc);
    for part in text.split('|') {
        tables.push(rows(alloc, part)?)?;
    }
    Ok(Database { tables })
}
