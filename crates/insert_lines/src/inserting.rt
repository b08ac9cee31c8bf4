//! Databases as INSERT statements, as `specs/InsertText.antt` says them.
ghost use Rattle.std.specs.Prelude.{◌≡◌, ◌++◌, ◌∷◌, [], IfOk, OnOk, codes, string_bytes, encode_utf8_all};
ghost use Rattle.std.specs.Fmt.{signed_decimal};
ghost use Rattle.std.specs.List.{list_all};
ghost use Rattle.std.specs.Str.{chars};
ghost use Rattle.lint_core.specs.PlainWord.{begins_word, goes_on_word, is_plain_word};
ghost use Rattle.insert_lines.specs.InsertOrder.{insert_order};
ghost use Rattle.insert_lines.specs.InsertText.{texts, joined, doubled, quoted, name_text, value_text, target_text, row_text, insert_line, table_lines, insert_lines, insert_text};

use crate::ordering::insert_order;
use lint_base::{Items, NoMemory, Str};
use lint_core::{Database, Row, Schema, Table, Value};
use lint_tables::RESERVED;
use std::alloc::{AllocError, Global};

fn begins_word(byte: u8) -> bool
    ensures { result ≡ begins_word byte }
{
    byte.is_ascii_uppercase()
}

fn goes_on_word(byte: u8) -> bool
    ensures { result ≡ goes_on_word byte }
{
    begins_word(byte) || byte.is_ascii_digit() || byte == b'_'
}

fn go_on_word(bytes: &[u8]) -> bool
    ensures { result ≡ list_all goes_on_word bytes.now }
{
    bytes.iter().all(|b| goes_on_word(*b))
}

fn are_plain_word(bytes: &[u8]) -> bool
    ensures { result ≡ is_plain_word bytes.now }
{
    match bytes {
        [first, rest @ ..] => {
            begins_word(*first) && go_on_word(rest) && RESERVED.find(bytes).is_none()
        }
        _ => false,
    }
}

/// Whether the name stands in a query as it is: an upper-case letter, and then such letters,
/// digits and `_`, and no reserved word (ISO/IEC 9075:1992, 5.2).
#[tactic(auto, using(crate::proofs::PlainWords::plain_bytes))]
pub fn is_plain_word(name: &Str) -> bool
    ensures { result ≡ is_plain_word name.now }
{
    are_plain_word(name.as_str().as_bytes())
}

fn push_text(out: &mut String, text: &str) -> Result<(), AllocError>
    ensures { OnOk result (string_bytes out.new ≡ string_bytes out.old ++ text.now) }
{
    out.push_str(text)
}

fn push_integer(out: &mut String, number: i64) -> Result<(), AllocError>
    ensures { OnOk result (string_bytes out.new ≡ string_bytes out.old ++ signed_decimal number) }
{
    write!(out, "{number}")
}

#[tactic(auto, unfolding(crate::specs::InsertText::doubled))]
fn push_doubled_char(out: &mut String, mark: char, character: char) -> Result<(), AllocError>
    ensures { OnOk result
        (string_bytes out.new ≡ string_bytes out.old
        ++ encode_utf8_all (doubled mark (character ∷ []))) }
{
    if character == mark {
        out.push(mark)?;
    }
    out.push(character)
}

fn push_doubled(out: &mut String, mark: char, text: &str) -> Result<(), AllocError>
    ensures { OnOk result
        (string_bytes out.new ≡ string_bytes out.old
        ++ encode_utf8_all (doubled mark (chars text.now))) }
{
    for character in text.chars() {
        push_doubled_char(out, mark, character)?;
    }
    Ok(())
}

#[tactic(auto, unfolding(crate::specs::InsertText::quoted))]
fn push_quoted(out: &mut String, mark: char, text: &Str) -> Result<(), AllocError>
    ensures { OnOk result
        (string_bytes out.new ≡ string_bytes out.old ++ quoted mark text.now) }
{
    out.push(mark)?;
    push_doubled(out, mark, text.as_str())?;
    out.push(mark)
}

/// Adds a name as a query has it.
#[tactic(auto, unfolding(crate::specs::InsertText::name_text))]
pub fn push_name(out: &mut String, name: &Str) -> Result<(), AllocError>
    ensures { OnOk result (string_bytes out.new ≡ string_bytes out.old ++ name_text name.now) }
{
    if is_plain_word(name) {
        push_text(out, name.as_str())
    } else {
        push_quoted(out, '"', name)
    }
}

/// Adds a value as a query has it.
#[tactic(auto, unfolding(crate::specs::InsertText::value_text))]
pub fn push_value(out: &mut String, value: &Value) -> Result<(), AllocError>
    ensures { OnOk result (string_bytes out.new ≡ string_bytes out.old ++ value_text value.now) }
{
    match value {
        Value::Null => push_text(out, "NULL"),
        Value::Int(number) => push_integer(out, *number),
        Value::Text(text) => push_quoted(out, '\'', text),
    }
}

fn push_more_values(out: &mut String, values: &[Value]) -> Result<(), AllocError>
    ensures { OnOk result
        (string_bytes out.new ≡ string_bytes out.old
        ++ texts (λ v. codes ", " ++ value_text v) values.now) }
{
    for value in values {
        push_text(out, ", ")?;
        push_value(out, value)?;
    }
    Ok(())
}

fn push_values(out: &mut String, values: &[Value]) -> Result<(), AllocError>
    ensures { OnOk result
        (string_bytes out.new ≡ string_bytes out.old
        ++ joined (codes ", ") value_text values.now) }
{
    match values.split_first() {
        Some((first, more)) => {
            push_value(out, first)?;
            push_more_values(out, more)
        }
        None => Ok(()),
    }
}

#[tactic(auto, unfolding(crate::specs::InsertText::target_text))]
fn push_target(out: &mut String, table: &Table) -> Result<(), AllocError>
    ensures { OnOk result (string_bytes out.new ≡ string_bytes out.old ++ target_text table.now) }
{
    push_text(out, "INSERT INTO ")?;
    push_name(out, &table.name)?;
    push_text(out, " VALUES (")
}

#[tactic(auto, unfolding(crate::specs::InsertText::row_text))]
fn push_row(out: &mut String, table: &Table, row: &Row) -> Result<(), AllocError>
    ensures { OnOk result
        (string_bytes out.new ≡ string_bytes out.old ++ row_text table.now row.now) }
{
    push_target(out, table)?;
    push_values(out, row.values.as_slice())?;
    push_text(out, ");\n")
}

fn push_insert(out: &mut String, indent: &str, table: &Table, row: &Row) -> Result<(), AllocError>
    ensures { OnOk result
        (string_bytes out.new ≡ string_bytes out.old
        ++ insert_line indent.now table.now row.now) }
{
    push_text(out, indent)?;
    push_row(out, table, row)
}

fn push_rows(out: &mut String, indent: &str, table: &Table, rows: &[Row]) -> Result<(), AllocError>
    ensures { OnOk result
        (string_bytes out.new ≡ string_bytes out.old
        ++ texts (insert_line indent.now table.now) rows.now) }
{
    for row in rows {
        push_insert(out, indent, table, row)?;
    }
    Ok(())
}

fn push_table(
    out: &mut String,
    indent: &str,
    schema: &Schema,
    database: &Database,
    number: u32,
) -> Result<(), AllocError>
    ensures { OnOk result
        (string_bytes out.new ≡ string_bytes out.old
        ++ table_lines indent.now schema.now database.now number) }
{
    let tables = schema.tables().as_slice();
    let Some(table) = tables.get(number as usize) else {
        return Ok(());
    };
    match database.tables.as_slice().get(number as usize) {
        Some(rows) => push_rows(out, indent, table, rows.as_slice()),
        None => Ok(()),
    }
}

fn push_tables(
    out: &mut String,
    indent: &str,
    schema: &Schema,
    database: &Database,
    order: &[u32],
) -> Result<(), AllocError>
    ensures { OnOk result
        (string_bytes out.new ≡ string_bytes out.old
        ++ texts (table_lines indent.now schema.now database.now) order.now) }
{
    for number in order {
        push_table(out, indent, schema, database, *number)?;
    }
    Ok(())
}

/// Adds the database as INSERT statements, each behind the indent and with a line end. Those of a
/// table stand together, in the order of its rows, and behind those of the tables that it refers
/// to, where foreign keys don't lead from a table back to itself; else the tables stand in schema
/// order. `NoMemory` where there is no memory for it.
pub fn push_inserts(
    alloc: Global,
    out: &mut String,
    indent: &str,
    schema: &Schema,
    database: &Database,
) -> Result<(), NoMemory>
    ensures { OnOk result
        (string_bytes out.new ≡ string_bytes out.old
        ++ insert_lines indent.now schema.now database.now) }
{
    let order = insert_order(alloc, schema.tables().as_slice())?;
    push_tables(out, indent, schema, database, order.as_slice())?;
    Ok(())
}

/// The database as INSERT statements, each with a line end. `NoMemory` where there is no memory for
/// it.
pub fn insert_text(alloc: Global, schema: &Schema, database: &Database) -> Result<Vec<u8>, NoMemory>
    ensures { IfOk result (λ bytes. bytes.items ≡ insert_text schema.now database.now) }
{
    let mut out = String::new(alloc);
    push_inserts(alloc, &mut out, "", schema, database)?;
    Ok(out.into_bytes())
}
