//! Rows as INSERT statements.
use case_pages::{database, said};
use insert_lines::insert_text;
use lint_base::NoMemory;
use lint_core::Schema;
use std::alloc::Global;

/// The INSERT statements of the rows of a text, with `\n` for the end of a line; or that there are
/// none.
pub(crate) fn inserts(alloc: Global, schema: &Schema, text: &str) -> Result<String, NoMemory> {
    let database = database(alloc, text)?;
    if !database.fits(schema) {
        return said(alloc, "rows of another schema");
    }
    let bytes = insert_text(alloc, schema, &database)?;
    if bytes.is_empty() {
        return said(alloc, "nothing");
    }
    let lines = std::str::from_utf8(bytes.as_slice()).unwrap_or("bytes that are no text");
    Ok(lines.replace(alloc, "\n", "\\n")?)
}
