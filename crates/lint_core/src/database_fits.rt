//! When a database fits a schema.
ghost use Rattle.std.specs.Prelude.{◌≡◌};
ghost use Rattle.lint_core.specs.DatabaseFits.{database_fits, tables_fit, rows_fit};

use crate::database::{Database, Row};
use crate::schema::{Schema, Table};
use lint_base::Items;

fn rows_fit(table: &Table, rows: &[Row]) -> bool
    ensures { result ≡ rows_fit table.now rows.now }
{
    let width = table.columns.as_slice().len();
    for row in rows {
        if row.values.as_slice().len() != width {
            return false;
        }
    }
    true
}

fn tables_fit(tables: &[Table], rows: &[Items<Row>]) -> bool
    ensures { result ≡ tables_fit tables.now rows.now }
{
    if tables.len() != rows.len() {
        return false;
    }
    for (table, rows) in tables.iter().zip(rows) {
        if !rows_fit(table, rows.as_slice()) {
            return false;
        }
    }
    true
}

impl Database {
    /// Whether the database has a list of rows for each table of the schema, in order, and each
    /// row a value for each column of its table. The values are not looked at. It takes no memory.
    pub fn fits(&self, schema: &Schema) -> bool
        ensures { result ≡ database_fits schema.now self.now }
    {
        tables_fit(schema.tables().as_slice(), self.tables.as_slice())
    }
}
