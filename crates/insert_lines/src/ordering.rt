//! In which order the rows of tables are inserted, as `specs/InsertOrder.antt` says it.
ghost use Rattle.std.specs.Prelude.{◌≡◌, ◌<◌, ◌^◌, [], IfOk, OnOk, length, not};
ghost use Rattle.std.specs.List.{list_all, filter};
ghost use Rattle.lint_core.specs.Database.{below};
ghost use Rattle.insert_lines.specs.InsertOrder.{is_written, has_targets, is_ready, ready_tables, with_first, written_after, insert_order};

use lint_base::{Items, NoMemory};
use lint_core::Table;
use std::alloc::Global;

fn is_written(written: &[u32], table: u32) -> bool
    ensures { result ≡ is_written written.now table }
{
    written.iter().any(|w| table == *w)
}

fn has_targets(written: &[u32], table: &Table) -> bool
    ensures { result ≡ has_targets written.now table.now }
{
    let keys = table.foreign.as_slice();
    keys.iter().all(|key| is_written(written, key.target))
}

fn is_ready(tables: &[Table], written: &[u32], number: u32) -> bool
    ensures { result ≡ is_ready tables.now written.now number }
{
    if is_written(written, number) {
        return false;
    }
    match tables.get(number as usize) {
        Some(table) => has_targets(written, table),
        None => false,
    }
}

/// Adds the first table that is ready, if there is one.
fn push_ready(tables: &[Table], written: &mut Items<u32>) -> Result<(), NoMemory>
    requires { length tables.now < 2 ^ 32 }
    ensures { OnOk result
        (written.new ≡ with_first written.old (ready_tables tables.now written.old)) }
{
    for number in 0..tables.len() as u32 {
        if is_ready(tables, written.as_slice(), number) {
            return written.push(number);
        }
    }
    Ok(())
}

/// What is written after one turn for each table.
fn written_after(alloc: Global, tables: &[Table]) -> Result<Items<u32>, NoMemory>
    requires { length tables.now < 2 ^ 32 }
    ensures { IfOk result (λ written. written ≡ written_after tables.now (length tables.now)) }
{
    let mut written = Items::new(alloc);
    for _ in 0..tables.len() {
        push_ready(tables, &mut written)?;
    }
    Ok(written)
}

fn schema_order(alloc: Global, count: u32) -> Result<Items<u32>, NoMemory>
    ensures { IfOk result (λ order. order ≡ below count) }
{
    let mut order = Items::new(alloc);
    for number in 0..count {
        order.push(number)?;
    }
    Ok(order)
}

/// The numbers of the tables in the order in which their rows are inserted. `NoMemory` where there
/// is no memory for them.
pub fn insert_order(alloc: Global, tables: &[Table]) -> Result<Items<u32>, NoMemory>
    requires { length tables.now < 2 ^ 32 }
    ensures { IfOk result (λ order. order ≡ insert_order tables.now) }
{
    let order = written_after(alloc, tables)?;
    if order.as_slice().len() == tables.len() {
        return Ok(order);
    }
    schema_order(alloc, tables.len() as u32)
}
