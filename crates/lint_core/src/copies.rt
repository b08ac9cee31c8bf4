//! Copies of values, conditions, queries, databases and points. A copy is equal to its source;
//! `NoMemory` comes where memory for it runs out, and leaves the source as it is.
ghost use Rattle.std.specs.Prelude.{◌≡◌, IfOk};

use crate::condition::{Block, Cond, Entry, Term};
use crate::database::{Binding, Database, Points, Row, Value};
use crate::query::{Item, Query};
use lint_base::{Items, NoMemory};
use sqlite_items::Boxed;
use std::alloc::Global;

impl Value {
    /// The same value. `NoMemory` where there is no memory for its text.
    pub fn copy(&self, alloc: Global) -> Result<Value, NoMemory>
        ensures { IfOk result (λ copy. copy ≡ self.now) }
    {
        match self {
            Value::Null => Ok(Value::Null),
            Value::Int(number) => Ok(Value::Int(*number)),
            Value::Text(text) => Ok(Value::Text(text.copy(alloc)?)),
        }
    }
}

impl Term {
    /// The same term. `NoMemory` where there is no memory for its text.
    pub fn copy(&self, alloc: Global) -> Result<Term, NoMemory>
        ensures { IfOk result (λ copy. copy ≡ self.now) }
    {
        match self {
            Term::Cell {
                level,
                entry,
                column,
                plus,
            } => Ok(Term::Cell {
                level: *level,
                entry: *entry,
                column: *column,
                plus: *plus,
            }),
            Term::Number { value, unit } => Ok(Term::Number {
                value: *value,
                unit: *unit,
            }),
            Term::Text(text) => Ok(Term::Text(text.copy(alloc)?)),
            Term::Null => Ok(Term::Null),
        }
    }
}

impl Cond {
    /// The same condition, with its subqueries. `NoMemory` where there is no memory for all of it.
    #[cycle(copy)]
    pub fn copy(&self, alloc: Global) -> Result<Cond, NoMemory>
        ensures { IfOk result (λ copy. copy ≡ self.now) }
    {
        match self {
            Cond::True => Ok(Cond::True),
            Cond::False => Ok(Cond::False),
            Cond::And(parts) => Ok(Cond::And(copy_parts(alloc, parts.as_slice())?)),
            Cond::Or(parts) => Ok(Cond::Or(copy_parts(alloc, parts.as_slice())?)),
            Cond::Not(part) => Ok(Cond::Not(Boxed::new(alloc, part.get().copy(alloc)?)?)),
            Cond::Compare {
                op,
                left,
                right,
                span,
            } => Ok(Cond::Compare {
                op: *op,
                left: left.copy(alloc)?,
                right: right.copy(alloc)?,
                span: *span,
            }),
            Cond::IsNull {
                term,
                negated,
                span,
            } => Ok(Cond::IsNull {
                term: term.copy(alloc)?,
                negated: *negated,
                span: *span,
            }),
            Cond::Exists { block, span } => Ok(Cond::Exists {
                block: Boxed::new(alloc, block.get().copy(alloc)?)?,
                span: *span,
            }),
            Cond::In {
                term,
                block,
                item,
                negated,
                span,
            } => Ok(Cond::In {
                term: term.copy(alloc)?,
                block: Boxed::new(alloc, block.get().copy(alloc)?)?,
                item: item.copy(alloc)?,
                negated: *negated,
                span: *span,
            }),
            Cond::Scalar {
                op,
                left,
                block,
                item,
                span,
            } => Ok(Cond::Scalar {
                op: *op,
                left: left.copy(alloc)?,
                block: Boxed::new(alloc, block.get().copy(alloc)?)?,
                item: item.copy(alloc)?,
                span: *span,
            }),
        }
    }
}

#[cycle(copy)]
fn copy_parts(alloc: Global, parts: &[Cond]) -> Result<Items<Cond>, NoMemory>
    ensures { IfOk result (λ copies. copies ≡ parts.now) }
{
    let mut copies = Items::new(alloc);
    for part in parts {
        copies.push(part.copy(alloc)?)?;
    }
    Ok(copies)
}

impl Block {
    #[cycle(copy)]
    fn copy(&self, alloc: Global) -> Result<Block, NoMemory>
        ensures { IfOk result (λ copy. copy ≡ self.now) }
    {
        Ok(Block {
            entries: copy_entries(alloc, self.entries.as_slice())?,
            cond: self.cond.copy(alloc)?,
            span: self.span,
        })
    }
}

impl Entry {
    fn copy(&self, alloc: Global) -> Result<Entry, NoMemory>
        ensures { IfOk result (λ copy. copy ≡ self.now) }
    {
        Ok(Entry {
            table: self.table,
            name: self.name.copy(alloc)?,
            span: self.span,
        })
    }
}

fn copy_entries(alloc: Global, entries: &[Entry]) -> Result<Items<Entry>, NoMemory>
    ensures { IfOk result (λ copies. copies ≡ entries.now) }
{
    let mut copies = Items::new(alloc);
    for entry in entries {
        copies.push(entry.copy(alloc)?)?;
    }
    Ok(copies)
}

impl Item {
    fn copy(&self, alloc: Global) -> Result<Item, NoMemory>
        ensures { IfOk result (λ copy. copy ≡ self.now) }
    {
        Ok(Item {
            term: self.term.copy(alloc)?,
            star: self.star,
            span: self.span,
        })
    }
}

fn copy_items(alloc: Global, items: &[Item]) -> Result<Items<Item>, NoMemory>
    ensures { IfOk result (λ copies. copies ≡ items.now) }
{
    let mut copies = Items::new(alloc);
    for item in items {
        copies.push(item.copy(alloc)?)?;
    }
    Ok(copies)
}

fn copy_terms(alloc: Global, terms: &[Term]) -> Result<Items<Term>, NoMemory>
    ensures { IfOk result (λ copies. copies ≡ terms.now) }
{
    let mut copies = Items::new(alloc);
    for term in terms {
        copies.push(term.copy(alloc)?)?;
    }
    Ok(copies)
}

impl Query {
    /// The same query. `NoMemory` where there is no memory for all of it.
    pub fn copy(&self, alloc: Global) -> Result<Query, NoMemory>
        ensures { IfOk result (λ copy. copy ≡ self.now) }
    {
        Ok(Query {
            distinct: self.distinct,
            items: copy_items(alloc, self.items.as_slice())?,
            block: self.block.copy(alloc)?,
            order: copy_terms(alloc, self.order.as_slice())?,
        })
    }
}

fn copy_values(alloc: Global, values: &[Value]) -> Result<Items<Value>, NoMemory>
    ensures { IfOk result (λ copies. copies ≡ values.now) }
{
    let mut copies = Items::new(alloc);
    for value in values {
        copies.push(value.copy(alloc)?)?;
    }
    Ok(copies)
}

fn copy_rows(alloc: Global, rows: &[Row]) -> Result<Items<Row>, NoMemory>
    ensures { IfOk result (λ copies. copies ≡ rows.now) }
{
    let mut copies = Items::new(alloc);
    for row in rows {
        copies.push(Row {
            values: copy_values(alloc, row.values.as_slice())?,
        })?;
    }
    Ok(copies)
}

fn copy_tables(alloc: Global, tables: &[Items<Row>]) -> Result<Items<Items<Row>>, NoMemory>
    ensures { IfOk result (λ copies. copies ≡ tables.now) }
{
    let mut copies = Items::new(alloc);
    for rows in tables {
        copies.push(copy_rows(alloc, rows.as_slice())?)?;
    }
    Ok(copies)
}

impl Database {
    /// The same database. `NoMemory` where there is no memory for all of it.
    pub fn copy(&self, alloc: Global) -> Result<Database, NoMemory>
        ensures { IfOk result (λ copy. copy ≡ self.now) }
    {
        Ok(Database {
            tables: copy_tables(alloc, self.tables.as_slice())?,
        })
    }
}

fn copy_numbers(alloc: Global, numbers: &[u32]) -> Result<Items<u32>, NoMemory>
    ensures { IfOk result (λ copies. copies ≡ numbers.now) }
{
    let mut copies = Items::new(alloc);
    for number in numbers {
        copies.push(*number)?;
    }
    Ok(copies)
}

fn copy_levels(alloc: Global, levels: &[Items<u32>]) -> Result<Items<Items<u32>>, NoMemory>
    ensures { IfOk result (λ copies. copies ≡ levels.now) }
{
    let mut copies = Items::new(alloc);
    for level in levels {
        copies.push(copy_numbers(alloc, level.as_slice())?)?;
    }
    Ok(copies)
}

impl Binding {
    fn copy(&self, alloc: Global) -> Result<Binding, NoMemory>
        ensures { IfOk result (λ copy. copy ≡ self.now) }
    {
        Ok(Binding {
            levels: copy_levels(alloc, self.levels.as_slice())?,
        })
    }
}

impl Points {
    /// The same points. `NoMemory` where there is no memory for all of them.
    pub fn copy(&self, alloc: Global) -> Result<Points, NoMemory>
        ensures { IfOk result (λ copy. copy ≡ self.now) }
    {
        Ok(match self {
            Points::One(one) => Points::One(one.copy(alloc)?),
            Points::Two(one, two) => Points::Two(one.copy(alloc)?, two.copy(alloc)?),
            Points::Without(one) => Points::Without(one.copy(alloc)?),
        })
    }
}
