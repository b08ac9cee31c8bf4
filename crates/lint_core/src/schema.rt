//! Schemas: tables, their columns and the columns' domains.
ghost use Rattle.std.specs.Prelude.{◌≡◌, true, false, IfSome, IfNone, ◌≤◌, length, nat_eq, nat_lt, slice_get, Some};
ghost use Rattle.std.specs.List.{list_all, list_any, zip};
ghost use Rattle.lint_core.specs.Fits.{cell_kind, check_fits};
ghost use Rattle.lint_core.specs.Kind.{kind_of, column_kind, are_of_one_kind, goes_with, compares, compares_both, with_added};
ghost use Rattle.lint_core.specs.Schema.{is_domain, are_columns, are_keys, are_checks, is_within, are_columns_of, are_paired, refers_to, are_foreign_keys, is_table, are_tables, is_schema};

use crate::condition::Cond;
use lint_base::{Items, Str};
use lint_tables::Op;
use std::marker::Model;

/// What a number counts in.
#[derive(Clone, Copy, Debug, PartialEq, Eq)]
pub enum Unit {
    /// Whole numbers.
    Whole,
}

/// What may be compared: numbers of one unit with each other, and texts. NULL goes with both.
#[derive(Clone, Copy, Debug, PartialEq, Eq)]
pub enum Kind {
    Null,
    Number(Unit),
    Text,
}

/// The values that a column may hold beside NULL.
#[derive(Clone, Copy, Debug, PartialEq, Eq)]
pub enum Domain {
    /// The whole numbers from `least` to `greatest`: SMALLINT, INTEGER or BIGINT.
    Number {
        least: i64,
        greatest: i64,
        unit: Unit,
    },
    /// Texts. The length, 1 to 65,535, restricts nothing.
    Text {
        length: u32,
    },
}

impl Kind {
    /// Whether values of the two kinds may be compared at all: both are of one kind, or one is
    /// NULL.
    pub fn goes_with(self, other: Kind) -> bool
        ensures { result ≡ goes_with self other }
    {
        match (self, other) {
            (Kind::Null, _) | (_, Kind::Null) | (Kind::Text, Kind::Text) => true,
            (Kind::Number(unit), Kind::Number(other)) => unit == other,
            (Kind::Number(_), Kind::Text) | (Kind::Text, Kind::Number(_)) => false,
        }
    }

    /// Whether the operator compares values of the two kinds.
    pub fn compares(self, op: Op, other: Kind) -> bool
        ensures { result ≡ compares op self other }
    {
        let texts = matches!(self, Kind::Text) || matches!(other, Kind::Text);
        self.goes_with(other) && (matches!(op, Op::Eq | Op::Ne) || !texts)
    }

    /// The kind with a number added: nothing is added to a text.
    pub fn with_added(self, added: i64) -> Option<Kind>
        ensures { result ≡ with_added added self }
    {
        match self {
            Kind::Text if added != 0 => None,
            kind => Some(kind),
        }
    }

    /// The kind of a table's column with a number added; `None` where there is no such column, or
    /// where it is a text to which something is added.
    pub fn of_cell(tables: &[Table], table: Option<u32>, column: u32, plus: i64) -> Option<Kind>
        ensures { result ≡ cell_kind tables.now table column plus }
    {
        tables
            .get(table? as usize)?
            .column_kind(column)?
            .with_added(plus)
    }

    /// Whether both are there, and go with each other.
    pub fn are_of_one_kind(one: Option<Kind>, other: Option<Kind>) -> bool
        ensures { result ≡ are_of_one_kind one other }
    {
        match (one, other) {
            (Some(one), Some(other)) => one.goes_with(other),
            _ => false,
        }
    }

    /// Whether both are there, and the operator compares them.
    pub fn both_compare(op: Op, left: Option<Kind>, right: Option<Kind>) -> bool
        ensures { result ≡ compares_both op left right }
    {
        match (left, right) {
            (Some(left), Some(right)) => left.compares(op, right),
            _ => false,
        }
    }
}

impl Domain {
    fn is_known(&self) -> bool
        ensures { result ≡ is_domain self.now }
    {
        match *self {
            Domain::Number {
                least,
                greatest,
                unit: Unit::Whole,
            } => matches!(
                (least, greatest),
                (-0x8000, 0x7fff) | (-0x8000_0000, 0x7fff_ffff) | (i64::MIN, i64::MAX)
            ),
            Domain::Text { length } => length >= 1 && length <= 65_535,
        }
    }

    fn kind(&self) -> Kind
        ensures { result ≡ kind_of self.now }
    {
        match self {
            Domain::Number { unit, .. } => Kind::Number(*unit),
            Domain::Text { .. } => Kind::Text,
        }
    }
}

/// A column, by its name and its domain. `not_null` marks a column that is NOT NULL or in the
/// primary key.
#[derive(Debug, Drop)]
pub struct Column {
    pub name: Str,
    pub domain: Domain,
    pub not_null: bool,
}

/// The columns of a UNIQUE or PRIMARY KEY constraint, by their numbers from 0.
#[derive(Debug, Drop)]
pub struct Key {
    pub columns: Items<u32>,
}

/// A foreign key: its own columns, and the column of the target table that each of them refers to.
/// These are, as a set, the columns of a key of the target table.
#[derive(Debug, Drop)]
pub struct ForeignKey {
    pub columns: Items<u32>,
    pub target: u32,
    pub target_columns: Items<u32>,
}

/// A table: its name, its columns in order and its constraints. The primary key, if there is one,
/// is the first of the keys.
#[derive(Drop)]
pub struct Table {
    pub name: Str,
    pub columns: Items<Column>,
    pub keys: Items<Key>,
    pub checks: Items<Cond>,
    pub foreign: Items<ForeignKey>,
}

/// The tables of a database, in the order in which they were declared.
#[derive(Drop)]
pub struct Schema {
    tables: Items<Table>,
}

impl Model for Schema {
    ghost use Rattle.std.specs.Prelude.{◌≡◌, List, true};
    ghost use Rattle.lint_core.specs.declared.schema.Table.{Table};
    ghost use Rattle.lint_core.specs.Schema.{is_schema};
    ghost use Rattle.std.specs.Coded.{codes};
    ghost use Rattle.lint_core.specs.contracts.condition.Cond as cond;

    ghost Value = { List Table };

    ghost view = { λ s. s.tables };

    ghost invariant = { λ s. is_schema s.tables ≡ true };

    // a code for each condition tells two lists of tables apart
    ghost coded = { Prim.hlevel (codes, cond.the_row.coded) };
}

impl Schema {
    /// The schema of these tables. `None` exactly where a position in them is out of range; where
    /// a domain is none of the ranges of SMALLINT, INTEGER and BIGINT, nor a text of 1 to 65,535
    /// characters; where the two lists of a foreign key differ in length, its target columns are
    /// not, as a set and as many, those of a key of the target, or a column and its target column
    /// differ in kind; where a CHECK has a subquery or does not fit its table, in the sense of
    /// `Query::fits` with the one row as its level; or where there are more than 200 tables, or
    /// more than 64 columns, 1,000 keys, 1,000 CHECKs or 1,000 foreign keys of a table, or 65,536
    /// conditions of a CHECK. It takes no memory.
    pub fn new(tables: Items<Table>) -> Option<Schema>
        ensures some { IfSome result (λ s. (s ≡ tables) × (is_schema tables ≡ true)) }
        ensures none { IfNone result (is_schema tables ≡ false) }
    {
        if are_a_schema(tables.as_slice()) {
            Some(Schema { tables })
        } else {
            None
        }
    }

    /// The tables in order.
    pub fn tables(&self) -> &Items<Table>
        ensures tables { result.now ≡ self.now }
        ensures schema { is_schema self.now ≡ true }
    {
        &self.tables
    }
}

fn are_a_schema(tables: &[Table]) -> bool
    ensures { result ≡ is_schema tables.now }
{
    tables.len() <= 200 && are_tables(tables)
}

fn are_tables(tables: &[Table]) -> bool
    requires { length tables.now ≤ 200 }
    ensures { result ≡ are_tables tables.now 0 tables.now }
{
    for (number, table) in tables.iter().enumerate() {
        if !table.fits(tables, number as u32) {
            return false;
        }
    }
    true
}

fn are_columns(columns: &[Column]) -> bool
    ensures { result ≡ are_columns columns.now }
{
    columns.len() <= 64 && have_known_domains(columns)
}

fn have_known_domains(columns: &[Column]) -> bool
    ensures { result ≡ list_all (λ c. is_domain c.domain) columns.now }
{
    columns.iter().all(|c| c.domain.is_known())
}

impl Key {
    fn is_below(&self, count: usize) -> bool
        ensures { result ≡ list_all (λ column. nat_lt column count) self.now.columns }
    {
        self.columns
            .as_slice()
            .iter()
            .all(|c| (*c as usize) < count)
    }

    /// Whether the columns are, as a set, those of the key, and as many.
    fn has_columns(&self, columns: &[u32]) -> bool
        ensures { result ≡ are_columns_of columns.now self.now }
    {
        let own = self.columns.as_slice();
        columns.len() == own.len() && is_within(columns, own) && is_within(own, columns)
    }
}

fn is_within(numbers: &[u32], others: &[u32]) -> bool
    ensures { result ≡ is_within numbers.now others.now }
{
    numbers.iter().all(|n| is_among(*n, others))
}

fn is_among(number: u32, others: &[u32]) -> bool
    ensures { result ≡ list_any (nat_eq number) others.now }
{
    others.iter().any(|o| number == *o)
}

impl ForeignKey {
    fn fits(&self, tables: &[Table], table: &Table) -> bool
        ensures { result ≡ refers_to table.now self.now (slice_get tables.now self.now.target) }
    {
        match tables.get(self.target as usize) {
            Some(target) => self.refers_to(table, target),
            None => false,
        }
    }

    fn refers_to(&self, table: &Table, target: &Table) -> bool
        ensures { result ≡ refers_to table.now self.now (Some target.now) }
    {
        let others = self.target_columns.as_slice();
        are_paired(table, target, self.columns.as_slice(), others)
            && some_key_has(target.keys.as_slice(), others)
    }
}

fn some_key_has(keys: &[Key], columns: &[u32]) -> bool
    ensures { result ≡ list_any (are_columns_of columns.now) keys.now }
{
    keys.iter().any(|k| k.has_columns(columns))
}

fn are_paired(table: &Table, target: &Table, columns: &[u32], others: &[u32]) -> bool
    ensures { result ≡ are_paired table.now target.now columns.now others.now }
{
    columns.len() == others.len() && pairs_go_together(table, target, columns, others)
}

fn pairs_go_together(table: &Table, target: &Table, columns: &[u32], others: &[u32]) -> bool
    ensures { result ≡ list_all
        (λ pair. are_of_one_kind (column_kind table.now pair.0) (column_kind target.now pair.1))
        (zip columns.now others.now) }
{
    columns.iter().zip(others).all(|(c, o)| Kind::are_of_one_kind(
        table.column_kind(*c),
        target.column_kind(*o),
    ))
}

impl Table {
    /// Whether this is right as the table of its number.
    fn fits(&self, tables: &[Table], number: u32) -> bool
        ensures { result ≡ is_table tables.now number self.now }
    {
        are_columns(self.columns.as_slice())
            && self.has_keys()
            && checks_fit(self.checks.as_slice(), tables, number)
            && self.has_foreign_keys(tables)
    }

    fn has_keys(&self) -> bool
        ensures { result ≡ are_keys self.now self.now.keys }
    {
        let keys = self.keys.as_slice();
        let count = self.columns.as_slice().len();
        keys.len() <= 1_000 && keys_are_below(keys, count)
    }

    fn has_foreign_keys(&self, tables: &[Table]) -> bool
        ensures { result ≡ are_foreign_keys tables.now self.now self.now.foreign }
    {
        let keys = self.foreign.as_slice();
        keys.len() <= 1_000 && foreign_keys_fit(keys, tables, self)
    }
}

fn checks_fit(checks: &[Cond], tables: &[Table], number: u32) -> bool
    ensures { result ≡ are_checks tables.now number checks.now }
{
    checks.len() <= 1_000 && each_check_fits(checks, tables, number)
}

fn each_check_fits(checks: &[Cond], tables: &[Table], number: u32) -> bool
    ensures { result ≡ list_all (check_fits tables.now number) checks.now }
{
    checks.iter().all(|c| c.fits_check(tables, number))
}

fn keys_are_below(keys: &[Key], count: usize) -> bool
    ensures { result ≡ list_all
        (λ k. list_all (λ column. nat_lt column count) k.columns) keys.now }
{
    keys.iter().all(|k| k.is_below(count))
}

fn foreign_keys_fit(keys: &[ForeignKey], tables: &[Table], table: &Table) -> bool
    ensures { result ≡ list_all
        (λ k. refers_to table.now k (slice_get tables.now k.target)) keys.now }
{
    keys.iter().all(|k| k.fits(tables, table))
}

impl Table {
    /// The kind of a column, if the table has it.
    pub fn column_kind(&self, column: u32) -> Option<Kind>
        ensures { result ≡ column_kind self.now column }
    {
        match self.columns.as_slice().get(column as usize) {
            Some(found) => Some(found.domain.kind()),
            None => None,
        }
    }
}
