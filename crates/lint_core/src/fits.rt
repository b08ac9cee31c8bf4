//! When a query, or a CHECK, fits a schema.
ghost use Rattle.std.specs.Prelude.{◌≡◌, [], sum_by, nat_lt, nat_le, IfSome, IfNone, ◌<◌, ◌+◌};
ghost use Rattle.std.specs.List.{list_all};
ghost use Rattle.lint_core.specs.declared.condition.Block.{out-Block};
ghost use Rattle.lint_core.specs.Fits.{is_plain, term_kind, cond_fits, block_meaning, block_fits, selected_fits, item_fits, order_fits, count_conditions, is_flat, check_fits, main_tables, selection_fits_in, selection_fits, query_fits};
ghost use Rattle.lint_core.specs.Levels.{tables_of_levels};

use crate::condition::{Block, Cond, Entry, Term};
use crate::query::{Item, Query};
use crate::schema::{Kind, Schema, Table};
use crate::scope::Levels;
use lint_tables::Op;

impl Term {
    /// What the term is, if it names an existing column and adds nothing to a text.
    pub fn kind(&self, tables: &[Table], levels: &Levels) -> Option<Kind>
        ensures { result ≡ term_kind tables.now (tables_of_levels levels.now) self.now }
    {
        match self {
            Term::Cell {
                level,
                entry,
                column,
                plus,
            } => Kind::of_cell(tables, levels.table_at(*level, *entry), *column, *plus),
            Term::Number { unit, .. } => Some(Kind::Number(*unit)),
            Term::Text(_) => Some(Kind::Text),
            Term::Null => Some(Kind::Null),
        }
    }

    fn is_plain(&self) -> bool
        ensures { result ≡ is_plain self.now }
    {
        match self {
            Term::Cell { plus, .. } => *plus == 0,
            _ => true,
        }
    }
}

impl Cond {
    #[cycle(fits)]
    fn fits(&self, tables: &[Table], levels: &Levels) -> bool
        ensures { result ≡ cond_fits tables.now (tables_of_levels levels.now) self.now }
    {
        match self {
            Cond::True | Cond::False => true,
            Cond::And(parts) | Cond::Or(parts) => all_fit(parts.as_slice(), tables, levels),
            Cond::Not(part) => part.get().fits(tables, levels),
            Cond::Compare {
                op,
                left,
                right,
                ..
            } => Kind::both_compare(*op, left.kind(tables, levels), right.kind(tables, levels)),
            Cond::IsNull { term, .. } => term.kind(tables, levels).is_some(),
            Cond::Exists { block, .. } => block.get().fits(tables, levels),
            Cond::In {
                term,
                block,
                item,
                ..
            } => block.get().selects(tables, levels, Op::Eq, term, item),
            Cond::Scalar {
                op,
                left,
                block,
                item,
                ..
            } => block.get().selects(tables, levels, *op, left, item),
        }
    }
}

#[cycle(fits)]
fn all_fit(conds: &[Cond], tables: &[Table], levels: &Levels) -> bool
    ensures { result ≡ list_all (cond_fits tables.now (tables_of_levels levels.now)) conds.now }
{
    for cond in conds {
        if !cond.fits(tables, levels) {
            return false;
        }
    }
    true
}

fn entries_fit(entries: &[Entry], count: usize) -> bool
    ensures { result ≡ list_all (λ e. nat_lt e.table count) entries.now }
{
    entries.iter().all(|e| (e.table as usize) < count)
}

impl Block {
    #[cycle(fits)]
    fn fits(&self, tables: &[Table], outer: &Levels) -> bool
        ensures { result ≡ block_fits tables.now (tables_of_levels outer.now) self.now }
    {
        let entries = self.entries.as_slice();
        let levels = Levels::Inside {
            entries,
            outer: &*outer,
        };
        entries.len() <= 16 && entries_fit(entries, tables.len()) && self.cond.fits(tables, &levels)
    }

    /// Whether the block fits, and a term compares with what it selects.
    #[cycle(fits)]
    fn selects(&self, tables: &[Table], outer: &Levels, op: Op, left: &Term, item: &Term) -> bool
        ensures { result ≡ selected_fits tables.now (tables_of_levels outer.now) op left.now
            (block_meaning tables.now self.now) item.now }
    {
        let entries = self.entries.as_slice();
        let levels = Levels::Inside {
            entries,
            outer: &*outer,
        };
        self.fits(tables, outer)
            && item.is_plain()
            && Kind::both_compare(op, left.kind(tables, outer), item.kind(tables, &levels))
    }
}

/// The most conditions of a query, those of its subqueries counted, and of a CHECK.
const MOST_CONDITIONS: u32 = 65_536;

impl Cond {
    /// What is left of a number after each condition, those of subqueries too, took one away.
    /// `None` where there are more.
    #[cycle(count)]
    fn spend(&self, left: u32) -> Option<u32>
        ensures some { IfSome result (λ rest. rest + count_conditions self.now ≡ left) }
        ensures none { IfNone result (left < count_conditions self.now) }
    {
        let left = left.checked_sub(1)?;
        match self {
            Cond::True | Cond::False | Cond::Compare { .. } | Cond::IsNull { .. } => Some(left),
            Cond::And(parts) | Cond::Or(parts) => spend_all(parts.as_slice(), left),
            Cond::Not(part) => part.get().spend(left),
            Cond::Exists { block, .. } | Cond::In { block, .. } | Cond::Scalar { block, .. } => {
                block.get().spend(left)
            }
        }
    }
}

#[cycle(count)]
fn spend_all(conds: &[Cond], left: u32) -> Option<u32>
    ensures some { IfSome result (λ rest. rest + sum_by count_conditions conds.now ≡ left) }
    ensures none { IfNone result (left < sum_by count_conditions conds.now) }
{
    let mut rest = left;
    for cond in conds {
        rest = cond.spend(rest)?;
    }
    Some(rest)
}

impl Block {
    #[cycle(count)]
    fn spend(&self, left: u32) -> Option<u32>
        ensures some { IfSome result
            (λ rest. rest + count_conditions (out-Block self.now).cond ≡ left) }
        ensures none { IfNone result (left < count_conditions (out-Block self.now).cond) }
    {
        self.cond.spend(left)
    }
}

impl Cond {
    /// Whether there are at most 65,536 conditions, this one and those of subqueries counted.
    pub fn is_within_limit(&self) -> bool
        ensures { result ≡ nat_le (count_conditions self.now) 65536 }
    {
        self.spend(MOST_CONDITIONS).is_some()
    }

    #[cycle(flat)]
    fn is_flat(&self) -> bool
        ensures { result ≡ is_flat self.now }
    {
        match self {
            Cond::True | Cond::False | Cond::Compare { .. } | Cond::IsNull { .. } => true,
            Cond::And(parts) | Cond::Or(parts) => all_flat(parts.as_slice()),
            Cond::Not(part) => part.get().is_flat(),
            Cond::Exists { .. } | Cond::In { .. } | Cond::Scalar { .. } => false,
        }
    }

    /// Whether the condition fits as a CHECK of the table of this number.
    pub(crate) fn fits_check(&self, tables: &[Table], table: u32) -> bool
        ensures { result ≡ check_fits tables.now table self.now }
    {
        self.is_flat() && self.is_within_limit() && self.fits(tables, &Levels::Row(table))
    }
}

#[cycle(flat)]
fn all_flat(conds: &[Cond]) -> bool
    ensures { result ≡ list_all is_flat conds.now }
{
    for cond in conds {
        if !cond.is_flat() {
            return false;
        }
    }
    true
}

impl Block {
    fn fits_alone(&self, tables: &[Table]) -> bool
        ensures { result ≡ block_fits tables.now [] self.now }
    {
        self.fits(tables, &Levels::Outside)
    }
}

impl Item {
    fn fits(&self, tables: &[Table], levels: &Levels) -> bool
        ensures { result ≡ item_fits tables.now (tables_of_levels levels.now) self.now }
    {
        self.term.kind(tables, levels).is_some() && self.term.is_plain()
    }
}

fn items_fit(items: &[Item], tables: &[Table], levels: &Levels) -> bool
    ensures { result ≡ list_all (item_fits tables.now (tables_of_levels levels.now)) items.now }
{
    items.iter().all(|i| i.fits(tables, levels))
}

fn order_fits(keys: &[Term], tables: &[Table], levels: &Levels) -> bool
    ensures { result ≡ list_all (order_fits tables.now (tables_of_levels levels.now)) keys.now }
{
    keys.iter()
        .all(|k| k.kind(tables, levels).is_some() && k.is_plain())
}

impl Query {
    /// Whether the query fits the schema. Every position in it exists, where tables, levels,
    /// entries and columns count from 0. The two sides of each comparison are of one kind or one
    /// is NULL, and texts are compared by `=` and `<>` alone, also with NULL; what a subquery of
    /// IN or of an operator selects is a side too. Nothing is added to a text, to what is selected
    /// or to an order key. There are at most 16 entries in each FROM list, 256 items, and 65,536
    /// conditions, those of subqueries counted. It takes no memory.
    pub fn fits(&self, schema: &Schema) -> bool
        ensures { result ≡ query_fits schema.now self.now }
    {
        let tables = schema.tables().as_slice();
        self.selection_fits(tables)
            && self.block.fits_alone(tables)
            && self.block.cond.is_within_limit()
    }

    /// What a term of the main query is, as `Term::kind` at its one level.
    pub(crate) fn main_kind(&self, tables: &[Table], term: &Term) -> Option<Kind>
        ensures { result ≡ term_kind tables.now (main_tables self.now) term.now }
    {
        let levels = Levels::Inside {
            entries: self.block.entries.as_slice(),
            outer: &Levels::Outside,
        };
        term.kind(tables, &levels)
    }

    fn selection_fits(&self, tables: &[Table]) -> bool
        ensures { result ≡ selection_fits tables.now self.now }
    {
        let levels = Levels::Inside {
            entries: self.block.entries.as_slice(),
            outer: &Levels::Outside,
        };
        self.selection_fits_in(tables, &levels)
    }

    #[tactic(auto, unfolding(crate::specs::Fits::selection_fits_in))]
    fn selection_fits_in(&self, tables: &[Table], levels: &Levels) -> bool
        ensures { result ≡ selection_fits_in tables.now (tables_of_levels levels.now) self.now }
    {
        let items = self.items.as_slice();
        items.len() <= 256
            && items_fit(items, tables, levels)
            && order_fits(self.order.as_slice(), tables, levels)
    }
}
