//! Which questions are asked of a query.
ghost use Rattle.std.specs.Prelude.{◌≡◌, ◌&&◌, false, [], nat_lt, not, length, slice_get};
ghost use Rattle.std.specs.List.{list_any};
ghost use Rattle.std.specs.Option.{option_map_or};
ghost use Rattle.lint_core.specs.Asked.{scalars_of, not_ins_of, main_entries, main_condition, is_written_column, is_selected, test_two, are_comparable, are_of_one_table, is_asked};
ghost use Rattle.lint_core.specs.declared.query.Question.TheVariants.{NeedlessJoin};
ghost use Rattle.lint_core.specs.Naming.{term_names, names, has_scalar};
ghost use Rattle.lint_core.specs.Predicates.{predicates};
ghost use Rattle.lint_core.specs.inner.ScalarWithout.{has_scalar_without};

use crate::condition::{Cond, Entry, Term};
use crate::query::{Item, Query, Question};
use crate::schema::{Kind, Schema, Table};

impl Query {
    fn has_scalar_at(&self, number: u32) -> bool
        ensures { result ≡ nat_lt number (length (scalars_of self.now)) }
    {
        self.block.cond.has_scalar_at(number)
    }

    fn has_not_in_at(&self, number: u32) -> bool
        ensures { result ≡ nat_lt number (length (not_ins_of self.now)) }
    {
        self.block.cond.has_not_in_at(number)
    }

    fn has_predicate_at(&self, number: u32) -> bool
        ensures { result ≡ nat_lt number (length (predicates (main_condition self.now))) }
    {
        self.block.cond.has_predicate_at(number)
    }
}

impl Item {
    fn is_written_column(&self) -> bool
        ensures { result ≡ is_written_column self.now }
    {
        self.term.is_cell() && !self.star
    }
}

impl Query {
    fn has_written_column(&self, item: u32) -> bool
        ensures { result ≡ option_map_or is_written_column (slice_get self.now.items item) false }
    {
        match self.items.as_slice().get(item as usize) {
            Some(found) => found.is_written_column(),
            None => false,
        }
    }

    fn are_comparable(&self, tables: &[Table], item: &Item, other: &Item) -> bool
        ensures { result ≡ are_comparable tables.now self.now item.now other.now }
    {
        item.is_written_column()
            && other.is_written_column()
            && Kind::are_of_one_kind(
                self.main_kind(tables, &item.term),
                self.main_kind(tables, &other.term),
            )
    }

    fn has_comparable(&self, tables: &[Table], item: u32, other: u32) -> bool
        ensures { result ≡ test_two
            (are_comparable tables.now self.now) self.now.items item other }
    {
        let items = self.items.as_slice();
        match (items.get(item as usize), items.get(other as usize)) {
            (Some(item), Some(other)) => self.are_comparable(tables, item, other),
            _ => false,
        }
    }

    fn has_entries_of_one_table(&self, entry: u32, other: u32) -> bool
        ensures { result ≡ test_two are_of_one_table (main_entries self.now) entry other }
    {
        let entries = self.block.entries.as_slice();
        match (entries.get(entry as usize), entries.get(other as usize)) {
            (Some(entry), Some(other)) => entry.table == other.table,
            _ => false,
        }
    }
}

fn some_item_names(items: &[Item], entry: u32) -> bool
    ensures { result ≡ list_any (λ item. term_names entry item.term) items.now }
{
    items.iter().any(|item| item.term.names(entry))
}

fn some_key_names(keys: &[Term], entry: u32) -> bool
    ensures { result ≡ list_any (term_names entry) keys.now }
{
    keys.iter().any(|key| key.names(entry))
}

impl Cond {
    fn has_scalar_and_not(&self, entry: u32) -> bool
        ensures { result ≡ not (names entry self.now) && has_scalar self.now }
    {
        !self.names(entry) && self.has_scalar()
    }

    /// Whether some conjunct that does not name the entry has a scalar subquery.
    #[cycle(scalar_without)]
    fn has_scalar_without(&self, entry: u32) -> bool
        ensures { result ≡ has_scalar_without entry self.now }
    {
        match self {
            Cond::And(parts) => some_has_scalar_without(parts.as_slice(), entry),
            _ => self.has_scalar_and_not(entry),
        }
    }
}

#[cycle(scalar_without)]
fn some_has_scalar_without(conds: &[Cond], entry: u32) -> bool
    ensures { result ≡ list_any (has_scalar_without entry) conds.now }
{
    for cond in conds {
        if cond.has_scalar_without(entry) {
            return true;
        }
    }
    false
}

impl Query {
    fn is_selected(&self, entry: u32) -> bool
        ensures { result ≡ is_selected self.now entry }
    {
        some_item_names(self.items.as_slice(), entry)
            || some_key_names(self.order.as_slice(), entry)
    }

    fn has_entry_beside_others(&self, entry: u32) -> bool
        ensures { result ≡ nat_lt 1 (length (main_entries self.now))
            && nat_lt entry (length (main_entries self.now)) }
    {
        let count = self.block.entries.as_slice().len();
        count > 1 && (entry as usize) < count
    }

    fn may_not_need(&self, entry: u32) -> bool
        ensures { result ≡ is_asked [] self.now (NeedlessJoin entry) }
    {
        self.has_entry_beside_others(entry)
            && !self.is_selected(entry)
            && !self.block.cond.has_scalar_without(entry)
    }
}

impl Question {
    /// Whether the question is asked of the query. E9 is asked of each scalar subquery; E1 of the
    /// query; E2 of its DISTINCT; E3 of each item that is a column and does not come from `*`; E4
    /// of each two such items of one kind; E5 of each entry of the main FROM list, beside others,
    /// that no item and no order key names, where no conjunct that does not name it has a scalar
    /// subquery; E6 and E7 of each predicate; E8 of each two main entries of one table; E10 of
    /// each NOT IN subquery that selects a column. It takes no memory.
    pub fn fits(&self, schema: &Schema, query: &Query) -> bool
        ensures { result ≡ is_asked schema.now query.now self.now }
    {
        match *self {
            Question::OneRow { sub } => query.has_scalar_at(sub),
            Question::Empty => true,
            Question::NeedlessDistinct => query.distinct.is_some(),
            Question::Constant { item } => query.has_written_column(item),
            Question::Duplicate { item, other } => {
                item < other && query.has_comparable(schema.tables().as_slice(), item, other)
            }
            Question::NeedlessJoin { entry } => query.may_not_need(entry),
            Question::Implied { predicate } | Question::Impossible { predicate } => {
                query.has_predicate_at(predicate)
            }
            Question::SameRow { entry, other } => {
                entry < other && query.has_entries_of_one_table(entry, other)
            }
            Question::NullInNotIn { sub } => query.has_not_in_at(sub),
        }
    }
}
