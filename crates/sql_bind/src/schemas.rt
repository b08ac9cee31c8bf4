//! The second pass over a schema: the keys, CHECKs and foreign keys of its tables, in text order.
ghost use Rattle.std.specs.Prelude.{◌≡◌, ◌≤◌, [], ◌∷◌, ◌++◌, true, nat_le, slice_get, length, Some, IfOk, IfSome, IfNone};
ghost use Rattle.sql_tree.specs.declared.schema.RuleTree.TheVariants as rule;
ghost use Rattle.sql_bind.specs.Bound.{Gives};
ghost use Rattle.sql_bind.specs.Names.{whole_level};
ghost use Rattle.sql_bind.specs.Selects.{bind_cond};
ghost use Rattle.sql_bind.specs.Shape.{schema_shaped};
ghost use Rattle.sql_bind.specs.Schemas as spec;
ghost use Rattle.sql_bind.specs.inner.Passes.{behind, all_keys, bind_table, with_all};

use crate::bound::{counted, refused, too_many};
use crate::conditions::bind_condition;
use crate::foreign::{Declared, Home};
use crate::keys::{NamedKeys, bind_names, named_keys, rules_of};
use crate::levels::Levels;
use crate::outlines::{Outlines, bind_outlines};
use lint_base::{Fault, Items, NoMemory, Span, TextStop};
use lint_core::{Column, Cond, Entry, ForeignKey, Key, Schema, Table};
use sql_tree::{CondTree, CreateTable, NameTree, RuleTree};
use std::alloc::Global;

/// The constraints of a table so far.
#[derive(Drop)]
pub(crate) struct Constraints {
    primary: Option<Key>,
    unique: Items<Key>,
    checks: Items<Cond>,
    foreign: Items<ForeignKey>,
}

impl Constraints {
    fn none(alloc: Global) -> Constraints
        ensures { result ≡ spec.no_constraints }
    {
        Constraints {
            primary: None,
            unique: Items::new(alloc),
            checks: Items::new(alloc),
            foreign: Items::new(alloc),
        }
    }

    /// Whether one more key is too many.
    fn has_all_keys(&self) -> bool
        ensures { result ≡ nat_le 1000 (length (spec.keys_of self.now)) }
    {
        match self.primary {
            Some(_) => self.unique.as_slice().len() >= 999,
            None => self.unique.as_slice().len() >= 1_000,
        }
    }

    fn with_foreign(self, key: ForeignKey) -> Result<Constraints, NoMemory>
        ensures { IfOk result
            (λ more. more ≡ record { primary = self.primary; unique = self.unique; checks = self.checks; foreign = self.foreign ++ key ∷ [] }) }
    {
        let Constraints {
            primary,
            unique,
            checks,
            mut foreign,
        } = self;
        foreign.push(key)?;
        Ok(Constraints {
            primary,
            unique,
            checks,
            foreign,
        })
    }
}

/// The primary key, and then the others.
fn all_keys_of(primary: Option<Key>, unique: Items<Key>) -> Result<Items<Key>, NoMemory>
    ensures { IfOk result (λ keys. keys ≡ with_all primary unique) }
{
    let Some(key) = primary else {
        return Ok(unique);
    };
    let mut keys = unique.into_vec();
    keys.insert(0, key)?;
    Ok(Items::from_vec(keys))
}

fn copy_columns(alloc: Global, columns: &[Column]) -> Result<Items<Column>, NoMemory>
    ensures { IfOk result (λ copies. copies ≡ columns.now) }
{
    let mut copies = Items::new(alloc);
    for column in columns {
        copies.push(Column {
            name: column.name.copy(alloc)?,
            domain: column.domain,
            not_null: column.not_null,
        })?;
    }
    Ok(copies)
}

/// The table with its constraints.
fn whole_table(alloc: Global, table: &Table, constraints: Constraints) -> Result<Table, NoMemory>
    ensures { IfOk result
        (λ whole. whole ≡ record { name = table.now.name; columns = table.now.columns; keys = spec.keys_of constraints; checks = constraints.checks; foreign = constraints.foreign }) }
{
    let Constraints {
        primary,
        unique,
        checks,
        foreign,
    } = constraints;
    Ok(Table {
        name: table.name.copy(alloc)?,
        columns: copy_columns(alloc, table.columns.as_slice())?,
        keys: all_keys_of(primary, unique)?,
        checks,
        foreign,
    })
}

/// A condition over the entries of one FROM list.
#[tactic(auto, using(crate::proofs::Tables::over_one))]
fn bind_over(
    alloc: Global,
    tables: &[Table],
    entries: &[Entry],
    tree: &CondTree,
) -> Result<Cond, TextStop>
    ensures { Gives (bind_cond tables.now (whole_level entries.now ∷ []) tree.now) result }
{
    let level = Levels::Inside {
        entries,
        first: 0,
        end: entries.len(),
        outer: &Levels::Outside,
    };
    bind_condition(alloc, tables, tree, &level)
}

impl Home<'_> {
    #[tactic(auto, unfolding(crate::specs::Bound::and_then))]
    fn bind_check(&self, alloc: Global, tree: &CondTree) -> Result<Cond, TextStop>
        ensures { Gives (spec.bind_check self.now.declared.now.outlines.now self.now.declared.now.trees.now self.now.table.now self.now.name.now self.now.number tree.now) result }
    {
        let entries = [Entry {
            table: self.number,
            name: self.name.text.copy(alloc)?,
            span: self.name.span,
        }];
        let cond = bind_over(alloc, self.declared.outlines.tables(), &entries, tree)?;
        if !cond.is_within_limit() {
            return Err(too_many(65_537, self.name.span));
        }
        Ok(cond)
    }

    #[tactic(auto, unfolding(crate::specs::Bound::and_then))]
    fn with_unique(
        &self,
        alloc: Global,
        earlier: Constraints,
        names: &[NameTree],
    ) -> Result<Constraints, TextStop>
        ensures { Gives (spec.bind_rule self.now.declared.now.outlines.now self.now.declared.now.trees.now self.now.table.now self.now.name.now self.now.number earlier (rule.Unique names.now)) result }
    {
        if earlier.has_all_keys() {
            return Err(too_many(1_001, self.name.span));
        }
        let columns = bind_names(alloc, self.table.columns.as_slice(), names)?;
        let Constraints {
            primary,
            mut unique,
            checks,
            foreign,
        } = earlier;
        unique.push(Key { columns })?;
        Ok(Constraints {
            primary,
            unique,
            checks,
            foreign,
        })
    }

    #[tactic(auto, unfolding(crate::specs::Bound::and_then))]
    fn with_primary(
        &self,
        alloc: Global,
        earlier: Constraints,
        names: &[NameTree],
        at: Span,
    ) -> Result<Constraints, TextStop>
        ensures { Gives (spec.bind_rule self.now.declared.now.outlines.now self.now.declared.now.trees.now self.now.table.now self.now.name.now self.now.number earlier (rule.Primary names.now at)) result }
    {
        if earlier.has_all_keys() {
            return Err(too_many(1_001, self.name.span));
        }
        let columns = bind_names(alloc, self.table.columns.as_slice(), names)?;
        let Constraints {
            primary,
            unique,
            checks,
            foreign,
        } = earlier;
        if primary.is_some() {
            return Err(refused(Fault::DuplicateName, at));
        }
        Ok(Constraints {
            primary: Some(Key { columns }),
            unique,
            checks,
            foreign,
        })
    }

    #[tactic(auto, unfolding(crate::specs::Bound::and_then))]
    fn with_check(
        &self,
        alloc: Global,
        earlier: Constraints,
        tree: &CondTree,
    ) -> Result<Constraints, TextStop>
        ensures { Gives (spec.bind_rule self.now.declared.now.outlines.now self.now.declared.now.trees.now self.now.table.now self.now.name.now self.now.number earlier (rule.Check tree.now)) result }
    {
        if earlier.checks.as_slice().len() >= 1_000 {
            return Err(too_many(1_001, self.name.span));
        }
        let cond = self.bind_check(alloc, tree)?;
        let Constraints {
            primary,
            unique,
            mut checks,
            foreign,
        } = earlier;
        checks.push(cond)?;
        Ok(Constraints {
            primary,
            unique,
            checks,
            foreign,
        })
    }

    /// The constraints with one more, that of a rule.
    #[tactic(auto, unfolding(crate::specs::Bound::and_then))]
    fn bind_rule(
        &self,
        alloc: Global,
        earlier: Constraints,
        rule: &RuleTree,
    ) -> Result<Constraints, TextStop>
        requires keys { self.now.declared.now.keys.now
            ≡ all_keys self.now.declared.now.trees.now 0 self.now.declared.now.outlines.now }
        ensures { Gives (spec.bind_rule self.now.declared.now.outlines.now self.now.declared.now.trees.now self.now.table.now self.now.name.now self.now.number earlier rule.now) result }
    {
        match rule {
            RuleTree::NotNull => Ok(earlier),
            RuleTree::Unique { columns } => self.with_unique(alloc, earlier, columns.as_slice()),
            RuleTree::Primary { columns, span } => self.with_primary(
                alloc,
                earlier,
                columns.as_slice(),
                *span,
            ),
            RuleTree::Check(tree) => self.with_check(alloc, earlier, tree),
            RuleTree::Foreign {
                columns,
                table,
                target,
                span,
            } => {
                if earlier.foreign.as_slice().len() >= 1_000 {
                    return Err(too_many(1_001, self.name.span));
                }
                let key = self.bind_foreign(
                    alloc,
                    columns.as_slice(),
                    table,
                    target.as_slice(),
                    *span,
                )?;
                Ok(earlier.with_foreign(key)?)
            }
        }
    }

    /// The constraints of the rules of the table.
    fn bind_rules(&self, alloc: Global, rules: &[&RuleTree]) -> Result<Constraints, TextStop>
        requires keys { self.now.declared.now.keys.now
            ≡ all_keys self.now.declared.now.trees.now 0 self.now.declared.now.outlines.now }
        ensures { Gives (spec.bind_rules self.now.declared.now.outlines.now self.now.declared.now.trees.now self.now.table.now self.now.name.now self.now.number spec.no_constraints (behind rules.now)) result }
    {
        let mut constraints = Constraints::none(alloc);
        for rule in rules {
            constraints = self.bind_rule(alloc, constraints, rule)?;
        }
        Ok(constraints)
    }
}

fn rules_at<'t>(
    alloc: Global,
    trees: &'t [CreateTable],
    number: usize,
) -> Result<Vec<&'t RuleTree>, NoMemory>
    ensures { IfOk result (λ rules. behind rules.items ≡ spec.rules_at [] trees.now number) }
{
    match trees.get(number) {
        Some(tree) => rules_of(alloc, tree.elements.as_slice()),
        None => Ok(Vec::new(alloc)),
    }
}

/// The keys that each table's declaration names.
#[tactic(auto, using(crate::proofs::Tables::keys_start, crate::proofs::Tables::keys_next, crate::proofs::Tables::keys_over))]
fn all_keys(
    alloc: Global,
    trees: &[CreateTable],
    tables: &[Table],
) -> Result<Items<NamedKeys>, NoMemory>
    ensures { IfOk result (λ keys. keys ≡ all_keys trees.now 0 tables.now) }
{
    let mut keys = Items::new(alloc);
    for (number, table) in tables.iter().enumerate() {
        let rules = rules_at(alloc, trees, number)?;
        let named = named_keys(alloc, table.columns.as_slice(), rules.as_slice())?;
        keys.push(named)?;
    }
    Ok(keys)
}

fn table_at(tables: &[Table], number: usize) -> Option<&Table>
    ensures none { IfNone result (length tables.now ≤ number) }
    ensures some { IfSome result (λ table. slice_get tables.now number ≡ Some table.now) }
{
    let Some(table) = tables.get(number) else {
        return None;
    };
    Some(table)
}

impl Declared<'_> {
    /// A table with the constraints of its declaration.
    #[tactic(auto, unfolding(crate::specs::Bound::and_then))]
    fn bind_table(
        &self,
        alloc: Global,
        number: usize,
        table: &Table,
        tree: &CreateTable,
    ) -> Result<Table, TextStop>
        requires keys { self.now.keys.now ≡ all_keys self.now.trees.now 0 self.now.outlines.now }
        ensures { Gives (bind_table self.now.outlines.now self.now.trees.now number table.now tree.now) result }
    {
        let rules = rules_of(alloc, tree.elements.as_slice())?;
        let home = Home {
            declared: self,
            table,
            name: &tree.name,
            number: counted(number)?,
        };
        let constraints = home.bind_rules(alloc, rules.as_slice())?;
        Ok(whole_table(alloc, table, constraints)?)
    }

    /// The tables with their constraints.
    fn bind_tables(&self, alloc: Global) -> Result<Items<Table>, TextStop>
        requires keys { self.now.keys.now ≡ all_keys self.now.trees.now 0 self.now.outlines.now }
        ensures { Gives (spec.bind_tables self.now.outlines.now self.now.trees.now 0 self.now.outlines.now self.now.trees.now) result }
    {
        let mut tables = Items::new(alloc);
        for (number, tree) in self.trees.iter().enumerate() {
            let Some(table) = table_at(self.outlines.tables(), number) else {
                return Ok(tables);
            };
            let whole = self.bind_table(alloc, number, table, tree)?;
            tables.push(whole)?;
        }
        Ok(tables)
    }
}

/// The second pass, over the tables of the first one.
fn second_pass(
    alloc: Global,
    outlines: &Outlines,
    trees: &[CreateTable],
    keys: &[NamedKeys],
) -> Result<Items<Table>, TextStop>
    requires keys { keys.now ≡ all_keys trees.now 0 outlines.now }
    ensures { Gives (spec.bind_tables outlines.now trees.now 0 outlines.now trees.now) result }
{
    let declared = Declared {
        outlines,
        trees,
        keys,
    };
    declared.bind_tables(alloc)
}

/// The tables that these declarations bind to.
#[tactic(auto, unfolding(crate::specs::Bound::and_then))]
fn bind_all(alloc: Global, trees: &[CreateTable]) -> Result<Items<Table>, TextStop>
    ensures { Gives (spec.bind_schema trees.now) result }
{
    let outlines = bind_outlines(alloc, trees)?;
    let keys = all_keys(alloc, trees, outlines.tables())?;
    second_pass(alloc, &outlines, trees, keys.as_slice())
}

/// The schema that these declarations bind to. The first rule that they break refuses them. Rules
/// are looked at in two passes, of the tables with their columns, and of their keys, CHECKs and
/// foreign keys, each in text order.
///
/// `NoMemory` comes where memory runs out.
pub fn bind_schema(alloc: Global, tables: &[CreateTable]) -> Result<Schema, TextStop>
    requires shaped { schema_shaped tables.now ≡ true }
    ensures bound { Gives (spec.bind_schema tables.now) result }
{
    let bound = bind_all(alloc, tables)?;
    Ok(Schema::new(bound).unwrap())
}
