//! The rules of a table, and the keys that they name.
ghost use Rattle.std.specs.Prelude.{◌≡◌, ◌++◌, [], nat_eq, nat_le, length, filter, IfOk, OnOk};
ghost use Rattle.std.specs.List.{list_any, filter_map};
ghost use Rattle.lint_core.specs.Schema.{is_within, are_columns_of};
ghost use Rattle.sql_bind.specs.Bound.{Gives};
ghost use Rattle.sql_bind.specs.Columns.{rules_of};
ghost use Rattle.sql_bind.specs.Keys.{bind_name, bind_names, good_names, is_key_rule, key_rules, primary_key, unique_columns, option_list};
ghost use Rattle.sql_bind.specs.inner.Passes.{rules_in, behind, keys_named};

use crate::bound::{counted, refused};
use crate::terms::column_place;
use lint_base::{Fault, Items, NoMemory, TextStop};
use lint_core::Column;
use sql_tree::{Element, NameTree, RuleTree};
use std::alloc::Global;

/// The keys of a table, as its rules name them: their columns. The primary key is the first that
/// is written. A key whose names are not good is none.
#[derive(Drop)]
pub(crate) struct NamedKeys {
    pub(crate) primary: Option<Items<u32>>,
    pub(crate) unique: Items<Items<u32>>,
}

fn add_each<'t>(rules: &mut Vec<&'t RuleTree>, more: &'t [RuleTree]) -> Result<(), NoMemory>
    ensures { OnOk result (behind rules.new.items ≡ behind rules.old.items ++ more.now) }
{
    for rule in more {
        rules.push(rule)?;
    }
    Ok(())
}

fn add_rules<'t>(rules: &mut Vec<&'t RuleTree>, element: &'t Element) -> Result<(), NoMemory>
    ensures { OnOk result
        (behind rules.new.items ≡ behind rules.old.items ++ rules_in element.now) }
{
    match element {
        Element::Column { rules: own, .. } => add_each(rules, own.as_slice())?,
        Element::Rule(rule) => rules.push(rule)?,
    }
    Ok(())
}

/// The rules of a table in text order, those of its columns among them.
pub(crate) fn rules_of<'t>(
    alloc: Global,
    elements: &'t [Element],
) -> Result<Vec<&'t RuleTree>, NoMemory>
    ensures { IfOk result (λ rules. behind rules.items ≡ rules_of elements.now) }
{
    let mut rules = Vec::new(alloc);
    for element in elements {
        add_rules(&mut rules, element)?;
    }
    Ok(rules)
}

fn is_among(place: u32, places: &[u32]) -> bool
    ensures { result ≡ list_any (nat_eq place) places.now }
{
    places.iter().any(|other| place == *other)
}

/// The column of a name after these columns.
fn bind_name(columns: &[Column], earlier: &[u32], name: &NameTree) -> Result<u32, TextStop>
    ensures { Gives (bind_name columns.now earlier.now name.now) result }
{
    let Some(place) = column_place(columns, &name.text) else {
        return Err(refused(Fault::UnknownColumn, name.span));
    };
    let place = counted(place)?;
    if is_among(place, earlier) {
        return Err(refused(Fault::DuplicateName, name.span));
    }
    Ok(place)
}

/// The columns of a list of names, each of which is a column and stands once.
pub(crate) fn bind_names(
    alloc: Global,
    columns: &[Column],
    names: &[NameTree],
) -> Result<Items<u32>, TextStop>
    ensures { Gives (bind_names columns.now [] names.now) result }
{
    let mut places = Items::new(alloc);
    for name in names {
        let place = bind_name(columns, places.as_slice(), name)?;
        places.push(place)?;
    }
    Ok(places)
}

fn good_names(
    alloc: Global,
    columns: &[Column],
    names: &[NameTree],
) -> Result<Option<Items<u32>>, NoMemory>
    ensures { IfOk result (λ places. places ≡ good_names columns.now names.now) }
{
    match bind_names(alloc, columns, names) {
        Ok(places) => Ok(Some(places)),
        Err(TextStop::Refused(_)) => Ok(None),
        Err(TextStop::NoMemory) => Err(NoMemory),
    }
}

fn is_key_rule(rule: &RuleTree) -> bool
    ensures { result ≡ is_key_rule rule.now }
{
    matches!(rule, RuleTree::Unique { .. } | RuleTree::Primary { .. })
}

/// The first 1,000 keys among the rules of a table.
#[tactic(auto, using(crate::proofs::Passes::keys_skip, crate::proofs::Passes::keys_push))]
fn key_rules<'t>(alloc: Global, rules: &[&'t RuleTree]) -> Result<Vec<&'t RuleTree>, NoMemory>
    ensures { IfOk result (λ keys. behind keys.items ≡ key_rules (behind rules.now)) }
{
    let mut keys = Vec::new(alloc);
    for rule in rules {
        if keys.len() >= 1_000 {
            return Ok(keys);
        }
        if !is_key_rule(rule) {
            continue;
        }
        keys.push(*rule)?;
    }
    Ok(keys)
}

/// The columns of the first primary key, if its names are good.
fn primary_key(
    alloc: Global,
    columns: &[Column],
    keys: &[&RuleTree],
) -> Result<Option<Items<u32>>, NoMemory>
    ensures { IfOk result (λ key. key ≡ primary_key columns.now (behind keys.now)) }
{
    for rule in keys {
        let RuleTree::Primary { columns: names, .. } = rule else {
            continue;
        };
        return good_names(alloc, columns, names.as_slice());
    }
    Ok(None)
}

fn unique_columns(
    alloc: Global,
    columns: &[Column],
    rule: &RuleTree,
) -> Result<Option<Items<u32>>, NoMemory>
    ensures { IfOk result (λ key. key ≡ unique_columns columns.now rule.now) }
{
    match rule {
        RuleTree::Unique { columns: names } => good_names(alloc, columns, names.as_slice()),
        _ => Ok(None),
    }
}

/// The columns of each other key whose names are good.
fn unique_keys(
    alloc: Global,
    columns: &[Column],
    keys: &[&RuleTree],
) -> Result<Items<Items<u32>>, NoMemory>
    ensures { IfOk result
        (λ unique. unique ≡ filter_map (unique_columns columns.now) (behind keys.now)) }
{
    let mut unique = Items::new(alloc);
    for rule in keys {
        if let Some(key) = unique_columns(alloc, columns, rule)? {
            unique.push(key)?;
        }
    }
    Ok(unique)
}

/// The keys of a table with these columns and rules.
pub(crate) fn named_keys(
    alloc: Global,
    columns: &[Column],
    rules: &[&RuleTree],
) -> Result<NamedKeys, NoMemory>
    ensures { IfOk result (λ keys. keys ≡ keys_named columns.now (behind rules.now)) }
{
    let keys = key_rules(alloc, rules)?;
    Ok(NamedKeys {
        primary: primary_key(alloc, columns, keys.as_slice())?,
        unique: unique_keys(alloc, columns, keys.as_slice())?,
    })
}

fn is_within(places: &[u32], others: &[u32]) -> bool
    ensures { result ≡ is_within places.now others.now }
{
    places.iter().all(|place| is_among(*place, others))
}

/// Whether the columns are, as a set, those of a key, and as many.
fn are_columns_of(columns: &[u32], key: &[u32]) -> bool
    ensures { result ≡ are_columns_of columns.now (record { columns = key.now }) }
{
    columns.len() == key.len() && is_within(columns, key) && is_within(key, columns)
}

fn some_key_has(keys: &[Items<u32>], columns: &[u32]) -> bool
    ensures { result ≡ list_any
        (λ key. are_columns_of columns.now (record { columns = key })) keys.now }
{
    keys.iter()
        .any(|key| are_columns_of(columns, key.as_slice()))
}

impl NamedKeys {
    /// Whether the columns are, as a set, those of one of the keys, and as many.
    pub(crate) fn has(&self, columns: &[u32]) -> bool
        ensures { result ≡ list_any (λ key. are_columns_of columns.now (record { columns = key }))
            (option_list self.now.primary ++ self.now.unique) }
    {
        match &self.primary {
            Some(key) if are_columns_of(columns, key.as_slice()) => true,
            _ => some_key_has(self.unique.as_slice(), columns),
        }
    }
}
