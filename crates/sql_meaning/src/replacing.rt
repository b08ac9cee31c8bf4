//! A condition with one of its predicates replaced.
ghost use Rattle.std.specs.Prelude.{◌≡◌, length, suc, IfOk, OnOk, Some};
ghost use Rattle.std.specs.List.{flat_map};
ghost use Rattle.lint_core.specs.declared.condition.Block.{out-Block};
ghost use Rattle.lint_core.specs.Predicates.{predicates, with_replaced};
ghost use Rattle.sql_meaning.specs.Replacing.{constant};
ghost use Rattle.sql_meaning.specs.inner.ReplacedParts.{is_zero, after, replaced_at, parts_at, alone_at, around_at};

use lint_base::{Items, NoMemory};
use lint_core::{Block, Cond, Entry};
use sqlite_items::Boxed;
use std::alloc::Global;

fn constant(by: bool) -> Cond
    ensures { result ≡ constant by }
{
    if by { Cond::True } else { Cond::False }
}

/// Takes one away from the number, and answers whether it was 0, after which there is none.
fn is_next(left: &mut Option<u32>) -> bool
    ensures next { result ≡ is_zero left.old }
    ensures left { left.new ≡ after left.old 1 }
{
    match *left {
        None => false,
        Some(0) => {
            *left = None;
            true
        }
        Some(number) => {
            *left = Some(number - 1);
            false
        }
    }
}

fn copy_entries(alloc: Global, entries: &[Entry]) -> Result<Items<Entry>, NoMemory>
    ensures { IfOk result (λ copies. copies ≡ entries.now) }
{
    let mut copies = Items::new(alloc);
    for entry in entries {
        copies.push(Entry {
            table: entry.table,
            name: entry.name.copy(alloc)?,
            span: entry.span,
        })?;
    }
    Ok(copies)
}

fn replace_alone(
    alloc: Global,
    cond: &Cond,
    left: &mut Option<u32>,
    by: bool,
) -> Result<Cond, NoMemory>
    ensures cond { IfOk result (λ c. c ≡ alone_at (constant by) left.old cond.now) }
    ensures left { OnOk result (left.new ≡ after left.old 1) }
{
    if is_next(left) {
        return Ok(constant(by));
    }
    cond.copy(alloc)
}

/// The condition with the predicate of the number replaced, where there is a number. It takes from
/// the number how many predicates there are, and there is none behind the one that is replaced.
#[cycle(replaced)]
fn replace(alloc: Global, cond: &Cond, left: &mut Option<u32>, by: bool) -> Result<Cond, NoMemory>
    ensures cond { IfOk result (λ c. c ≡ replaced_at (constant by) left.old cond.now) }
    ensures left { OnOk result (left.new ≡ after left.old (length (predicates cond.now))) }
{
    match cond {
        Cond::True => Ok(Cond::True),
        Cond::False => Ok(Cond::False),
        Cond::And(parts) => match replace_each(alloc, parts.as_slice(), left, by) {
            Ok(parts) => Ok(Cond::And(parts)),
            Err(error) => Err(error),
        },
        Cond::Or(parts) => match replace_each(alloc, parts.as_slice(), left, by) {
            Ok(parts) => Ok(Cond::Or(parts)),
            Err(error) => Err(error),
        },
        Cond::Not(part) => match replace(alloc, part.get(), left, by) {
            Ok(part) => Ok(Cond::Not(Boxed::new(alloc, part)?)),
            Err(error) => Err(error),
        },
        Cond::Compare { .. } => replace_alone(alloc, cond, left, by),
        Cond::IsNull { .. } => replace_alone(alloc, cond, left, by),
        Cond::Scalar { .. } => replace_alone(alloc, cond, left, by),
        Cond::Exists { block, span } => match replace_around(alloc, block.get(), left, by) {
            Ok(Some(block)) => Ok(Cond::Exists { block, span: *span }),
            Ok(None) => Ok(constant(by)),
            Err(error) => Err(error),
        },
        Cond::In {
            term,
            block,
            item,
            negated,
            span,
        } => match replace_around(alloc, block.get(), left, by) {
            Ok(Some(block)) => Ok(Cond::In {
                term: term.copy(alloc)?,
                block,
                item: item.copy(alloc)?,
                negated: *negated,
                span: *span,
            }),
            Ok(None) => Ok(constant(by)),
            Err(error) => Err(error),
        },
    }
}

#[cycle(replaced)]
fn replace_each(
    alloc: Global,
    parts: &[Cond],
    left: &mut Option<u32>,
    by: bool,
) -> Result<Items<Cond>, NoMemory>
    ensures parts { IfOk result (λ cs. cs ≡ parts_at (constant by) left.old parts.now) }
    ensures left { OnOk result
        (left.new ≡ after left.old (length (flat_map predicates parts.now))) }
{
    let mut copies = Items::new(alloc);
    for part in parts {
        copies.push(replace(alloc, part, left, by)?)?;
    }
    Ok(copies)
}

/// The block of a predicate, with the predicate of the number replaced in its condition. `None`
/// where it is the predicate around the block that is replaced.
#[cycle(replaced)]
fn replace_around(
    alloc: Global,
    block: &Block,
    left: &mut Option<u32>,
    by: bool,
) -> Result<Option<Boxed<Block>>, NoMemory>
    ensures block { IfOk result (λ b. b ≡ around_at (constant by) left.old block.now) }
    ensures left { OnOk result
        (left.new ≡ after left.old (suc (length (predicates (out-Block block.now).cond)))) }
{
    if is_next(left) {
        return Ok(None);
    }
    match replace(alloc, &block.cond, left, by) {
        Ok(cond) => {
            let block = Block {
                entries: copy_entries(alloc, block.entries.as_slice())?,
                cond,
                span: block.span,
            };
            Ok(Some(Boxed::new(alloc, block)?))
        }
        Err(error) => Err(error),
    }
}

/// The condition with the predicate of this number replaced by TRUE or FALSE. Predicates count
/// from 0 in the order of the text, those in the subqueries of EXISTS and IN behind the predicate
/// around them; where there are too few, it is a copy. `NoMemory` where there is none for it.
pub fn replaced(alloc: Global, cond: &Cond, predicate: u32, by: bool) -> Result<Cond, NoMemory>
    ensures { IfOk result (λ c. c ≡ with_replaced (constant by) predicate cond.now) }
{
    let mut left = Some(predicate);
    replace(alloc, cond, &mut left, by)
}
