//! The conjuncts of a condition.
ghost use Rattle.std.specs.Prelude.{◌≡◌, ◌++◌, IfOk, OnOk};
ghost use Rattle.std.specs.List.{flat_map};
ghost use Rattle.lint_core.specs.Conjuncts.{conjuncts};
ghost use Rattle.sql_meaning.specs.Behind.{behind};

use lint_base::NoMemory;
use lint_core::Cond;
use std::alloc::Global;

#[cycle(conjuncts)]
fn add_conjuncts<'a>(cond: &'a Cond, found: &mut Vec<&'a Cond>) -> Result<(), NoMemory>
    ensures { OnOk result (behind found.new.items ≡ behind found.old.items ++ conjuncts cond.now) }
{
    match cond {
        Cond::And(parts) => add_each(parts.as_slice(), found)?,
        _ => found.push(cond)?,
    }
    Ok(())
}

#[cycle(conjuncts)]
fn add_each<'a>(parts: &'a [Cond], found: &mut Vec<&'a Cond>) -> Result<(), NoMemory>
    ensures { OnOk result
        (behind found.new.items ≡ behind found.old.items ++ flat_map conjuncts parts.now) }
{
    for part in parts {
        add_conjuncts(part, found)?;
    }
    Ok(())
}

/// The conjuncts of a condition, in order: the parts of a conjunction, and the parts of those of
/// them that are conjunctions; any other condition is one conjunct. `NoMemory` where there is none
/// list.
pub fn conjuncts<'a>(alloc: Global, cond: &'a Cond) -> Result<Vec<&'a Cond>, NoMemory>
    ensures { IfOk result (λ found. behind found.items ≡ conjuncts cond.now) }
{
    let mut found = Vec::new(alloc);
    add_conjuncts(cond, &mut found)?;
    Ok(found)
}
