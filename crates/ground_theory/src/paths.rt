//! Paths of Sames between row terms of one class.
ghost use Rattle.std.specs.Prelude.{◌≡◌, ◌<◌, ◌≤◌, ◌++◌, ◌∷◌, [], ℕ, map, length, IfOk};
ghost use Rattle.text_classes.specs.declared.facts.TextEnd.TheVariants.{Var};
ghost use Rattle.text_classes.specs.Paths.{Leads};
ghost use Rattle.ground_theory.specs.inner.Joining.{AreSames};
ghost use Rattle.ground_theory.specs.inner.Paths.{LeadsBy, AreTied, row_facts};

use crate::joining::Join;
use lint_base::NoMemory;
use lint_core::SameEdge;
use std::alloc::Global;
use text_classes::{Classed, TextEnd, TextFact, classes};

/// A path from a row term to another one of its class.
pub(crate) fn path(
    alloc: Global,
    rows: u32,
    joins: &[Join],
    from: u32,
    to: u32,
) -> Result<Vec<SameEdge>, NoMemory>
    requires few { length joins.now ≤ 512 }
    requires within { AreSames rows joins.now }
    requires from { from < rows }
    requires to { to < rows }
    requires tied { AreTied joins.now from to }
    ensures { IfOk result (λ path. LeadsBy joins.now from path.items to) }
{
    let facts = facts(alloc, joins, from, to)?;
    match classes(alloc, rows, &facts)? {
        Classed::Path { facts, .. } => walk(alloc, joins, from, to, facts.as_slice()),
        Classed::Labels { .. } => unreachable!(),
    }
}

/// The joins as equal facts, and that the two rows differ.
fn facts(alloc: Global, joins: &[Join], from: u32, to: u32) -> Result<Vec<TextFact>, NoMemory>
    ensures { IfOk result (λ facts. facts.items ≡ row_facts joins.now from to) }
{
    let mut facts = Vec::new(alloc);
    for join in joins {
        facts.push(fact(join.row, join.other, true))?;
    }
    facts.push(fact(from, to, false))?;
    Ok(facts)
}

fn fact(left: u32, right: u32, equal: bool) -> TextFact
    ensures { result ≡ record { left = Var left; right = Var right; equal = equal } }
{
    TextFact {
        left: TextEnd::Var(left),
        right: TextEnd::Var(right),
        equal,
    }
}

/// The joins of these numbers, each from the row where the one before ends.
fn walk(
    alloc: Global,
    joins: &[Join],
    from: u32,
    to: u32,
    numbers: &[u32],
) -> Result<Vec<SameEdge>, NoMemory>
    requires { Leads (row_facts joins.now from to) (Var from) numbers.now (Var to) }
    ensures { IfOk result (λ path. LeadsBy joins.now from path.items to) }
{
    let mut path = Vec::new(alloc);
    let mut at = from;
    for number in numbers {
        let join = joins[*number as usize];
        let back = join.row != at;
        path.push(SameEdge {
            fact: join.fact,
            back,
        })?;
        at = if back { join.row } else { join.other };
    }
    Ok(path)
}
