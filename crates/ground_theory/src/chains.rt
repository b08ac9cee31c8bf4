//! The Text leaf of a path of equal facts.
ghost use Rattle.std.specs.Prelude.{◌≡◌, ◌<◌, All, MatchOption, IfOk, length, option_map};
ghost use Rattle.lint_core.specs.Comparison.{is_same_text};
ghost use Rattle.ground_theory.specs.TextEdges.{fact_in};
ghost use Rattle.ground_theory.specs.TextLeaf.{is_same_end, back_of, are_apart, walk, end_of};
ghost use Rattle.ground_theory.specs.TextLeaf.{start_of, text_leaf};

use crate::texts::TextSystem;
use lint_base::{Items, NoMemory, Str};
use lint_core::{Step, TextEdge};
use std::alloc::Global;
use text_classes::TextEnd;

/// The leaf of a path: from the left side of the unequal fact `last` to its right one, or from a
/// text to another.
pub(crate) fn chain_leaf(
    alloc: Global,
    system: &TextSystem,
    last: Option<u32>,
    path: &[u32],
) -> Result<Step, NoMemory>
    requires beside { length system.now.origins.items ≡ length system.now.facts.items }
    requires numbers { All (λ n. n < length system.now.facts.items) path.now }
    requires last { MatchOption last (0 < length path.now)
        (λ n. n < length system.now.facts.items) }
    ensures { let facts = system.now.facts.items in
        IfOk result (λ leaf. leaf ≡ text_leaf system.now.origins.items facts last path.now) }
{
    let facts = system.facts.as_slice();
    match last {
        Some(number) => Ok(Step::Text {
            last: Some(fact_in(system.origins[number as usize])),
            edges: Items::from_vec(walk(alloc, system, &facts[number as usize].left, path)?),
        }),
        None => Ok(Step::Text {
            last: None,
            edges: Items::from_vec(walk(alloc, system, start_of(system, path), path)?),
        }),
    }
}

/// The edges of the path, each from the side where the one before ends.
fn walk(
    alloc: Global,
    system: &TextSystem,
    from: &TextEnd,
    path: &[u32],
) -> Result<Vec<TextEdge>, NoMemory>
    requires beside { length system.now.origins.items ≡ length system.now.facts.items }
    requires numbers { All (λ n. n < length system.now.facts.items) path.now }
    ensures { let facts = system.now.facts.items in
        IfOk result (λ v. v.items ≡ walk system.now.origins.items facts from.now path.now) }
{
    let mut edges = Vec::new(alloc);
    let mut at = from;
    for number in path {
        let fact = &system.facts[*number as usize];
        let origin = system.origins[*number as usize];
        if is_same_end(at, &fact.left) {
            edges.push(origin)?;
            at = &fact.right;
        } else {
            edges.push(back_of(origin))?;
            at = &fact.left;
        }
    }
    Ok(edges)
}

/// The side of the first fact from which the path leads to another text.
fn start_of<'a>(system: &'a TextSystem, path: &[u32]) -> &'a TextEnd
    requires some { 0 < length path.now }
    requires numbers { All (λ n. n < length system.now.facts.items) path.now }
    ensures { result.now ≡ start_of system.now.origins.items system.now.facts.items path.now }
{
    let first = &system.facts[path[0] as usize];
    if are_apart(&first.left, end_of(system, &first.left, path)) {
        &first.left
    } else {
        &first.right
    }
}

/// Where the path leads to from a side, if its facts have sides there.
fn end_of<'a>(system: &'a TextSystem, from: &'a TextEnd, path: &[u32]) -> Option<&'a TextEnd>
    requires { All (λ n. n < length system.now.facts.items) path.now }
    ensures { let facts = system.now.facts.items in option_map (λ e. e.now) result
        ≡ end_of system.now.origins.items facts from.now path.now }
{
    let mut at = from;
    for number in path {
        let fact = &system.facts[*number as usize];
        if is_same_end(at, &fact.left) {
            at = &fact.right;
        } else if is_same_end(at, &fact.right) {
            at = &fact.left;
        } else {
            return None;
        }
    }
    Some(at)
}

/// Whether the two are texts, and not the same.
fn are_apart(from: &TextEnd, to: Option<&TextEnd>) -> bool
    ensures { result ≡ are_apart from.now (option_map (λ e. e.now) to.entry) }
{
    match (from, to) {
        (TextEnd::Text(one), Some(TextEnd::Text(other))) => !is_same_text(one, other),
        _ => false,
    }
}

fn is_same_end(one: &TextEnd, other: &TextEnd) -> bool
    ensures { result ≡ is_same_end one.now other.now }
{
    match (one, other) {
        (TextEnd::Var(one), TextEnd::Var(other)) => one == other,
        (TextEnd::Text(one), TextEnd::Text(other)) => is_same_text(one, other),
        _ => false,
    }
}

fn is_same_text(one: &Str, other: &Str) -> bool
    ensures { result ≡ is_same_text one.now other.now }
{
    one.as_str() == other.as_str()
}

fn back_of(edge: TextEdge) -> TextEdge
    ensures { result ≡ back_of edge }
{
    match edge {
        TextEdge::Fact(fact) => TextEdge::FactBack(fact),
        TextEdge::FactBack(fact) => TextEdge::Fact(fact),
        TextEdge::Same { fact, column } => TextEdge::Back { fact, column },
        TextEdge::Back { fact, column } => TextEdge::Same { fact, column },
    }
}

/// The number of the literal of an edge.
fn fact_in(edge: TextEdge) -> u32
    ensures { result ≡ fact_in edge }
{
    match edge {
        TextEdge::Fact(fact) | TextEdge::FactBack(fact) => fact,
        TextEdge::Same { fact, .. } | TextEdge::Back { fact, .. } => fact,
    }
}
