//! The constant text of each class, a text of its own where it has none, and what can't be met.
ghost use Rattle.std.specs.Prelude.{◌≡◌, ◌<◌, ◌≤◌, ◌+◌, ◌^◌, ℕ, Some, length, IfOk, MatchOption, string_bytes};
ghost use Rattle.std.specs.Str.{IsAscii};
ghost use Rattle.text_classes.specs.inner.Nodes.{text_at, number_at};
ghost use Rattle.text_classes.specs.inner.Forest.{IsIndexed, AreMet, AreApart, IsBroken, class_in};
ghost use Rattle.text_classes.specs.inner.Fresh.{IsHeld, NoneBegins, fresh_text, held_text, held_at, IsIn};

use crate::forest::{Forest, nones};
use crate::graph::Link;
use lint_base::{NoMemory, Str};
use std::alloc::Global;

/// The node of the constant text of each class, if it has one, or two such nodes of one class.
#[derive(Drop)]
pub(crate) enum Held {
    Each(Vec<Option<usize>>),
    Clash(usize, usize),
}

/// The first unequal fact whose sides are of one class.
pub(crate) fn broken(links: &[Link], forest: &Forest) -> Option<u32>
    requires met { AreMet links.now forest.now }
    requires few { length links.now < 2 ^ 32 }
    ensures { MatchOption result (AreApart links.now (length links.now) forest.now)
        (IsBroken links.now forest.now) }
{
    for number in 0..links.len() as u32 {
        let link = links[number as usize];
        if !link.equal && forest.class(link.left) == forest.class(link.right) {
            return Some(number);
        }
    }
    None
}

/// The constant text of each class. The nodes from `vars` on are those of constant texts.
pub(crate) fn hold(
    alloc: Global,
    vars: usize,
    nodes: usize,
    forest: &Forest,
) -> Result<Held, NoMemory>
    requires indexed { IsIndexed nodes forest.now }
    requires vars { vars ≤ nodes }
    ensures { IfOk result (IsHeld vars nodes forest.now) }
{
    let mut held = nones(alloc, forest.classes)?;
    for node in vars..nodes {
        let class = forest.class(node);
        if let Some(other) = held[class] {
            return Ok(Held::Clash(other, node));
        }
        held[class] = Some(node);
    }
    Ok(Held::Each(held))
}

/// The class of each variable.
pub(crate) fn labels(alloc: Global, vars: u32, forest: &Forest) -> Result<Vec<u32>, NoMemory>
    requires { IsIndexed vars forest.now }
    ensures count { IfOk result (λ labels. length labels.items ≡ vars) }
    ensures each { IfOk result (λ labels. (node : ℕ) → node < vars →
        class_in forest.now node ≡ Some (number_at labels.items node)) }
{
    let mut labels = Vec::new(alloc);
    for node in 0..vars {
        labels.push(forest.class(node as usize) as u32)?;
    }
    Ok(labels)
}

/// The text of each class: its constant text, or one that begins with the prefix.
pub(crate) fn texts(
    alloc: Global,
    vars: usize,
    constants: &[Str],
    held: &[Option<usize>],
    prefix: &str,
) -> Result<Vec<Str>, NoMemory>
    requires held { (class : ℕ) → IsIn vars (length constants.now) (held_at held.now class) }
    ensures count { IfOk result (λ texts. length texts.items ≡ length held.now) }
    ensures each { IfOk result (λ texts. (class : ℕ) → class < length held.now →
        let node = held_at held.now class in
        text_at texts.items class ≡ held_text vars constants.now prefix.now class node) }
{
    let mut texts = Vec::new(alloc);
    for class in 0..held.len() {
        texts.push(text_of(alloc, vars, constants, held[class], prefix, class)?)?;
    }
    Ok(texts)
}

/// The text of a class.
fn text_of(
    alloc: Global,
    vars: usize,
    constants: &[Str],
    held: Option<usize>,
    prefix: &str,
    class: usize,
) -> Result<Str, NoMemory>
    requires { IsIn vars (length constants.now) held }
    ensures { IfOk result (λ text. text ≡ held_text vars constants.now prefix.now class held) }
{
    match held {
        Some(node) => constants[node - vars].copy(alloc),
        None => fresh(alloc, prefix, class),
    }
}

/// The prefix and a number.
fn fresh(alloc: Global, prefix: &str, class: usize) -> Result<Str, NoMemory>
    ensures { IfOk result (λ text. text ≡ fresh_text prefix.now class) }
{
    let text = format!(in alloc; "{prefix}{class}")?;
    Str::from_str(alloc, text.as_str())
}
