//! The nodes of sentences in preorder, as lists.
ghost use Rattle.std.specs.Prelude.{◌≡◌, ◌+◌, ◌<◌, ◌^◌, [], ◌∷◌, ◌++◌, ℕ, length, map, sum, true, Some, IfOk, OnOk, All};
ghost use Rattle.sort_formula.specs.Nodes.{nodes};
ghost use Rattle.sort_formula.specs.Sentences.{is_sentence};
ghost use Rattle.sorted_skolem.specs.Preorder.{laid, laid_parts, nodes_of, outlines_of};
ghost use Rattle.instantiate.specs.inner.Flat.{node_of, quantifier_of, way_above};

use lint_base::{Items, NoMemory};
use sort_formula::{Formula, Sentence};
use std::alloc::Global;

/// A quantifier, by the number of its node.
#[derive(Clone, Copy)]
pub(crate) struct Binder {
    pub(crate) node: u32,
    pub(crate) table: u32,
    pub(crate) is_forall: bool,
}

/// The node above another, and the way that leads to this.
#[derive(Clone, Copy)]
pub(crate) struct Above {
    pub(crate) node: u32,
    pub(crate) way: u32,
}

/// A node of a sentence: the formula that stands there, the node above and the quantifiers around,
/// the outermost first.
#[derive(Drop)]
pub(crate) struct FlatNode<'a> {
    pub(crate) formula: &'a Formula,
    pub(crate) above: Option<Above>,
    pub(crate) around: Items<Binder>,
}

fn copied(alloc: Global, binders: &[Binder]) -> Result<Items<Binder>, NoMemory>
    ensures { IfOk result (λ copy. copy ≡ binders.now) }
{
    let mut copy = Items::new(alloc);
    for binder in binders {
        copy.push(*binder)?;
    }
    Ok(copy)
}

/// Adds the nodes of the formula, which stands below `above` and inside the quantifiers `around`.
#[cycle(nodes)]
fn add_nodes<'a>(
    alloc: Global,
    formula: &'a Formula,
    above: Option<Above>,
    around: &[Binder],
    found: &mut Items<FlatNode<'a>>,
) -> Result<(), NoMemory>
    requires { length found.old + nodes formula.now < 2 ^ 32 }
    ensures { OnOk result (map node_of found.new ≡ map node_of found.old
        ++ (laid formula.now).nodes (length found.old) (way_above above)
        (map quantifier_of around.now)) }
{
    let node = found.as_slice().len() as u32;
    found.push(FlatNode {
        formula,
        above,
        around: copied(alloc, around)?,
    })?;
    match formula {
        Formula::Atom(_) => Ok(()),
        Formula::And(parts) => add_parts(alloc, parts.as_slice(), node, false, around, found),
        Formula::Or(parts) => add_parts(alloc, parts.as_slice(), node, true, around, found),
        Formula::Exists { table, body } => {
            let table = *table;
            let is_forall = false;
            let binder = Binder {
                node,
                table,
                is_forall,
            };
            add_inside(alloc, body.get(), binder, around, found)
        }
        Formula::Forall { table, body } => {
            let table = *table;
            let is_forall = true;
            let binder = Binder {
                node,
                table,
                is_forall,
            };
            add_inside(alloc, body.get(), binder, around, found)
        }
    }
}

/// Adds the nodes of what stands below a quantifier.
#[cycle(nodes)]
fn add_inside<'a>(
    alloc: Global,
    body: &'a Formula,
    binder: Binder,
    around: &[Binder],
    found: &mut Items<FlatNode<'a>>,
) -> Result<(), NoMemory>
    requires { length found.old + nodes body.now < 2 ^ 32 }
    ensures { OnOk result (map node_of found.new ≡ map node_of found.old
        ++ (laid body.now).nodes (length found.old) (Some (record { node = binder.node; way = 0 }))
        (map quantifier_of around.now ++ quantifier_of binder ∷ [])) }
{
    let mut inside = copied(alloc, around)?;
    inside.push(binder)?;
    let above = Some(Above {
        node: binder.node,
        way: 0,
    });
    add_nodes(alloc, body, above, inside.as_slice(), found)
}

/// Adds the nodes of the parts of an And or an Or.
#[cycle(nodes)]
fn add_parts<'a>(
    alloc: Global,
    parts: &'a [Formula],
    node: u32,
    is_or: bool,
    around: &[Binder],
    found: &mut Items<FlatNode<'a>>,
) -> Result<(), NoMemory>
    requires { length found.old + sum (map nodes parts.now) < 2 ^ 32 }
    ensures { OnOk result (map node_of found.new ≡ map node_of found.old
        ++ laid_parts is_or node 0 (length found.old) (map quantifier_of around.now)
        (map laid parts.now)) }
{
    let mut way = 0;
    for part in parts {
        let above = Some(Above { node, way });
        add_nodes(alloc, part, above, around, found)?;
        if is_or {
            way += 1;
        }
    }
    Ok(())
}

fn nodes_of<'a>(alloc: Global, sentence: &'a Sentence) -> Result<Items<FlatNode<'a>>, NoMemory>
    requires { nodes sentence.now < 2 ^ 32 }
    ensures nodes { IfOk result (λ found. map node_of found ≡ nodes_of sentence.now) }
    ensures closed { OnOk result (is_sentence sentence.now ≡ true) }
{
    let mut found = Items::new(alloc);
    let around = Items::new(alloc);
    add_nodes(
        alloc,
        sentence.formula(),
        None,
        around.as_slice(),
        &mut found,
    )?;
    Ok(found)
}

/// The nodes of each sentence.
pub(crate) fn outlines<'a>(
    alloc: Global,
    sentences: &'a [Sentence],
) -> Result<Items<Items<FlatNode<'a>>>, NoMemory>
    requires { All (λ s. nodes s < 2 ^ 32) sentences.now }
    ensures nodes { IfOk result (λ all. map (map node_of) all ≡ outlines_of sentences.now) }
    ensures closed { OnOk result (All (λ s. is_sentence s ≡ true) sentences.now) }
{
    let mut all = Items::new(alloc);
    for sentence in sentences {
        all.push(nodes_of(alloc, sentence)?)?;
    }
    Ok(all)
}
