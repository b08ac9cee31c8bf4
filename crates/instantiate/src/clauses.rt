//! What stands in each clause.
ghost use Rattle.std.specs.Prelude.{◌≡◌, ◌≤◌, ◌<◌, ◌-◌, [], ◌∷◌, ◌++◌, length, map, take, replicate, Some, None, slice_get, IfOk, OnOk};
ghost use Rattle.sort_formula.specs.declared.formula.Formula.{out-Formula};
ghost use Rattle.sorted_skolem.specs.Preorder.{node_at, forall_tables};
ghost use Rattle.instantiate.specs.Ground.{rows_along, ways_in, guards_of, present_guard, clause_of, clauses_of};
ghost use Rattle.instantiate.specs.inner.Flat.{node_of, quantifier_of};
ghost use Rattle.instantiate.specs.inner.Listings.{HasKey, IsListing, IsAtom, IsClosedBy, outlines_in, inside_guards, node_clauses, sentence_clauses, stage_clauses};
ghost use Rattle.instantiate.specs.inner.Spots.{spot_of};

use crate::listing::{Listing, node_at, number_of, term_number};
use crate::outline::{Above, Binder, FlatNode};
use crate::rows::term_lists;
use crate::spots::Spot;
use ground_theory::{Clause, Guard, Literal};
use lint_base::{Items, NoMemory};
use sort_formula::{Formula, place};
use sorted_skolem::RowTerm;
use std::alloc::Global;

/// The row term of each variable, where the Foralls have these rows.
fn variables(
    alloc: Global,
    terms: &[RowTerm],
    sentence: usize,
    rows: &[u32],
    around: &[Binder],
) -> Result<Items<u32>, NoMemory>
    requires { length terms.now ≤ 512 }
    ensures { IfOk result (λ variables. variables
        ≡ rows_along terms.now sentence [] rows.now (map quantifier_of around.now)) }
{
    let mut variables = Items::new(alloc);
    let mut used = 0;
    for binder in around {
        if !binder.is_forall {
            let outside = &rows[..used];
            variables.push(term_number(terms, sentence, binder.node as usize, outside))?;
        } else if used < rows.len() {
            variables.push(rows[used])?;
            used += 1;
        }
    }
    Ok(variables)
}

/// A way with the literal of an atom.
fn add_literal(
    alloc: Global,
    atom: &Formula,
    variables: &[u32],
    ways: &mut Items<Option<Literal>>,
) -> Result<(), NoMemory>
    requires closed { IsClosedBy (length variables.now) (out-Formula atom.now) }
    requires atom { IsAtom (out-Formula atom.now) }
    ensures { OnOk result (ways.new ≡ ways.old ++ ways_in variables.now (out-Formula atom.now)) }
{
    if let Formula::Atom(atom) = place(alloc, atom, variables, 0)? {
        ways.push(Some(Literal { atom }))?;
    }
    Ok(())
}

fn add_plain_ways(count: usize, ways: &mut Items<Option<Literal>>) -> Result<(), NoMemory>
    ensures { OnOk result (ways.new ≡ ways.old ++ replicate count None) }
{
    for number in 0..count {
        ways.push(None)?;
    }
    Ok(())
}

/// The ways of the formula's clause.
fn ways(
    alloc: Global,
    formula: &Formula,
    variables: &[u32],
) -> Result<Items<Option<Literal>>, NoMemory>
    requires { IsClosedBy (length variables.now) (out-Formula formula.now) }
    ensures { IfOk result (λ ways. ways ≡ ways_in variables.now (out-Formula formula.now)) }
{
    let mut ways = Items::new(alloc);
    match formula {
        Formula::Atom(_) => add_literal(alloc, formula, variables, &mut ways)?,
        Formula::Or(parts) => add_plain_ways(parts.as_slice().len(), &mut ways)?,
        _ => add_plain_ways(1, &mut ways)?,
    }
    Ok(ways)
}

/// The guard that a row is there: that the Exists which asks for it is taken.
fn add_presence(listing: &Listing, row: u32, guards: &mut Items<Guard>) -> Result<(), NoMemory>
    requires { IsListing listing.now }
    ensures { OnOk result (guards.new ≡ guards.old
        ++ present_guard (outlines_in listing.now) listing.now.order.now listing.now.terms.now row) }
{
    if let Some(term) = listing.terms.get(row as usize) {
        let maker = number_of(
            listing,
            term.sentence as usize,
            term.node as usize,
            term.rows.as_slice(),
        );
        guards.push(Guard {
            clause: maker,
            way: 0,
        })?;
    }
    Ok(())
}

/// The guards of a clause below a Forall, which has the last of the rows.
fn add_inside(
    listing: &Listing,
    sentence: usize,
    rows: &[u32],
    above: Above,
    guards: &mut Items<Guard>,
) -> Result<(), NoMemory>
    requires ready { IsListing listing.now }
    requires some { 0 < length rows.now }
    requires listed { HasKey listing.now (record {
      sentence = sentence;
      node = above.node;
      rows = take (length rows.now - 1) rows.now;
    }) }
    ensures { OnOk result (guards.new ≡ guards.old
        ++ inside_guards listing.now sentence rows.now (record { node = above.node; way = above.way })) }
{
    let last = rows.len() - 1;
    let outside = &rows[..last];
    guards.push(Guard {
        clause: number_of(listing, sentence, above.node as usize, outside),
        way: above.way,
    })?;
    add_presence(listing, rows[last], guards)
}

/// The guards of the clause of a node at row terms.
fn guards_of(
    alloc: Global,
    listing: &Listing,
    sentence: usize,
    number: usize,
    node: &FlatNode,
    rows: &[u32],
) -> Result<Items<Guard>, NoMemory>
    requires ready { IsListing listing.now }
    requires stands { node_at (outlines_in listing.now) sentence number ≡ Some (node_of node.now) }
    requires listed { HasKey listing.now
        (record { sentence = sentence; node = number; rows = rows.now }) }
    ensures { IfOk result (λ guards. guards
        ≡ guards_of (outlines_in listing.now) listing.now.order.now listing.now.terms.now
        (record { sentence = sentence; node = number; rows = rows.now }) (node_of node.now)) }
{
    let mut guards = Items::new(alloc);
    let Some(above) = node.above else {
        return Ok(guards);
    };
    let Some(parent) = node_at(listing, sentence, above.node as usize) else {
        return Ok(guards);
    };
    if matches!(parent.formula, Formula::Forall { .. }) {
        add_inside(listing, sentence, rows, above, &mut guards)?;
    } else {
        guards.push(Guard {
            clause: number_of(listing, sentence, above.node as usize, rows),
            way: above.way,
        })?;
    }
    Ok(guards)
}

/// The clause of a node at row terms.
fn clause_of(
    alloc: Global,
    listing: &Listing,
    sentence: usize,
    number: usize,
    node: &FlatNode,
    rows: &[u32],
) -> Result<Clause, NoMemory>
    requires ready { IsListing listing.now }
    requires stands { node_at (outlines_in listing.now) sentence number ≡ Some (node_of node.now) }
    requires listed { HasKey listing.now
        (record { sentence = sentence; node = number; rows = rows.now }) }
    ensures { IfOk result (λ clause. clause
        ≡ clause_of (outlines_in listing.now) listing.now.order.now listing.now.terms.now
        (record { sentence = sentence; node = number; rows = rows.now })) }
{
    let guards = guards_of(alloc, listing, sentence, number, node, rows)?;
    let around = node.around.as_slice();
    let variables = variables(alloc, listing.terms, sentence, rows, around)?;
    let ways = ways(alloc, node.formula, variables.as_slice())?;
    Ok(Clause { guards, ways })
}

/// Adds the clauses of a node, inside Foralls over these tables.
fn add_node(
    alloc: Global,
    listing: &Listing,
    sentence: usize,
    number: usize,
    node: &FlatNode,
    tables: &[u32],
    clauses: &mut Items<Clause>,
) -> Result<(), NoMemory>
    requires ready { IsListing listing.now }
    requires stands { node_at (outlines_in listing.now) sentence number ≡ Some (node_of node.now) }
    requires tables { tables.now ≡ forall_tables (node_of node.now) }
    ensures { OnOk result (clauses.new
        ≡ clauses.old ++ node_clauses listing.now sentence number tables.now) }
{
    let lists = term_lists(alloc, listing.terms, tables)?;
    for rows in lists.as_slice() {
        clauses.push(clause_of(alloc, listing, sentence, number, node, rows.as_slice())?)?;
    }
    Ok(())
}

/// Adds the clauses of a stage of a sentence with these nodes.
fn add_sentence(
    alloc: Global,
    listing: &Listing,
    stage: usize,
    sentence: usize,
    nodes: &[FlatNode],
    spots: &[Spot],
    clauses: &mut Items<Clause>,
) -> Result<(), NoMemory>
    requires ready { IsListing listing.now }
    requires stands { slice_get (outlines_in listing.now) sentence ≡ Some (map node_of nodes.now) }
    requires spots { spots.now
        ≡ map (spot_of listing.now.order.now listing.now.terms.now) (map node_of nodes.now) }
    ensures { OnOk result (clauses.new
        ≡ clauses.old ++ sentence_clauses listing.now stage sentence (map node_of nodes.now)) }
{
    for number in 0..nodes.len() {
        let node = &nodes[number];
        let spot = &spots[number];
        if spot.stage == stage && spot.count > 0 {
            let tables = spot.tables.as_slice();
            add_node(alloc, listing, sentence, number, node, tables, clauses)?;
        }
    }
    Ok(())
}

/// Adds the clauses of a stage.
fn add_stage(
    alloc: Global,
    listing: &Listing,
    stage: usize,
    clauses: &mut Items<Clause>,
) -> Result<(), NoMemory>
    requires { IsListing listing.now }
    ensures { OnOk result (clauses.new
        ≡ clauses.old ++ stage_clauses listing.now stage (outlines_in listing.now)) }
{
    let outlines = listing.outlines.as_slice();
    let spots = listing.spots.as_slice();
    for sentence in 0..outlines.len() {
        let nodes = outlines[sentence].as_slice();
        let spots = spots[sentence].as_slice();
        add_sentence(alloc, listing, stage, sentence, nodes, spots, clauses)?;
    }
    Ok(())
}

/// All clauses, stage by stage.
pub(crate) fn clauses_of(alloc: Global, listing: &Listing) -> Result<Items<Clause>, NoMemory>
    requires { IsListing listing.now }
    ensures { IfOk result (λ clauses. clauses
        ≡ clauses_of (outlines_in listing.now) listing.now.order.now listing.now.terms.now) }
{
    let mut clauses = Items::new(alloc);
    for stage in 0..listing.order.len() + 1 {
        add_stage(alloc, listing, stage, &mut clauses)?;
    }
    Ok(clauses)
}
