//! The numbers of clauses and row terms.
ghost use Rattle.std.specs.Prelude.{◌≡◌, ◌≤◌, ◌<◌, ℕ, length, unwrap_or, IfOk};
ghost use Rattle.std.specs.Prelude.{nat_eq, MatchOption, Some, None};
ghost use Rattle.std.specs.Cmp.Lexicographic.{pointwise};
ghost use Rattle.instantiate.specs.Keys.{number_of};
ghost use Rattle.instantiate.specs.Ground.{term_number};
ghost use Rattle.instantiate.specs.inner.Bases.{node_base};
ghost use Rattle.sorted_skolem.specs.Preorder.{node_at};
ghost use Rattle.instantiate.specs.inner.Flat.{node_of};
ghost use Rattle.instantiate.specs.inner.Listings.{HasKey, IsListing, keys_for, outlines_in};

use crate::outline::FlatNode;
use crate::rows::{Step, index_of};
use crate::spots::Spot;
use lint_base::Items;
use sort_formula::Sentence;
use sorted_skolem::RowTerm;

/// Sentences, the order of their tables and their row terms; their nodes, how many clauses each
/// node has, the number of its first one, and the step of each row term.
#[derive(Drop)]
pub(crate) struct Listing<'a> {
    pub(crate) sentences: &'a [Sentence],
    pub(crate) order: &'a [u32],
    pub(crate) terms: &'a [RowTerm],
    pub(crate) outlines: Items<Items<FlatNode<'a>>>,
    pub(crate) spots: Items<Items<Spot>>,
    pub(crate) bases: Items<Items<u64>>,
    pub(crate) steps: Items<Step>,
}

fn base_of(bases: &[Items<u64>], sentence: usize, node: usize) -> u64
    ensures { result ≡ unwrap_or (node_base bases.now sentence node) 0 }
{
    let Some(own) = bases.get(sentence) else {
        return 0;
    };
    own.as_slice().get(node).copied().unwrap_or(0)
}

/// The number of the clause of a node at row terms.
pub(crate) fn number_of(listing: &Listing, sentence: usize, node: usize, rows: &[u32]) -> u32
    requires ready { IsListing listing.now }
    requires listed { HasKey listing.now
        (record { sentence = sentence; node = node; rows = rows.now }) }
    ensures { result ≡ number_of (keys_for listing.now)
        (record { sentence = sentence; node = node; rows = rows.now }) }
{
    let base = base_of(listing.bases.as_slice(), sentence, node);
    let index = index_of(listing.steps.as_slice(), rows);
    (base + index) as u32
}

fn are_same(rows: &[u32], others: &[u32]) -> bool
    ensures { result ≡ pointwise nat_eq rows.now others.now }
{
    rows == others
}

/// The number of the row term that an Exists asks for at row terms; past the end where it asks for
/// none.
pub fn term_number(terms: &[RowTerm], sentence: usize, node: usize, rows: &[u32]) -> u32
    requires { length terms.now ≤ 512 }
    ensures { result ≡ term_number terms.now
        (record { sentence = sentence; node = node; rows = rows.now }) }
{
    for number in 0..terms.len() {
        let term = &terms[number];
        if term.sentence as usize == sentence
            && term.node as usize == node
            && are_same(rows, term.rows.as_slice())
        {
            return number as u32;
        }
    }
    terms.len() as u32
}

/// The node of a sentence.
pub(crate) fn node_at<'l, 'a>(
    listing: &'l Listing<'a>,
    sentence: usize,
    node: usize,
) -> Option<&'l FlatNode<'a>>
    ensures { MatchOption result (node_at (outlines_in listing.now) sentence node ≡ None)
        (λ found. node_at (outlines_in listing.now) sentence node ≡ Some (node_of found.now)) }
{
    let nodes = listing.outlines.as_slice().get(sentence)?;
    nodes.as_slice().get(node)
}
