//! The numbers of the clauses of a problem.
ghost use Rattle.std.specs.Prelude.{◌≡◌, ◌≤◌, ◌<◌, ◌^◌, List, All, length, map, IfOk};
ghost use Rattle.lint_core.specs.declared.schema.Table.{Table};
ghost use Rattle.sort_formula.specs.Nodes.{nodes};
ghost use Rattle.instantiate.specs.Cases.{IsProblem};
ghost use Rattle.instantiate.specs.Ground.{maker_of};
ghost use Rattle.instantiate.specs.Hanging.{keys_of_problem};
ghost use Rattle.instantiate.specs.Keys.{number_of};
ghost use Rattle.instantiate.specs.inner.Listings.{HasKey, IsListing, keys_for};

use crate::grounding::listing;
use crate::listing::{Listing, number_of};
use crate::problem::Problem;
use lint_base::{Items, NoMemory};
use sorted_skolem::RowTerm;
use std::alloc::Global;

/// What the numbers of a problem's clauses are found from.
fn listing_of<'a>(alloc: Global, problem: &'a Problem) -> Result<Listing<'a>, NoMemory>
    requires problem { (schema : List Table) × IsProblem schema problem.now }
    requires few { length problem.now.rows.terms ≤ 512 }
    requires nodes { All (λ s. nodes s < 2 ^ 32) problem.now.sentences }
    ensures ready { IfOk result IsListing }
    ensures keys { IfOk result (λ l. keys_for l ≡ keys_of_problem problem.now) }
    ensures terms { IfOk result (λ l. l.terms.now ≡ problem.now.rows.terms) }
{
    let sentences = problem.sentences.as_slice();
    let order = problem.order.tables.as_slice();
    let terms = problem.rows.terms.as_slice();
    match listing(alloc, sentences, order, terms) {
        Ok(listing) => Ok(listing),
        // A problem has no more clauses than are listed.
        Err(_) => Err(NoMemory),
    }
}

fn maker_number(listing: &Listing, term: &RowTerm) -> u32
    requires ready { IsListing listing.now }
    requires listed { HasKey listing.now (maker_of term.now) }
    ensures { result ≡ number_of (keys_for listing.now) (maker_of term.now) }
{
    let rows = term.rows.as_slice();
    number_of(listing, term.sentence as usize, term.node as usize, rows)
}

fn maker_numbers_in(alloc: Global, listing: &Listing) -> Result<Items<u32>, NoMemory>
    requires { IsListing listing.now }
    ensures { IfOk result (λ numbers. numbers
        ≡ map (λ t. number_of (keys_for listing.now) (maker_of t)) listing.now.terms.now) }
{
    let mut numbers = Items::new(alloc);
    let terms = listing.terms;
    for term in terms {
        numbers.push(maker_number(listing, term))?;
    }
    Ok(numbers)
}

/// The number of the clause of each row term's maker, the Exists that asks for it. `NoMemory` where
/// there is no memory for the numbers, or for the nodes of the sentences.
pub fn maker_numbers(alloc: Global, problem: &Problem) -> Result<Items<u32>, NoMemory>
    requires problem { (schema : List Table) × IsProblem schema problem.now }
    requires few { length problem.now.rows.terms ≤ 512 }
    requires clauses { length problem.now.clauses ≤ 400000 }
    requires nodes { All (λ s. nodes s < 2 ^ 32) problem.now.sentences }
    ensures { IfOk result (λ numbers. numbers
        ≡ map (λ t. number_of (keys_of_problem problem.now) (maker_of t)) problem.now.rows.terms) }
{
    let listing = listing_of(alloc, problem)?;
    maker_numbers_in(alloc, &listing)
}
