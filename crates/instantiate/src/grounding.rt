//! The ground list of sentences.
ghost use Rattle.std.specs.Prelude.{◌≡◌, ◌≤◌, [], true, suc, length, map, IfOk, IfErr};
ghost use Rattle.std.specs.List.{list_all};
ghost use Rattle.sort_formula.specs.Sentences.{formula_fits};
ghost use Rattle.sorted_skolem.specs.Preorder.{outlines_of};
ghost use Rattle.instantiate.specs.Cases.{IsProblem};
ghost use Rattle.instantiate.specs.Ground.{keys, clauses_of, domains_of, frame_of};
ghost use Rattle.instantiate.specs.Groundable.{AreGroundable};
ghost use Rattle.instantiate.specs.Stops.{IsTooMany};
ghost use Rattle.instantiate.specs.inner.Listings.{IsListing};

use crate::clauses::clauses_of;
use crate::counts::{bases, starts};
use crate::listing::Listing;
use crate::outline::outlines;
use crate::problem::Problem;
use crate::rows::steps;
use crate::spots::spots;
use ground_theory::{Clause, Frame};
use lint_base::{Items, NoMemory};
use lint_core::{Domain, Schema, Table};
use sort_formula::Sentence;
use sorted_skolem::{Order, RowTerm, Rows};
use std::alloc::Global;

/// Why the ground list was not made.
#[derive(Clone, Copy, Debug, PartialEq, Eq)]
pub enum GroundStop {
    /// The list has more than 400,000 clauses: so many, or the greatest `u64` where there are
    /// more.
    ManyNodes { count: u64 },
    NoMemory,
}

impl From<NoMemory> for GroundStop {
    ghost use Rattle.std.specs.Prelude.{◌≡◌};
    ghost use Rattle.instantiate.specs.declared.grounding.GroundStop.TheVariants as stop;

    ghost from_gives = { λ _ e. e ≡ stop.NoMemory };

    fn from(_error: NoMemory) -> GroundStop {
        GroundStop::NoMemory
    }
}

/// What the numbers of the clauses are found from. `ManyNodes` exactly where there are more than
/// 400,000.
pub(crate) fn listing<'a>(
    alloc: Global,
    sentences: &'a [Sentence],
    order: &'a [u32],
    terms: &'a [RowTerm],
) -> Result<Listing<'a>, GroundStop>
    requires { AreGroundable sentences.now order.now terms.now }
    ensures ready { IfOk result IsListing }
    ensures sentences { IfOk result (λ l. l.sentences.now ≡ sentences.now) }
    ensures order { IfOk result (λ l. l.order.now ≡ order.now) }
    ensures terms { IfOk result (λ l. l.terms.now ≡ terms.now) }
    ensures many { IfErr result
        (IsTooMany (length (keys (outlines_of sentences.now) order.now terms.now))) }
{
    let outlines = outlines(alloc, sentences)?;
    let spots = spots(alloc, order, terms, outlines.as_slice())?;
    let offsets = starts(alloc, spots.as_slice(), order.len() + 1)?;
    if offsets.total > 400_000 {
        return Err(GroundStop::ManyNodes {
            count: offsets.total,
        });
    }
    let mut next = offsets.starts.into_vec();
    let bases = bases(alloc, spots.as_slice(), next.as_mut_slice())?;
    let steps = steps(alloc, terms)?;
    Ok(Listing {
        sentences,
        order,
        terms,
        outlines,
        spots,
        bases,
        steps,
    })
}

fn all_clauses(
    alloc: Global,
    sentences: &[Sentence],
    order: &[u32],
    terms: &[RowTerm],
) -> Result<Items<Clause>, GroundStop>
    requires { AreGroundable sentences.now order.now terms.now }
    ensures clauses { IfOk result (λ clauses. clauses
        ≡ clauses_of (outlines_of sentences.now) order.now terms.now) }
    ensures few { IfOk result (λ clauses. length clauses ≤ 400000) }
    ensures many { IfErr result
        (IsTooMany (length (keys (outlines_of sentences.now) order.now terms.now))) }
{
    let listing = listing(alloc, sentences, order, terms)?;
    Ok(clauses_of(alloc, &listing)?)
}

fn domains_of_table(alloc: Global, table: &Table) -> Result<Items<Domain>, NoMemory>
    ensures { IfOk result (λ domains. domains ≡ map (λ c. c.domain) table.now.columns) }
{
    let mut domains = Items::new(alloc);
    for column in table.columns.as_slice() {
        domains.push(column.domain)?;
    }
    Ok(domains)
}

fn domains_of(alloc: Global, tables: &[Table]) -> Result<Items<Items<Domain>>, NoMemory>
    ensures { IfOk result (λ domains. domains ≡ domains_of tables.now) }
{
    let mut domains = Items::new(alloc);
    for table in tables {
        domains.push(domains_of_table(alloc, table)?)?;
    }
    Ok(domains)
}

fn tables_of(alloc: Global, terms: &[RowTerm]) -> Result<Items<u32>, NoMemory>
    ensures { IfOk result (λ tables. tables ≡ map (λ t. t.table) terms.now) }
{
    let mut tables = Items::new(alloc);
    for term in terms {
        tables.push(term.table)?;
    }
    Ok(tables)
}

fn frame_of(alloc: Global, schema: &Schema, terms: &[RowTerm]) -> Result<Frame, NoMemory>
    ensures { IfOk result (λ frame. frame ≡ frame_of schema.now terms.now) }
{
    Ok(Frame {
        tables: tables_of(alloc, terms)?,
        domains: domains_of(alloc, schema.tables().as_slice())?,
    })
}

/// The ground list of sentences that fit the schema: each clause of each stage. `order` and `rows`
/// are those of the sentences, and `numbers` has one number more than there are sentences.
/// `ManyNodes` exactly where there are more than 400,000 clauses, which is found by counting.
/// `NoMemory` where there is no memory for all of it.
pub fn ground(
    alloc: Global,
    schema: &Schema,
    order: Order,
    rows: Rows,
    sentences: Items<Sentence>,
    numbers: Items<u32>,
) -> Result<Problem, GroundStop>
    requires fits { list_all (λ s. formula_fits schema.now s []) sentences ≡ true }
    requires ready { AreGroundable sentences order.tables rows.terms }
    requires numbers { length numbers ≡ suc (length sentences) }
    ensures problem { IfOk result (λ p. IsProblem schema.now p) }
    ensures sentences { IfOk result (λ p. p.sentences ≡ sentences) }
    ensures numbers { IfOk result (λ p. p.numbers ≡ numbers) }
    ensures order { IfOk result (λ p. p.order ≡ order) }
    ensures rows { IfOk result (λ p. p.rows ≡ rows) }
    ensures few { IfOk result (λ p. length p.clauses ≤ 400000) }
    ensures many { IfErr result
        (IsTooMany (length (keys (outlines_of sentences) order.tables rows.terms))) }
{
    let tables = order.tables.as_slice();
    let terms = rows.terms.as_slice();
    let clauses = all_clauses(alloc, sentences.as_slice(), tables, terms)?;
    let frame = frame_of(alloc, schema, terms)?;
    Ok(Problem {
        sentences,
        numbers,
        order,
        rows,
        clauses,
        frame,
    })
}
