//! The problem that a question is judged by, or why none is made.
ghost use Rattle.std.specs.Prelude.{◌≡◌, ◌<◌, ◌≤◌, ◌^◌, [], true, length, suc, All, IfOk, IfErr};
ghost use Rattle.std.specs.List.{list_all};
ghost use Rattle.lint_core.specs.Database.{below};
ghost use Rattle.sort_formula.specs.Nodes.{nodes};
ghost use Rattle.sort_formula.specs.Sentences.{formula_fits};
ghost use Rattle.sorted_skolem.specs.Graph.{IsOrder};
ghost use Rattle.instantiate.specs.Cases.{IsProblem};
ghost use Rattle.instantiate.specs.Groundable.{AreGroundable};
ghost use Rattle.lint_engine.specs.JudgedBy.{rows_for};
ghost use Rattle.lint_engine.specs.Limits.{HaveFewNodes};
ghost use Rattle.lint_engine.specs.inner.Problems.{IsReady, IsStop};

use crate::sentences::{formulas_are_sentences, have_few_nodes, numbers_of};
use instantiate::{GroundStop, Problem, ground};
use lint_base::{Items, NoMemory};
use lint_core::Schema;
use sort_formula::Sentence;
use sorted_skolem::{Order, Rows, RowsStop, SortStop, orders_exclude_cycles, rows_of, sort_order};
use std::alloc::Global;

/// Why no problem is made.
#[derive(Drop)]
pub(crate) enum Stop {
    /// The tables of whose rows the sentences ask go round.
    Cycle { tables: Items<u32> },
    /// A limit is passed.
    Large { rows: u64, nodes: u64 },
    NoMemory,
}

impl From<NoMemory> for Stop {
    ghost use Rattle.std.specs.Prelude.{◌≡◌};
    ghost use Rattle.lint_engine.specs.declared.problem.Stop.TheVariants as stop;

    ghost from_gives = { λ _ e. e ≡ stop.NoMemory };

    fn from(_error: NoMemory) -> Stop {
        Stop::NoMemory
    }
}

fn ordered(alloc: Global, sentences: &[Sentence]) -> Result<Order, Stop>
    ensures order { IfOk result (λ o. IsOrder sentences.now o.tables) }
    ensures stop { IfErr result (IsStop sentences.now) }
{
    match sort_order(alloc, sentences) {
        Ok(order) => Ok(order),
        Err(SortStop::Cycle { tables }) => Err(Stop::Cycle { tables }),
        Err(SortStop::NoMemory) => Err(Stop::NoMemory),
    }
}

fn rows_within(alloc: Global, order: &Order, sentences: &[Sentence]) -> Result<Rows, Stop>
    requires order { IsOrder sentences.now order.now.tables }
    requires nodes { HaveFewNodes sentences.now }
    ensures rows { IfOk result (λ r. r.terms ≡ rows_for sentences.now order.now.tables) }
    ensures few { IfOk result (λ r. length r.terms ≤ 512) }
    ensures stop { IfErr result (IsStop sentences.now) }
{
    orders_exclude_cycles();
    match rows_of(alloc, order, sentences) {
        Ok(rows) => Ok(rows),
        Err(RowsStop::ManyRows { count }) => Err(Stop::Large {
            rows: count,
            nodes: 0,
        }),
        Err(RowsStop::NoMemory) => Err(Stop::NoMemory),
    }
}

/// The ground list over these row terms.
fn grounded(
    alloc: Global,
    schema: &Schema,
    order: Order,
    rows: Rows,
    sentences: Items<Sentence>,
    numbers: Items<u32>,
) -> Result<Problem, Stop>
    requires fit { list_all (λ s. formula_fits schema.now s []) sentences ≡ true }
    requires ready { AreGroundable sentences order.tables rows.terms }
    requires numbers { length numbers ≡ suc (length sentences) }
    ensures problem { IfOk result (λ p. IsProblem schema.now p) }
    ensures sentences { IfOk result (λ p. p.sentences ≡ sentences) }
    ensures numbers { IfOk result (λ p. p.numbers ≡ numbers) }
    ensures rows { IfOk result (λ p. p.rows ≡ rows) }
    ensures few { IfOk result (λ p. length p.clauses ≤ 400000) }
    ensures stop { IfErr result (IsStop sentences) }
{
    orders_exclude_cycles();
    let count = rows.terms.as_slice().len() as u64;
    match ground(alloc, schema, order, rows, sentences, numbers) {
        Ok(problem) => Ok(problem),
        Err(GroundStop::ManyNodes { count: nodes }) => Err(Stop::Large { rows: count, nodes }),
        Err(GroundStop::NoMemory) => Err(Stop::NoMemory),
    }
}

/// The problem of sentences that fit the schema, where their tables have an order and no limit is
/// passed. The limits are tested in their order.
pub(crate) fn problem_of(
    alloc: Global,
    schema: &Schema,
    sentences: Items<Sentence>,
) -> Result<Problem, Stop>
    requires { list_all (λ s. formula_fits schema.now s []) sentences ≡ true }
    ensures problem { IfOk result (IsReady schema.now sentences) }
    ensures stop { IfErr result (IsStop sentences) }
{
    orders_exclude_cycles();
    schema.tables();
    formulas_are_sentences(sentences.as_slice());
    let order = ordered(alloc, sentences.as_slice())?;
    if !have_few_nodes(sentences.as_slice()) {
        return Err(Stop::Large {
            rows: 0,
            nodes: u64::MAX,
        });
    }
    let rows = rows_within(alloc, &order, sentences.as_slice())?;
    let numbers = numbers_of(alloc, sentences.as_slice().len())?;
    let problem = grounded(alloc, schema, order, rows, sentences, numbers)?;
    Ok(problem)
}
