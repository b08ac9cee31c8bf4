//! E6 and E7: the counter sentences that speak of a predicate.
ghost use Rattle.std.specs.Prelude.{◌≡◌, true, IfOk};
ghost use Rattle.lint_core.specs.Asked.{main_condition};
ghost use Rattle.lint_core.specs.Fits.{query_fits};
ghost use Rattle.lint_core.specs.Predicates.{with_replaced};
ghost use Rattle.lint_core.specs.declared.condition.Cond.TheVariants.{True as AlwaysTrue, False as NeverTrue};
ghost use Rattle.sort_formula.specs.Counters.{replaced_counter, scope, sentence_of};
ghost use Rattle.sort_formula.specs.Translation.{is_true_formula};
ghost use Rattle.sql_meaning.specs.Replacing.{constant};
ghost use Rattle.error_reductions.specs.inner.Parts.{exactly_one};

use crate::joined::{both, either, some_own};
use crate::selected::{own_scope, where_formula};
use counter_forms::asked_sentences_have_room;
use lint_base::NoMemory;
use lint_core::{Query, Schema};
use sort_formula::{Formula, negate};
use sql_meaning::replaced;
use std::alloc::Global;
use truth_formula::is_true;

/// WHERE with a predicate replaced is true.
fn replaced_formula(
    alloc: Global,
    schema: &Schema,
    query: &Query,
    predicate: u32,
    by: bool,
) -> Result<Formula, NoMemory>
    requires { query_fits schema.now query.now ≡ true }
    ensures { IfOk result (λ formula. formula ≡ is_true_formula schema.now
        (with_replaced (constant by) predicate (main_condition query.now))
        (scope schema.now query.now)) }
{
    asked_sentences_have_room();
    let scope = own_scope(alloc, query)?;
    let cond = replaced(alloc, &query.block.cond, predicate, by)?;
    is_true(alloc, schema, &cond, &scope)
}

/// One of the two holds, and the other does not.
fn exactly_one(alloc: Global, one: Formula, other: Formula) -> Result<Formula, NoMemory>
    ensures { IfOk result (λ formula. formula ≡ exactly_one one other) }
{
    let not_one = negate(alloc, &one)?;
    let not_other = negate(alloc, &other)?;
    let first = both(alloc, one, not_other)?;
    let second = both(alloc, other, not_one)?;
    either(alloc, first, second)
}

/// There is a row at which exactly one is true: WHERE, or WHERE with the predicate replaced.
fn differs_with(
    alloc: Global,
    schema: &Schema,
    query: &Query,
    predicate: u32,
    by: bool,
) -> Result<Formula, NoMemory>
    requires { query_fits schema.now query.now ≡ true }
    ensures { IfOk result (λ formula. formula ≡ sentence_of (replaced_counter schema.now query.now
        (with_replaced (constant by) predicate (main_condition query.now)))) }
{
    let one = where_formula(alloc, schema, query)?;
    let other = replaced_formula(alloc, schema, query, predicate, by)?;
    let body = exactly_one(alloc, one, other)?;
    some_own(alloc, query, body)
}

/// The counter sentence of E6: there is a row of each main entry at which exactly one is true,
/// WHERE, or WHERE with TRUE in place of the predicate. `NoMemory` where there is no memory for
/// it.
pub fn differs_with_true(
    alloc: Global,
    schema: &Schema,
    query: &Query,
    predicate: u32,
) -> Result<Formula, NoMemory>
    requires { query_fits schema.now query.now ≡ true }
    ensures { IfOk result (λ formula. formula ≡ sentence_of (replaced_counter schema.now query.now
        (with_replaced AlwaysTrue predicate (main_condition query.now)))) }
{
    differs_with(alloc, schema, query, predicate, true)
}

/// The counter sentence of E7: there is a row of each main entry at which exactly one is true,
/// WHERE, or WHERE with FALSE in place of the predicate. `NoMemory` where there is no memory for
/// it.
pub fn differs_with_false(
    alloc: Global,
    schema: &Schema,
    query: &Query,
    predicate: u32,
) -> Result<Formula, NoMemory>
    requires { query_fits schema.now query.now ≡ true }
    ensures { IfOk result (λ formula. formula ≡ sentence_of (replaced_counter schema.now query.now
        (with_replaced NeverTrue predicate (main_condition query.now)))) }
{
    differs_with(alloc, schema, query, predicate, false)
}
