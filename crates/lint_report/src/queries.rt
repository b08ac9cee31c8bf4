//! The queries of a run, as `specs/Text.antt` says them.
ghost use Rattle.std.specs.Prelude.{◌≡◌, ◌++◌, IfOk, OnOk, codes, string_bytes};
ghost use Rattle.std.specs.Fmt.{decimal};
ghost use Rattle.lint_report.specs.RefusalText.{span_text, refusal_text};
ghost use Rattle.lint_report.specs.Text.{result_text, query_line, query_text, queries_text, report_text};

use crate::pushing::{push_number, push_text};
use crate::questions::push_answers;
use crate::refusals::{push_refusal, push_span};
use lint_base::{NoMemory, Refusal, Span};
use lint_core::{QueryResult, QueryRun, Run, Schema};
use std::alloc::{AllocError, Global};

fn push_refused(out: &mut String, refusal: Refusal) -> Result<(), AllocError>
    ensures { OnOk result
        (string_bytes out.new ≡ string_bytes out.old
        ++ (codes "  refused " ++ refusal_text refusal ++ codes "\n")) }
{
    push_text(out, "  refused ")?;
    push_refusal(out, refusal)?;
    push_text(out, "\n")
}

#[tactic(auto, unfolding(crate::specs::Text::result_text))]
fn push_result(
    alloc: Global,
    out: &mut String,
    schema: &Schema,
    result_of: &QueryResult,
) -> Result<(), NoMemory>
    ensures { OnOk result
        (string_bytes out.new ≡ string_bytes out.old ++ result_text schema.now result_of.now) }
{
    match result_of {
        QueryResult::Refused(refusal) => {
            push_refused(out, *refusal)?;
            Ok(())
        }
        QueryResult::Answered {
            query,
            questions,
            answers,
        } => push_answers(
            alloc,
            out,
            schema,
            query,
            questions.as_slice(),
            answers.as_slice(),
        ),
    }
}

#[tactic(auto, unfolding(crate::specs::Text::query_line))]
fn push_query_line(out: &mut String, number: u64, span: Span) -> Result<(), AllocError>
    ensures { OnOk result (string_bytes out.new ≡ string_bytes out.old ++ query_line number span) }
{
    push_text(out, "query ")?;
    push_number(out, number)?;
    push_text(out, " at ")?;
    push_span(out, span)?;
    push_text(out, "\n")
}

#[tactic(auto, unfolding(crate::specs::Text::query_text))]
fn push_query(
    alloc: Global,
    out: &mut String,
    schema: &Schema,
    number: u64,
    query: &QueryRun,
) -> Result<(), NoMemory>
    ensures { OnOk result
        (string_bytes out.new ≡ string_bytes out.old ++ query_text schema.now number query.now) }
{
    push_query_line(out, number, query.span)?;
    push_result(alloc, out, schema, &query.result)
}

fn push_queries(
    alloc: Global,
    out: &mut String,
    schema: &Schema,
    queries: &[QueryRun],
) -> Result<(), NoMemory>
    ensures { OnOk result
        (string_bytes out.new ≡ string_bytes out.old
        ++ queries_text schema.now 1 queries.now) }
{
    let mut number = 1;
    for query in queries {
        push_query(alloc, out, schema, number, query)?;
        number += 1;
    }
    Ok(())
}

/// The part of the report that a query has, under its number in its file: its line, and the lines
/// of its refusal or of its questions with their answers. `NoMemory` where there is no memory for
/// it.
pub fn query_text(
    alloc: Global,
    schema: &Schema,
    number: u32,
    query: &QueryRun,
) -> Result<Vec<u8>, NoMemory>
    ensures { IfOk result (λ bytes. bytes.items ≡ query_text schema.now number query.now) }
{
    let mut out = String::new(alloc);
    push_query(alloc, &mut out, schema, u64::from(number), query)?;
    Ok(out.into_bytes())
}

/// The report of a run: the parts of its queries one after another, which are numbered from 1.
/// `NoMemory` where there is no memory for it.
pub fn report_text(alloc: Global, run: &Run) -> Result<Vec<u8>, NoMemory>
    ensures { IfOk result (λ bytes. bytes.items ≡ report_text run.now) }
{
    let mut out = String::new(alloc);
    push_queries(alloc, &mut out, &run.schema, run.queries.as_slice())?;
    Ok(out.into_bytes())
}
