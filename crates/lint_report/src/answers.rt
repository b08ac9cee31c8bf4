//! Verdicts, and what shows them, as `specs/Text.antt` says them.
ghost use Rattle.std.specs.Prelude.{◌≡◌, ◌+◌, ◌++◌, OnOk, codes, string_bytes};
ghost use Rattle.std.specs.Fmt.{decimal};
ghost use Rattle.insert_lines.specs.InsertText.{texts, joined, insert_lines};
ghost use Rattle.lint_report.specs.Text.{counter_text, table_text, tables_text, key_text, constant_text, verdict_text, finding_text, proof_line, shown_text, answer_text};

use crate::findings::is_finding;
use crate::points::push_at;
use crate::pushing::{push_numbered, push_text};
use crate::steps::push_steps;
use insert_lines::{push_inserts, push_name, push_value};
use lint_base::NoMemory;
use lint_core::{Answer, Counter, KeyName, Question, Schema, Step, Value};
use std::alloc::{AllocError, Global};

#[tactic(auto, unfolding(crate::specs::Text::counter_text))]
fn push_counter(
    alloc: Global,
    out: &mut String,
    schema: &Schema,
    counter: &Counter,
) -> Result<(), NoMemory>
    ensures { OnOk result
        (string_bytes out.new ≡ string_bytes out.old ++ counter_text schema.now counter.now) }
{
    push_text(out, "    database\n")?;
    push_inserts(alloc, out, "    ", schema, &counter.database)?;
    push_at(out, &counter.points)?;
    Ok(())
}

fn push_counters(
    alloc: Global,
    out: &mut String,
    schema: &Schema,
    counters: &[Counter],
) -> Result<(), NoMemory>
    ensures { OnOk result
        (string_bytes out.new ≡ string_bytes out.old
        ++ texts (counter_text schema.now) counters.now) }
{
    for counter in counters {
        push_counter(alloc, out, schema, counter)?;
    }
    Ok(())
}

#[tactic(auto, unfolding(crate::specs::Text::table_text))]
fn push_table(out: &mut String, schema: &Schema, table: u32) -> Result<(), AllocError>
    ensures { OnOk result
        (string_bytes out.new ≡ string_bytes out.old ++ table_text schema.now table) }
{
    match schema.tables().as_slice().get(table as usize) {
        Some(found) => push_name(out, &found.name),
        None => Ok(()),
    }
}

fn push_more_tables(out: &mut String, schema: &Schema, tables: &[u32]) -> Result<(), AllocError>
    ensures { OnOk result
        (string_bytes out.new ≡ string_bytes out.old
        ++ texts (λ t. codes ", " ++ table_text schema.now t) tables.now) }
{
    for table in tables {
        push_text(out, ", ")?;
        push_table(out, schema, *table)?;
    }
    Ok(())
}

#[tactic(auto, unfolding(crate::specs::Text::tables_text))]
fn push_tables(out: &mut String, schema: &Schema, tables: &[u32]) -> Result<(), AllocError>
    ensures { OnOk result
        (string_bytes out.new ≡ string_bytes out.old ++ tables_text schema.now tables.now) }
{
    match tables.split_first() {
        Some((first, more)) => {
            push_table(out, schema, *first)?;
            push_more_tables(out, schema, more)
        }
        None => Ok(()),
    }
}

#[tactic(auto, unfolding(crate::specs::Text::key_text))]
fn push_key(out: &mut String, schema: &Schema, key: KeyName) -> Result<(), AllocError>
    ensures { OnOk result
        (string_bytes out.new ≡ string_bytes out.old ++ key_text schema.now key) }
{
    push_text(out, " key ")?;
    push_table(out, schema, key.table)?;
    push_numbered(out, " ", u64::from(key.index) + 1)
}

#[tactic(auto, unfolding(crate::specs::Text::constant_text))]
fn push_constant(out: &mut String, question: Question, value: &Value) -> Result<(), AllocError>
    ensures { OnOk result
        (string_bytes out.new ≡ string_bytes out.old ++ constant_text question value.now) }
{
    match question {
        Question::Constant { .. } => {
            push_text(out, " ")?;
            push_value(out, value)
        }
        _ => Ok(()),
    }
}

fn push_cycle(
    out: &mut String,
    text: &str,
    schema: &Schema,
    cycle: &[u32],
) -> Result<(), AllocError>
    ensures { OnOk result
        (string_bytes out.new ≡ string_bytes out.old
        ++ (text.now ++ tables_text schema.now cycle.now)) }
{
    push_text(out, text)?;
    push_tables(out, schema, cycle)
}

#[tactic(auto, unfolding(crate::specs::Text::verdict_text))]
fn push_verdict(
    out: &mut String,
    schema: &Schema,
    question: Question,
    answer: &Answer,
) -> Result<(), AllocError>
    ensures { OnOk result
        (string_bytes out.new ≡ string_bytes out.old
        ++ verdict_text schema.now question answer.now) }
{
    match answer {
        Answer::Always(cert) => {
            push_text(out, "always")?;
            push_constant(out, question, &cert.value)
        }
        Answer::NotAlways(_) => push_text(out, "not always"),
        Answer::Moot => push_text(out, "moot"),
        Answer::Blocked { by } => push_numbered(out, "blocked by ", u64::from(*by)),
        Answer::CyclicKeys { cycle, key, .. } => {
            push_cycle(out, "cyclic keys ", schema, cycle.as_slice())?;
            push_key(out, schema, *key)
        }
        Answer::CyclicNesting { cycle } => {
            push_cycle(out, "cyclic nesting ", schema, cycle.as_slice())
        }
        Answer::Large { rows, nodes } => {
            push_numbered(out, "large rows ", *rows)?;
            push_numbered(out, " nodes ", *nodes)
        }
        Answer::Spent { tried } => push_numbered(out, "spent ", *tried),
    }
}

fn push_finding(out: &mut String, question: Question, answer: &Answer) -> Result<(), AllocError>
    ensures { OnOk result
        (string_bytes out.new ≡ string_bytes out.old ++ finding_text question answer.now) }
{
    if is_finding(question, answer) {
        push_text(out, " (finding)")
    } else {
        Ok(())
    }
}

#[tactic(auto, unfolding(crate::specs::Text::proof_line))]
fn push_proof(out: &mut String, steps: &[Step]) -> Result<(), AllocError>
    ensures { OnOk result (string_bytes out.new ≡ string_bytes out.old ++ proof_line steps.now) }
{
    push_text(out, "    proof ")?;
    push_steps(out, steps)?;
    push_text(out, "\n")
}

#[tactic(auto, unfolding(crate::specs::Text::shown_text))]
fn push_shown(
    alloc: Global,
    out: &mut String,
    schema: &Schema,
    answer: &Answer,
) -> Result<(), NoMemory>
    ensures { OnOk result
        (string_bytes out.new ≡ string_bytes out.old ++ shown_text schema.now answer.now) }
{
    match answer {
        Answer::Always(cert) => {
            push_proof(out, cert.steps.as_slice())?;
            Ok(())
        }
        Answer::NotAlways(counters) => push_counters(alloc, out, schema, counters.as_slice()),
        Answer::CyclicKeys { counter, .. } => push_counter(alloc, out, schema, counter),
        _ => Ok(()),
    }
}

/// Adds the verdict, whether it is a finding, and what shows it.
#[tactic(auto, unfolding(crate::specs::Text::answer_text))]
pub(crate) fn push_answer(
    alloc: Global,
    out: &mut String,
    schema: &Schema,
    question: Question,
    answer: &Answer,
) -> Result<(), NoMemory>
    ensures { OnOk result
        (string_bytes out.new ≡ string_bytes out.old
        ++ answer_text schema.now question answer.now) }
{
    push_verdict(out, schema, question, answer)?;
    push_finding(out, question, answer)?;
    push_text(out, "\n")?;
    push_shown(alloc, out, schema, answer)
}
