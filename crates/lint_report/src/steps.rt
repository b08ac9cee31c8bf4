//! The steps of certificates, as `specs/StepText.antt` says them.
ghost use Rattle.std.specs.Prelude.{◌≡◌, ◌++◌, OnOk, codes, string_bytes};
ghost use Rattle.std.specs.Fmt.{decimal};
ghost use Rattle.lint_core.specs.declared.certificate.Step.TheVariants as variant;
ghost use Rattle.insert_lines.specs.InsertText.{texts, joined};
ghost use Rattle.lint_report.specs.StepText.{edge_text, link_text, part_text, chain_text, path_text, last_text, step_text, steps_text};

use crate::pushing::{push_number, push_text};
use lint_core::{SameEdge, Step, SumEdge, TextEdge};
use std::alloc::AllocError;

fn push_fact(out: &mut String, name: &str, fact: u32) -> Result<(), AllocError>
    ensures { OnOk result
        (string_bytes out.new ≡ string_bytes out.old ++ (name.now ++ decimal fact ++ codes "]")) }
{
    push_text(out, name)?;
    push_number(out, u64::from(fact))?;
    push_text(out, "]")
}

fn push_cell(out: &mut String, row: u32, column: u32) -> Result<(), AllocError>
    ensures { OnOk result
        (string_bytes out.new ≡ string_bytes out.old
        ++ (decimal row ++ codes "," ++ decimal column ++ codes "]")) }
{
    push_number(out, u64::from(row))?;
    push_text(out, ",")?;
    push_number(out, u64::from(column))?;
    push_text(out, "]")
}

#[tactic(auto, unfolding(crate::specs::StepText::edge_text))]
fn push_edge(out: &mut String, edge: SumEdge) -> Result<(), AllocError>
    ensures { OnOk result (string_bytes out.new ≡ string_bytes out.old ++ edge_text edge) }
{
    match edge {
        SumEdge::Fact(fact) => push_fact(out, "[0,", fact),
        SumEdge::Low { row, column } => {
            push_text(out, "[1,")?;
            push_cell(out, row, column)
        }
        SumEdge::High { row, column } => {
            push_text(out, "[2,")?;
            push_cell(out, row, column)
        }
        SumEdge::Same { fact, column } => {
            push_text(out, "[3,")?;
            push_cell(out, fact, column)
        }
        SumEdge::Back { fact, column } => {
            push_text(out, "[4,")?;
            push_cell(out, fact, column)
        }
    }
}

fn push_more_edges(out: &mut String, edges: &[SumEdge]) -> Result<(), AllocError>
    ensures { OnOk result
        (string_bytes out.new ≡ string_bytes out.old
        ++ texts (λ e. codes "," ++ edge_text e) edges.now) }
{
    for edge in edges {
        push_text(out, ",")?;
        push_edge(out, *edge)?;
    }
    Ok(())
}

fn push_edges(out: &mut String, edges: &[SumEdge]) -> Result<(), AllocError>
    ensures { OnOk result
        (string_bytes out.new ≡ string_bytes out.old ++ joined (codes ",") edge_text edges.now) }
{
    match edges.split_first() {
        Some((first, more)) => {
            push_edge(out, *first)?;
            push_more_edges(out, more)
        }
        None => Ok(()),
    }
}

#[tactic(auto, unfolding(crate::specs::StepText::link_text))]
fn push_link(out: &mut String, edge: TextEdge) -> Result<(), AllocError>
    ensures { OnOk result (string_bytes out.new ≡ string_bytes out.old ++ link_text edge) }
{
    match edge {
        TextEdge::Fact(fact) => push_fact(out, "[0,", fact),
        TextEdge::FactBack(fact) => push_fact(out, "[1,", fact),
        TextEdge::Same { fact, column } => {
            push_text(out, "[2,")?;
            push_cell(out, fact, column)
        }
        TextEdge::Back { fact, column } => {
            push_text(out, "[3,")?;
            push_cell(out, fact, column)
        }
    }
}

fn push_more_links(out: &mut String, edges: &[TextEdge]) -> Result<(), AllocError>
    ensures { OnOk result
        (string_bytes out.new ≡ string_bytes out.old
        ++ texts (λ e. codes "," ++ link_text e) edges.now) }
{
    for edge in edges {
        push_text(out, ",")?;
        push_link(out, *edge)?;
    }
    Ok(())
}

#[tactic(auto, unfolding(crate::specs::StepText::chain_text))]
fn push_chain(out: &mut String, edges: &[TextEdge]) -> Result<(), AllocError>
    ensures { OnOk result (string_bytes out.new ≡ string_bytes out.old ++ chain_text edges.now) }
{
    push_text(out, "[")?;
    if let Some((first, more)) = edges.split_first() {
        push_link(out, *first)?;
        push_more_links(out, more)?;
    }
    push_text(out, "]")
}

#[tactic(auto, unfolding(crate::specs::StepText::part_text))]
fn push_part(out: &mut String, part: SameEdge) -> Result<(), AllocError>
    ensures { OnOk result (string_bytes out.new ≡ string_bytes out.old ++ part_text part) }
{
    if part.back {
        push_fact(out, "[1,", part.fact)
    } else {
        push_fact(out, "[0,", part.fact)
    }
}

fn push_more_parts(out: &mut String, parts: &[SameEdge]) -> Result<(), AllocError>
    ensures { OnOk result
        (string_bytes out.new ≡ string_bytes out.old
        ++ texts (λ e. codes "," ++ part_text e) parts.now) }
{
    for part in parts {
        push_text(out, ",")?;
        push_part(out, *part)?;
    }
    Ok(())
}

#[tactic(auto, unfolding(crate::specs::StepText::path_text))]
fn push_path(out: &mut String, parts: &[SameEdge]) -> Result<(), AllocError>
    ensures { OnOk result (string_bytes out.new ≡ string_bytes out.old ++ path_text parts.now) }
{
    push_text(out, "[")?;
    if let Some((first, more)) = parts.split_first() {
        push_part(out, *first)?;
        push_more_parts(out, more)?;
    }
    push_text(out, "]")
}

#[tactic(auto, unfolding(crate::specs::StepText::last_text))]
fn push_last(out: &mut String, last: Option<u32>) -> Result<(), AllocError>
    ensures { OnOk result (string_bytes out.new ≡ string_bytes out.old ++ last_text last) }
{
    match last {
        None => push_text(out, "null"),
        Some(fact) => push_number(out, u64::from(fact)),
    }
}

#[tactic(auto, unfolding(crate::specs::StepText::step_text))]
fn push_text_step(out: &mut String, last: Option<u32>, edges: &[TextEdge]) -> Result<(), AllocError>
    ensures { OnOk result
        (string_bytes out.new ≡ string_bytes out.old ++ step_text (variant.Text last edges.now)) }
{
    push_text(out, "[\"text\",")?;
    push_last(out, last)?;
    push_text(out, ",")?;
    push_chain(out, edges)?;
    push_text(out, "]")
}

#[tactic(auto, unfolding(crate::specs::StepText::step_text))]
fn push_null_step(
    out: &mut String,
    fact: u32,
    other: u32,
    path: &[SameEdge],
) -> Result<(), AllocError>
    ensures { OnOk result
        (string_bytes out.new ≡ string_bytes out.old
        ++ step_text (variant.Null fact other path.now)) }
{
    push_text(out, "[\"null\",")?;
    push_number(out, u64::from(fact))?;
    push_text(out, ",")?;
    push_number(out, u64::from(other))?;
    push_text(out, ",")?;
    push_path(out, path)?;
    push_text(out, "]")
}

#[tactic(auto, unfolding(crate::specs::StepText::step_text))]
fn push_same_step(out: &mut String, fact: u32, path: &[SameEdge]) -> Result<(), AllocError>
    ensures { OnOk result
        (string_bytes out.new ≡ string_bytes out.old ++ step_text (variant.Same fact path.now)) }
{
    push_text(out, "[\"same\",")?;
    push_number(out, u64::from(fact))?;
    push_text(out, ",")?;
    push_path(out, path)?;
    push_text(out, "]")
}

#[tactic(auto, unfolding(crate::specs::StepText::step_text))]
fn push_step(out: &mut String, step: &Step) -> Result<(), AllocError>
    ensures { OnOk result (string_bytes out.new ≡ string_bytes out.old ++ step_text step.now) }
{
    match step {
        Step::And { fact } => push_fact(out, "[\"and\",", *fact),
        Step::Or { fact } => push_fact(out, "[\"or\",", *fact),
        Step::Ex { fact } => push_fact(out, "[\"ex\",", *fact),
        Step::All { fact, row } => {
            push_text(out, "[\"all\",")?;
            push_cell(out, *fact, *row)
        }
        Step::Sum { edges } => {
            push_text(out, "[\"sum\",[")?;
            push_edges(out, edges.as_slice())?;
            push_text(out, "]]")
        }
        Step::Text { last, edges } => push_text_step(out, *last, edges.as_slice()),
        Step::Null { fact, other, path } => { push_null_step(out, *fact, *other, path.as_slice()) }
        Step::Same { fact, path } => push_same_step(out, *fact, path.as_slice()),
    }
}

fn push_more_steps(out: &mut String, steps: &[Step]) -> Result<(), AllocError>
    ensures { OnOk result
        (string_bytes out.new ≡ string_bytes out.old
        ++ texts (λ s. codes "," ++ step_text s) steps.now) }
{
    for step in steps {
        push_text(out, ",")?;
        push_step(out, step)?;
    }
    Ok(())
}

#[tactic(auto, unfolding(crate::specs::StepText::steps_text))]
pub(crate) fn push_steps(out: &mut String, steps: &[Step]) -> Result<(), AllocError>
    ensures { OnOk result (string_bytes out.new ≡ string_bytes out.old ++ steps_text steps.now) }
{
    push_text(out, "[")?;
    if let Some((first, more)) = steps.split_first() {
        push_step(out, first)?;
        push_more_steps(out, more)?;
    }
    push_text(out, "]")
}
