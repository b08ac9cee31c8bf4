//! The edges of steps: lists of a kind and one number or two.
ghost use Rattle.std.specs.Prelude.{◌≡◌};
ghost use Rattle.serde_json.specs.View.{view, items_view};
ghost use Rattle.cert_format.specs.Forms.{sum_edge_form, text_edge_form, same_edge_form};
ghost use Rattle.cert_format.specs.Fitting.{sum_edge_fits, text_edge_fits, same_edge_fits};
ghost use Rattle.cert_format.specs.inner.Found.{edge_items, edge_found, sum_edge_of, text_edge_of, same_edge_of, sum_edge_found, text_edge_found, same_edge_found};

use crate::fault::Unread;
use crate::reading::{FromJson, number, shaped};
use crate::writing::{ToJson, push_list};
use lint_core::{SameEdge, SumEdge, TextEdge};
use serde_json::Value as Json;
use std::alloc::{AllocError, Global};

/// The numbers of an edge, its kind first.
#[derive(Clone, Copy)]
pub(crate) enum EdgeNumbers {
    Two(u32, u32),
    Three(u32, u32, u32),
}

impl EdgeNumbers {
    fn of_parts(parts: &[Json]) -> Option<EdgeNumbers>
        ensures { result ≡ edge_items (items_view parts.now) }
    {
        match parts {
            [kind, first] => Some(EdgeNumbers::Two(number(kind)?, number(first)?)),
            [kind, first, second] => Some(EdgeNumbers::Three(
                number(kind)?,
                number(first)?,
                number(second)?,
            )),
            _ => None,
        }
    }

    fn of(json: &Json) -> Option<EdgeNumbers>
        ensures { result ≡ edge_found (view json.now) }
    {
        EdgeNumbers::of_parts(json.as_array()?.as_slice())
    }

    fn sum_edge(self) -> Option<SumEdge>
        ensures { result ≡ sum_edge_of self }
    {
        match self {
            EdgeNumbers::Two(0, fact) => Some(SumEdge::Fact(fact)),
            EdgeNumbers::Three(1, row, column) => Some(SumEdge::Low { row, column }),
            EdgeNumbers::Three(2, row, column) => Some(SumEdge::High { row, column }),
            EdgeNumbers::Three(3, fact, column) => Some(SumEdge::Same { fact, column }),
            EdgeNumbers::Three(4, fact, column) => Some(SumEdge::Back { fact, column }),
            _ => None,
        }
    }

    fn text_edge(self) -> Option<TextEdge>
        ensures { result ≡ text_edge_of self }
    {
        match self {
            EdgeNumbers::Two(0, fact) => Some(TextEdge::Fact(fact)),
            EdgeNumbers::Two(1, fact) => Some(TextEdge::FactBack(fact)),
            EdgeNumbers::Three(2, fact, column) => Some(TextEdge::Same { fact, column }),
            EdgeNumbers::Three(3, fact, column) => Some(TextEdge::Back { fact, column }),
            _ => None,
        }
    }

    fn same_edge(self) -> Option<SameEdge>
        ensures { result ≡ same_edge_of self }
    {
        match self {
            EdgeNumbers::Two(0, fact) => Some(SameEdge { fact, back: false }),
            EdgeNumbers::Two(1, fact) => Some(SameEdge { fact, back: true }),
            _ => None,
        }
    }
}

fn sum_edge(json: &Json) -> Option<SumEdge>
    ensures { result ≡ sum_edge_found (view json.now) }
{
    EdgeNumbers::of(json)?.sum_edge()
}

fn text_edge(json: &Json) -> Option<TextEdge>
    ensures { result ≡ text_edge_found (view json.now) }
{
    EdgeNumbers::of(json)?.text_edge()
}

fn same_edge(json: &Json) -> Option<SameEdge>
    ensures { result ≡ same_edge_found (view json.now) }
{
    EdgeNumbers::of(json)?.same_edge()
}

impl FromJson for SumEdge {
    ghost found = { sum_edge_found };

    fn read(_alloc: Global, json: &Json) -> Result<SumEdge, Unread> {
        shaped(sum_edge(json))
    }
}

impl FromJson for TextEdge {
    ghost found = { text_edge_found };

    fn read(_alloc: Global, json: &Json) -> Result<TextEdge, Unread> {
        shaped(text_edge(json))
    }
}

impl FromJson for SameEdge {
    ghost found = { same_edge_found };

    fn read(_alloc: Global, json: &Json) -> Result<SameEdge, Unread> {
        shaped(same_edge(json))
    }
}

impl ToJson for SumEdge {
    ghost form = { sum_edge_form };

    ghost fits = { sum_edge_fits };

    fn push(&self, alloc: Global, out: &mut String) -> Result<(), AllocError> {
        match *self {
            SumEdge::Fact(fact) => push_list(alloc, out, &[0, fact]),
            SumEdge::Low { row, column } => push_list(alloc, out, &[1, row, column]),
            SumEdge::High { row, column } => push_list(alloc, out, &[2, row, column]),
            SumEdge::Same { fact, column } => push_list(alloc, out, &[3, fact, column]),
            SumEdge::Back { fact, column } => push_list(alloc, out, &[4, fact, column]),
        }
    }
}

impl ToJson for TextEdge {
    ghost form = { text_edge_form };

    ghost fits = { text_edge_fits };

    fn push(&self, alloc: Global, out: &mut String) -> Result<(), AllocError> {
        match *self {
            TextEdge::Fact(fact) => push_list(alloc, out, &[0, fact]),
            TextEdge::FactBack(fact) => push_list(alloc, out, &[1, fact]),
            TextEdge::Same { fact, column } => push_list(alloc, out, &[2, fact, column]),
            TextEdge::Back { fact, column } => push_list(alloc, out, &[3, fact, column]),
        }
    }
}

impl ToJson for SameEdge {
    ghost form = { same_edge_form };

    ghost fits = { same_edge_fits };

    fn push(&self, alloc: Global, out: &mut String) -> Result<(), AllocError> {
        push_list(alloc, out, &[u32::from(self.back), self.fact])
    }
}
