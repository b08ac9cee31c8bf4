//! The steps of a certificate: lists of a name and parts.
ghost use Rattle.std.specs.Prelude.{◌≡◌};
ghost use Rattle.serde_json.specs.View.{items_view};
ghost use Rattle.cert_format.specs.Forms.{step_form};
ghost use Rattle.cert_format.specs.Fitting.{step_fits};
ghost use Rattle.cert_format.specs.inner.Gives.{Gives};
ghost use Rattle.cert_format.specs.inner.Found.{parts_found, step_items, step_found};

use crate::fault::Unread;
use crate::name::Name;
use crate::reading::{FromJson, one, three, two};
use crate::writing::{ToJson, push_one, push_three, push_two};
use lint_core::Step;
use serde_json::Value as Json;
use std::alloc::{AllocError, Global};

impl ToJson for Step {
    ghost form = { step_form };

    ghost fits = { step_fits };

    fn push(&self, alloc: Global, out: &mut String) -> Result<(), AllocError> {
        match self {
            Step::And { fact } => push_one(alloc, out, Name::And, fact),
            Step::Or { fact } => push_one(alloc, out, Name::Or, fact),
            Step::Ex { fact } => push_one(alloc, out, Name::Ex, fact),
            Step::All { fact, row } => push_two(alloc, out, Name::All, fact, row),
            Step::Sum { edges } => push_one(alloc, out, Name::Sum, edges),
            Step::Text { last, edges } => push_two(alloc, out, Name::Text, last, edges),
            Step::Null { fact, other, path } => {
                push_three(alloc, out, Name::Null, fact, other, path)
            }
            Step::Same { fact, path } => push_two(alloc, out, Name::Same, fact, path),
        }
    }
}

impl FromJson for Step {
    ghost found = { step_found };

    fn read(alloc: Global, json: &Json) -> Result<Step, Unread> {
        match json.as_array() {
            Some(items) => read_step(alloc, items.as_slice()),
            None => Err(Unread::Shape),
        }
    }
}

fn read_step(alloc: Global, items: &[Json]) -> Result<Step, Unread>
    ensures { Gives (step_items (items_view items.now)) result }
{
    match items {
        [name, parts @ ..] => match name.as_str().and_then(Name::of) {
            Some(name) => read_parts(alloc, name, parts),
            None => Err(Unread::Shape),
        },
        _ => Err(Unread::Shape),
    }
}

fn read_all_step(alloc: Global, parts: &[Json]) -> Result<Step, Unread>
    ensures { Gives (parts_found Name.All (items_view parts.now)) result }
{
    let (fact, row) = two(alloc, parts)?;
    Ok(Step::All { fact, row })
}

fn read_text_step(alloc: Global, parts: &[Json]) -> Result<Step, Unread>
    ensures { Gives (parts_found Name.Text (items_view parts.now)) result }
{
    let (last, edges) = two(alloc, parts)?;
    Ok(Step::Text { last, edges })
}

fn read_null_step(alloc: Global, parts: &[Json]) -> Result<Step, Unread>
    ensures { Gives (parts_found Name.Null (items_view parts.now)) result }
{
    let (fact, other, path) = three(alloc, parts)?;
    Ok(Step::Null { fact, other, path })
}

fn read_same_step(alloc: Global, parts: &[Json]) -> Result<Step, Unread>
    ensures { Gives (parts_found Name.Same (items_view parts.now)) result }
{
    let (fact, path) = two(alloc, parts)?;
    Ok(Step::Same { fact, path })
}

/// The step of this name and these parts.
fn read_parts(alloc: Global, name: Name, parts: &[Json]) -> Result<Step, Unread>
    ensures { Gives (parts_found name (items_view parts.now)) result }
{
    match name {
        Name::And => Ok(Step::And {
            fact: one(alloc, parts)?,
        }),
        Name::Or => Ok(Step::Or {
            fact: one(alloc, parts)?,
        }),
        Name::Ex => Ok(Step::Ex {
            fact: one(alloc, parts)?,
        }),
        Name::All => read_all_step(alloc, parts),
        Name::Sum => Ok(Step::Sum {
            edges: one(alloc, parts)?,
        }),
        Name::Text => read_text_step(alloc, parts),
        Name::Null => read_null_step(alloc, parts),
        Name::Same => read_same_step(alloc, parts),
    }
}
