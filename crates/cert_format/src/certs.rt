//! Certificates, as values of JSON.
ghost use Rattle.std.specs.Prelude.{◌≡◌, ◌++◌, true, IfOk, OnOk, option_map, option_and_then, string_bytes};
ghost use Rattle.std.specs.Fmt.{signed_decimal};
ghost use Rattle.std.specs.Str.{chars, is_utf8};
ghost use Rattle.json.specs.Print.{quoted};
ghost use Rattle.lint_core.specs.declared.database.Value.TheVariants as value;
ghost use Rattle.serde_json.specs.Find.{as_object};
ghost use Rattle.serde_json.specs.View.{view, members_view};
ghost use Rattle.cert_format.specs.Forms.{value_form, cert_form};
ghost use Rattle.cert_format.specs.Fitting.{value_fits, cert_fits};
ghost use Rattle.cert_format.specs.inner.Gives.{Gives};
ghost use Rattle.cert_format.specs.inner.Found.{integer_found, value_found, count_found, named, cert_members, cert_parts, cert_found};

use crate::fault::Unread;
use crate::reading::{FromJson, number, shaped};
use crate::writing::{ToJson, push_behind};
use lint_base::{Items, NoMemory, Str};
use lint_core::{Cert, Value};
use serde_json::Value as Json;
use std::alloc::{AllocError, Global};
use std::collections::btree_map::Iter;

fn push_text(alloc: Global, out: &mut String, text: &str) -> Result<(), AllocError>
    ensures { OnOk result (string_bytes out.new ≡ string_bytes out.old ++ quoted text.now) }
{
    let text = Json::try_from_str(alloc, text)?.to_string(alloc)?;
    out.push_str(text.as_str())
}

fn push_integer(out: &mut String, number: i64) -> Result<(), AllocError>
    ensures text { OnOk result
        (string_bytes out.new ≡ string_bytes out.old ++ signed_decimal number) }
    ensures in_range { value_fits (value.Int number) ≡ true }
{
    write!(out, "{number}")
}

impl ToJson for Value {
    ghost form = { value_form };

    ghost fits = { value_fits };

    fn push(&self, alloc: Global, out: &mut String) -> Result<(), AllocError> {
        match self {
            Value::Null => out.push_str("null"),
            Value::Int(number) => push_integer(out, *number),
            Value::Text(text) => push_text(alloc, out, text.as_str()),
        }
    }
}

impl ToJson for Cert {
    ghost form = { cert_form };

    ghost fits = { cert_fits };

    #[tactic(auto, unfolding(json::specs::Print::escape_byte))]
    fn push(&self, alloc: Global, out: &mut String) -> Result<(), AllocError> {
        push_behind(alloc, out, "{\"query\":", &self.query)?;
        push_behind(alloc, out, ",\"question\":", &self.question)?;
        push_behind(alloc, out, ",\"steps\":", &self.steps)?;
        push_behind(alloc, out, ",\"value\":", &self.value)?;
        out.push_str("}")
    }
}

/// The whole number, where it has 64 bits.
fn integer(json: &Json) -> Option<Value>
    ensures { result ≡ integer_found (view json.now) }
{
    match json.as_u64() {
        Some(number) => i64::try_from(number).ok().map(Value::Int),
        None => match json.as_i64() {
            Some(number) if number < 0 => Some(Value::Int(number)),
            _ => None,
        },
    }
}

fn read_text(alloc: Global, text: &str) -> Result<Value, NoMemory>
    ensures utf8 { is_utf8 text.now ≡ true }
    ensures text { IfOk result (λ v. v ≡ value.Text (chars text.now)) }
{
    Ok(Value::Text(Str::from_str(alloc, text)?))
}

impl FromJson for Value {
    ghost found = { value_found };

    fn read(alloc: Global, json: &Json) -> Result<Value, Unread> {
        if json.is_null() {
            return Ok(Value::Null);
        }
        match json.as_str() {
            Some(text) => Ok(read_text(alloc, text)?),
            None => shaped(integer(json)),
        }
    }
}

/// A number from 1.
fn count(json: &Json) -> Option<u32>
    ensures { result ≡ count_found (view json.now) }
{
    number(json).filter(|number| *number > 0)
}

/// The value of the next member, where this is its key.
pub(crate) fn named<'v>(members: &mut Iter<'v, String, Json>, key: &str) -> Option<&'v Json>
    ensures { option_map (λ v. (view v.now, members_view members.new)) result
        ≡ named key.now (members_view members.old) }
{
    match members.next() {
        Some((name, json)) if name.as_str() == key => Some(json),
        _ => None,
    }
}

/// The values of a certificate's members.
#[derive(Clone, Copy)]
struct Parts<'v> {
    query: &'v Json,
    question: &'v Json,
    steps: &'v Json,
    value: &'v Json,
}

fn parts_of(json: &Json) -> Option<Parts<'_>>
    ensures { option_map (λ p.
        (view p.query.now, view p.question.now, view p.steps.now, view p.value.now)) result
        ≡ option_and_then cert_members (as_object (view json.now)) }
{
    let mut members = json.as_object()?.iter();
    let query = named(&mut members, "query")?;
    let question = named(&mut members, "question")?;
    let steps = named(&mut members, "steps")?;
    let value = named(&mut members, "value")?;
    match members.next() {
        None => Some(Parts {
            query,
            question,
            steps,
            value,
        }),
        Some(_) => None,
    }
}

fn read_parts(alloc: Global, parts: &Parts<'_>) -> Result<Cert, Unread>
    ensures { Gives (cert_parts (
      view parts.now.query.now,
      view parts.now.question.now,
      view parts.now.steps.now,
      view parts.now.value.now,
    )) result }
{
    Ok(Cert {
        query: shaped(count(parts.query))?,
        question: shaped(count(parts.question))?,
        steps: Items::read(alloc, parts.steps)?,
        value: Value::read(alloc, parts.value)?,
    })
}

impl FromJson for Cert {
    ghost found = { cert_found };

    fn read(alloc: Global, json: &Json) -> Result<Cert, Unread> {
        match parts_of(json) {
            Some(parts) => read_parts(alloc, &parts),
            None => Err(Unread::Shape),
        }
    }
}
