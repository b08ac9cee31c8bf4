//! How parts of certificates are read.
ghost use Rattle.std.specs.Prelude.{◌≡◌, Option};
ghost use Rattle.serde_json.specs.Data.{Data};
ghost use Rattle.serde_json.specs.View.{view, items_view};
ghost use Rattle.cert_format.specs.inner.Gives.{Gives};
ghost use Rattle.cert_format.specs.inner.Found.{number_found, last_found, all_found, list_found, one_found, two_found, three_found};

use crate::fault::Unread;
use lint_base::Items;
use serde_json::Value as Json;
use std::alloc::Global;

/// What has a JSON value of its own in a file of certificates.
pub(crate) trait FromJson: Drop {
    ghost found: { Data → Option Self };

    /// What a JSON value is the value of. `Shape` where it is that of none.
    fn read(alloc: Global, json: &Json) -> Result<Self, Unread>
        ensures { Gives (found (view json.now)) result };
}

/// The number, where it is whole and at most 4,294,967,295.
pub(crate) fn number(json: &Json) -> Option<u32>
    ensures { result ≡ number_found (view json.now) }
{
    u32::try_from(json.as_u64()?).ok()
}

/// What is there, and else that the form is another one.
pub(crate) fn shaped<T: Drop>(found: Option<T>) -> Result<T, Unread>
    ensures { Gives found result }
{
    match found {
        Some(found) => Ok(found),
        None => Err(Unread::Shape),
    }
}

impl FromJson for u32 {
    ghost found = { number_found };

    fn read(_alloc: Global, json: &Json) -> Result<u32, Unread> {
        shaped(number(json))
    }
}

impl FromJson for Option<u32> {
    ghost found = { last_found };

    fn read(alloc: Global, json: &Json) -> Result<Option<u32>, Unread> {
        if json.is_null() {
            return Ok(None);
        }
        Ok(Some(u32::read(alloc, json)?))
    }
}

impl<T: FromJson> FromJson for Items<T> {
    ghost found = { list_found T.found };

    fn read(alloc: Global, json: &Json) -> Result<Items<T>, Unread> {
        match json.as_array() {
            Some(parts) => read_all(alloc, parts.as_slice()),
            None => Err(Unread::Shape),
        }
    }
}

fn read_all<T: FromJson>(alloc: Global, parts: &[Json]) -> Result<Items<T>, Unread>
    ensures { Gives (all_found T.found (items_view parts.now)) result }
{
    let mut found = Items::new(alloc);
    for part in parts {
        found.push(T::read(alloc, part)?)?;
    }
    Ok(found)
}

/// One part.
pub(crate) fn one<A: FromJson>(alloc: Global, parts: &[Json]) -> Result<A, Unread>
    ensures { Gives (one_found A.found (items_view parts.now)) result }
{
    match parts {
        [first] => A::read(alloc, first),
        [_, _, ..] => Err(Unread::Shape),
        _ => Err(Unread::Shape),
    }
}

/// Two parts.
pub(crate) fn two<A: FromJson, B: FromJson>(alloc: Global, parts: &[Json]) -> Result<(A, B), Unread>
    ensures { Gives (two_found A.found B.found (items_view parts.now)) result }
{
    match parts {
        [first, second] => Ok((A::read(alloc, first)?, B::read(alloc, second)?)),
        [_, _, _, ..] => Err(Unread::Shape),
        _ => Err(Unread::Shape),
    }
}

/// Three parts.
pub(crate) fn three<A: FromJson, B: FromJson, C: FromJson>(
    alloc: Global,
    parts: &[Json],
) -> Result<(A, B, C), Unread>
    ensures { Gives (three_found A.found B.found C.found (items_view parts.now)) result }
{
    match parts {
        [first, second, third] => Ok((
            A::read(alloc, first)?,
            B::read(alloc, second)?,
            C::read(alloc, third)?,
        )),
        [_, _, _, _, ..] => Err(Unread::Shape),
        _ => Err(Unread::Shape),
    }
}
