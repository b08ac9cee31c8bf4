//! How parts of certificates are written.
ghost use Rattle.std.specs.Prelude.{◌≡◌, ◌++◌, ◌∷◌, [], Bool, true, map, OnOk, string_bytes, ◌&&◌};
ghost use Rattle.std.specs.List.{list_all};
ghost use Rattle.serde_json.specs.Data.{Data, string};
ghost use Rattle.serde_json.specs.Written.{compact_text, comma_if};
ghost use Rattle.cert_format.specs.Forms.{whole, list, last_form};
ghost use Rattle.cert_format.specs.Fitting.{is_small, last_fits};
ghost use Rattle.cert_format.specs.inner.Found.{name_text};

use crate::name::Name;
use lint_base::Items;
use std::alloc::{AllocError, Global};

/// What has a JSON value of its own in a file of certificates.
pub(crate) trait ToJson {
    ghost form: { Self → Data };

    ghost fits: { Self → Bool };

    /// Puts the JSON text behind what stands in a text.
    fn push(&self, alloc: Global, out: &mut String) -> Result<(), AllocError>
        ensures text { OnOk result
            (string_bytes out.new ≡ string_bytes out.old ++ compact_text (form self.now)) }
        ensures in_range { OnOk result (fits self.now ≡ true) };
}

impl ToJson for u32 {
    ghost form = { whole };

    ghost fits = { is_small };

    fn push(&self, _alloc: Global, out: &mut String) -> Result<(), AllocError> {
        let number = *self;
        write!(out, "{number}")
    }
}

impl ToJson for Option<u32> {
    ghost form = { last_form };

    ghost fits = { last_fits };

    fn push(&self, alloc: Global, out: &mut String) -> Result<(), AllocError> {
        match self {
            None => out.push_str("null"),
            Some(number) => number.push(alloc, out),
        }
    }
}

impl<T: ToJson> ToJson for &T {
    ghost form = { λ part. T.form part.now };

    ghost fits = { λ part. T.fits part.now };

    fn push(&self, alloc: Global, out: &mut String) -> Result<(), AllocError> {
        T::push(*self, alloc, out)
    }
}

impl<T: ToJson> ToJson for Items<T> {
    ghost form = { λ parts. list (map T.form parts) };

    ghost fits = { list_all T.fits };

    fn push(&self, alloc: Global, out: &mut String) -> Result<(), AllocError> {
        push_list(alloc, out, self.as_slice())
    }
}

fn push_comma(out: &mut String, later: bool) -> Result<(), AllocError>
    ensures { OnOk result (string_bytes out.new ≡ string_bytes out.old ++ comma_if later) }
{
    if later { out.push_str(",") } else { Ok(()) }
}

/// Puts the JSON text of a list behind what stands in a text.
pub(crate) fn push_list<T: ToJson>(
    alloc: Global,
    out: &mut String,
    parts: &[T],
) -> Result<(), AllocError>
    ensures text { OnOk result (string_bytes out.new
        ≡ string_bytes out.old ++ compact_text (list (map T.form parts.now))) }
    ensures in_range { OnOk result (list_all T.fits parts.now ≡ true) }
{
    out.push_str("[")?;
    let mut later = false;
    for part in parts {
        push_comma(out, later)?;
        part.push(alloc, out)?;
        later = true;
    }
    out.push_str("]")
}

/// Puts the JSON text of a part behind a text of its own.
pub(crate) fn push_behind<T: ToJson>(
    alloc: Global,
    out: &mut String,
    text: &str,
    part: &T,
) -> Result<(), AllocError>
    ensures text { OnOk result (string_bytes out.new
        ≡ string_bytes out.old ++ (text.now ++ compact_text (T.form part.now))) }
    ensures in_range { OnOk result (T.fits part.now ≡ true) }
{
    out.push_str(text)?;
    part.push(alloc, out)
}

/// Puts the JSON text of a list behind what stands in a text: a name and one part.
pub(crate) fn push_one<A: ToJson>(
    alloc: Global,
    out: &mut String,
    name: Name,
    first: &A,
) -> Result<(), AllocError>
    ensures text { OnOk result (string_bytes out.new ≡ string_bytes out.old
        ++ compact_text (list (string (name_text name) ∷ A.form first.now ∷ []))) }
    ensures in_range { OnOk result (A.fits first.now ≡ true) }
{
    name.push(out)?;
    push_behind(alloc, out, ",", first)?;
    out.push_str("]")
}

/// Puts the JSON text of a list behind what stands in a text: a name and two parts.
pub(crate) fn push_two<A: ToJson, B: ToJson>(
    alloc: Global,
    out: &mut String,
    name: Name,
    first: &A,
    second: &B,
) -> Result<(), AllocError>
    ensures text { OnOk result (string_bytes out.new ≡ string_bytes out.old
        ++ compact_text (list (string (name_text name)
        ∷ A.form first.now ∷ B.form second.now ∷ []))) }
    ensures in_range { OnOk result ((A.fits first.now && B.fits second.now) ≡ true) }
{
    name.push(out)?;
    push_behind(alloc, out, ",", first)?;
    push_behind(alloc, out, ",", second)?;
    out.push_str("]")
}

/// Puts the JSON text of a list behind what stands in a text: a name and three parts.
pub(crate) fn push_three<A: ToJson, B: ToJson, C: ToJson>(
    alloc: Global,
    out: &mut String,
    name: Name,
    first: &A,
    second: &B,
    third: &C,
) -> Result<(), AllocError>
    ensures text { OnOk result (string_bytes out.new ≡ string_bytes out.old
        ++ compact_text (list (string (name_text name)
        ∷ A.form first.now ∷ B.form second.now ∷ C.form third.now ∷ []))) }
    ensures in_range { OnOk result
        ((A.fits first.now && (B.fits second.now && C.fits third.now)) ≡ true) }
{
    name.push(out)?;
    push_behind(alloc, out, ",", first)?;
    push_behind(alloc, out, ",", second)?;
    push_behind(alloc, out, ",", third)?;
    out.push_str("]")
}
