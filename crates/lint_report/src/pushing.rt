//! Texts and numbers, added to a text.
ghost use Rattle.std.specs.Prelude.{◌≡◌, ◌++◌, OnOk, string_bytes};
ghost use Rattle.std.specs.Fmt.{decimal};

use std::alloc::AllocError;

pub(crate) fn push_text(out: &mut String, text: &str) -> Result<(), AllocError>
    ensures { OnOk result (string_bytes out.new ≡ string_bytes out.old ++ text.now) }
{
    out.push_str(text)
}

pub(crate) fn push_number(out: &mut String, number: u64) -> Result<(), AllocError>
    ensures { OnOk result (string_bytes out.new ≡ string_bytes out.old ++ decimal number) }
{
    write!(out, "{number}")
}

pub(crate) fn push_numbered(out: &mut String, text: &str, number: u64) -> Result<(), AllocError>
    ensures { OnOk result
        (string_bytes out.new ≡ string_bytes out.old ++ (text.now ++ decimal number)) }
{
    push_text(out, text)?;
    push_number(out, number)
}
