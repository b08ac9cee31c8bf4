//! The line of a stop, as `specs/Text.antt` says it.
ghost use Rattle.std.specs.Prelude.{◌≡◌, ◌++◌, IfOk, OnOk, codes, string_bytes};
ghost use Rattle.std.specs.Fmt.{decimal};
ghost use Rattle.lint_report.specs.RefusalText.{refusal_text};
ghost use Rattle.lint_run.specs.Text.{which_text, certs_refused_text, schema_refused_text, stop_text};

use crate::outcome::{Stop, Which};
use cert_format::CertFault;
use lint_base::{NoMemory, Refusal};
use lint_report::push_refusal;
use std::alloc::{AllocError, Global};

fn push_text(out: &mut String, text: &str) -> Result<(), AllocError>
    ensures { OnOk result (string_bytes out.new ≡ string_bytes out.old ++ text.now) }
{
    out.push_str(text)
}

#[tactic(auto, unfolding(crate::specs::Text::which_text))]
fn push_which(out: &mut String, which: Which) -> Result<(), AllocError>
    ensures { OnOk result (string_bytes out.new ≡ string_bytes out.old ++ which_text which) }
{
    match which {
        Which::Schema => push_text(out, "schema"),
        Which::Queries => push_text(out, "queries"),
        Which::Certs => push_text(out, "certs"),
    }
}

fn push_file_stop(out: &mut String, name: &str, which: Which) -> Result<(), AllocError>
    ensures { OnOk result
        (string_bytes out.new ≡ string_bytes out.old
        ++ (name.now ++ which_text which ++ codes "\n")) }
{
    push_text(out, name)?;
    push_which(out, which)?;
    push_text(out, "\n")
}

#[tactic(auto, unfolding(crate::specs::Text::schema_refused_text))]
fn push_schema_refused(out: &mut String, refusal: Refusal) -> Result<(), AllocError>
    ensures { OnOk result
        (string_bytes out.new ≡ string_bytes out.old ++ schema_refused_text refusal) }
{
    push_text(out, "stop SchemaRefused ")?;
    push_refusal(out, refusal)?;
    push_text(out, "\n")
}

fn push_bad_shape(out: &mut String, at: u32) -> Result<(), AllocError>
    ensures { OnOk result
        (string_bytes out.new ≡ string_bytes out.old
        ++ (codes "stop CertsRefused BadShape at " ++ decimal at ++ codes "\n")) }
{
    writeln!(out, "stop CertsRefused BadShape at {at}")
}

#[tactic(auto, unfolding(crate::specs::Text::certs_refused_text))]
fn push_certs_refused(out: &mut String, fault: CertFault) -> Result<(), AllocError>
    ensures { OnOk result
        (string_bytes out.new ≡ string_bytes out.old ++ certs_refused_text fault) }
{
    match fault {
        CertFault::NotJson => push_text(out, "stop CertsRefused NotJson\n"),
        CertFault::BadShape { at } => push_bad_shape(out, at),
        CertFault::NoMemory => Ok(()),
    }
}

#[tactic(auto, unfolding(crate::specs::Text::stop_text))]
fn push_stop(out: &mut String, stop: Stop) -> Result<(), AllocError>
    ensures { OnOk result (string_bytes out.new ≡ string_bytes out.old ++ stop_text stop) }
{
    match stop {
        Stop::WordsRefused => push_text(out, "stop WordsRefused\n"),
        Stop::OpenFault(which) => push_file_stop(out, "stop OpenFault ", which),
        Stop::ReadFault(which) => push_file_stop(out, "stop ReadFault ", which),
        Stop::TooLong(which) => push_file_stop(out, "stop TooLong ", which),
        Stop::SchemaRefused(refusal) => push_schema_refused(out, refusal),
        Stop::CertsRefused(fault) => push_certs_refused(out, fault),
        Stop::WriteFault | Stop::NoMemory => Ok(()),
    }
}

/// The line of a stop, or nothing.
pub fn stop_text(alloc: Global, stop: Stop) -> Result<Vec<u8>, NoMemory>
    ensures { IfOk result (λ bytes. bytes.items ≡ stop_text stop) }
{
    let mut out = String::new(alloc);
    push_stop(&mut out, stop)?;
    Ok(out.into_bytes())
}
