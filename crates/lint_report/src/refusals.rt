//! Places in a file, and refusals, as `specs/RefusalText.antt` says them.
ghost use Rattle.std.specs.Prelude.{◌≡◌, ◌++◌, OnOk, codes, string_bytes};
ghost use Rattle.std.specs.Fmt.{decimal};
ghost use Rattle.lint_report.specs.RefusalText.{span_text, fault_text, count_text, refusal_text};

use crate::pushing::{push_number, push_text};
use lint_base::{Fault, Refusal, Span};
use std::alloc::AllocError;

#[tactic(auto, unfolding(crate::specs::RefusalText::span_text))]
pub(crate) fn push_span(out: &mut String, span: Span) -> Result<(), AllocError>
    ensures { OnOk result (string_bytes out.new ≡ string_bytes out.old ++ span_text span) }
{
    push_number(out, u64::from(span.from))?;
    push_text(out, "..")?;
    push_number(out, u64::from(span.to))
}

#[tactic(auto, unfolding(crate::specs::RefusalText::fault_text))]
fn push_fault(out: &mut String, fault: Fault) -> Result<(), AllocError>
    ensures { OnOk result (string_bytes out.new ≡ string_bytes out.old ++ fault_text fault) }
{
    match fault {
        Fault::BadByte => push_text(out, "1 BadByte"),
        Fault::OpenQuote => push_text(out, "2 OpenQuote"),
        Fault::BigNumber => push_text(out, "3 BigNumber"),
        Fault::Long => push_text(out, "11 Long"),
        Fault::Deep => push_text(out, "12 Deep"),
        Fault::Syntax => push_text(out, "13 Syntax"),
        Fault::UnknownTable => push_text(out, "21 UnknownTable"),
        Fault::UnknownColumn => push_text(out, "22 UnknownColumn"),
        Fault::AmbiguousColumn => push_text(out, "23 AmbiguousColumn"),
        Fault::DuplicateName => push_text(out, "24 DuplicateName"),
        Fault::TypeMismatch => push_text(out, "25 TypeMismatch"),
        Fault::NotAKey => push_text(out, "26 NotAKey"),
        Fault::TooMany => push_text(out, "27 TooMany"),
        Fault::OneColumnNeeded => push_text(out, "28 OneColumnNeeded"),
        Fault::BadLength => push_text(out, "29 BadLength"),
    }
}

fn push_count(out: &mut String, refusal: Refusal) -> Result<(), AllocError>
    ensures { OnOk result (string_bytes out.new ≡ string_bytes out.old ++ count_text refusal) }
{
    match refusal.fault {
        Fault::Long | Fault::TooMany => {
            push_text(out, " count ")?;
            push_number(out, u64::from(refusal.count))
        }
        _ => Ok(()),
    }
}

/// Adds the number and the name of the fault, its place, and its count, if it has one.
#[tactic(auto, unfolding(crate::specs::RefusalText::refusal_text))]
pub fn push_refusal(out: &mut String, refusal: Refusal) -> Result<(), AllocError>
    ensures { OnOk result (string_bytes out.new ≡ string_bytes out.old ++ refusal_text refusal) }
{
    push_fault(out, refusal.fault)?;
    push_text(out, " at ")?;
    push_span(out, refusal.span)?;
    push_count(out, refusal)
}
