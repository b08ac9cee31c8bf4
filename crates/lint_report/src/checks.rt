//! The lines of a check, as `specs/Text.antt` says them.
ghost use Rattle.std.specs.Prelude.{◌≡◌, ◌++◌, IfOk, OnOk, codes, string_bytes};
ghost use Rattle.std.specs.Fmt.{decimal};
ghost use Rattle.lint_report.specs.Text.{checked_text, check_line, check_lines, checks_text};

use crate::pushing::{push_numbered, push_text};
use lint_base::NoMemory;
use lint_core::{CheckRun, Checked};
use std::alloc::{AllocError, Global};

#[tactic(auto, unfolding(crate::specs::Text::checked_text))]
fn push_checked(out: &mut String, checked: Checked) -> Result<(), AllocError>
    ensures { OnOk result (string_bytes out.new ≡ string_bytes out.old ++ checked_text checked) }
{
    match checked {
        Checked::Accepted => push_text(out, "accepted"),
        Checked::Refused { step } => push_numbered(out, "refused at step ", step),
        Checked::Needs { question } => push_numbered(out, "needs question ", u64::from(question)),
    }
}

#[tactic(auto, unfolding(crate::specs::Text::check_line))]
fn push_check(out: &mut String, number: u64, check: CheckRun) -> Result<(), AllocError>
    ensures { OnOk result (string_bytes out.new ≡ string_bytes out.old ++ check_line number check) }
{
    push_numbered(out, "cert ", number)?;
    push_numbered(out, " query ", u64::from(check.query))?;
    push_numbered(out, " question ", u64::from(check.question))?;
    push_text(out, ": ")?;
    push_checked(out, check.checked)?;
    push_text(out, "\n")
}

fn push_checks(out: &mut String, checks: &[CheckRun]) -> Result<(), AllocError>
    ensures { OnOk result
        (string_bytes out.new ≡ string_bytes out.old ++ checks_text checks.now) }
{
    let mut number = 1;
    for check in checks {
        push_check(out, number, *check)?;
        number += 1;
    }
    Ok(())
}

/// The lines of a check, one for each certificate, which are numbered from 1 as they stand in their
/// list: what it names, and what its check comes to. `NoMemory` where there is no memory for them.
pub fn checks_text(alloc: Global, checks: &[CheckRun]) -> Result<Vec<u8>, NoMemory>
    ensures { IfOk result (λ bytes. bytes.items ≡ checks_text checks.now) }
{
    let mut out = String::new(alloc);
    push_checks(&mut out, checks)?;
    Ok(out.into_bytes())
}
