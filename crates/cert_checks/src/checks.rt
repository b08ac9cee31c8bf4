//! The check of each certificate of a file.
ghost use Rattle.std.specs.Prelude.{◌≡◌, map, IfOk};
ghost use Rattle.cert_checks.specs.Named.{AreRead};
ghost use Rattle.cert_checks.specs.Checks.{checks_of};
ghost use Rattle.cert_checks.specs.inner.Alone.{at_number, if_below, line_by};

use crate::alone::{check_each, lacking_of};
use constraint_axioms::axioms;
use formula_laws::wrong_steps_are_numbered;
use lint_base::{Items, NoMemory};
use lint_core::{Cert, CheckRun, Checked, QueryRun, Schema};
use std::alloc::Global;

/// The first E9 of the line's query that lacks a certificate, where it stands before the question.
fn earlier_lacking(line: &CheckRun, lacking: &[Option<usize>]) -> Option<u32>
    ensures { result ≡ if_below line.now.question (at_number lacking.now line.now.query) }
{
    let place = line.query.checked_sub(1)?;
    let number = (*lacking.get(place as usize)?)?;
    if number < line.question as usize {
        Some(number as u32)
    } else {
        None
    }
}

/// The line of a certificate, by what it comes to by itself.
fn line(found: &CheckRun, lacking: &[Option<usize>]) -> CheckRun
    ensures { result ≡ line_by lacking.now found.now }
{
    let checked = match (found.checked, earlier_lacking(found, lacking)) {
        (Checked::Accepted, Some(question)) => Checked::Needs { question },
        (checked, _) => checked,
    };
    CheckRun { checked, ..*found }
}

fn lines(
    alloc: Global,
    found: &[CheckRun],
    lacking: &[Option<usize>],
) -> Result<Items<CheckRun>, NoMemory>
    ensures { IfOk result (λ lines. lines ≡ map (line_by lacking.now) found.now) }
{
    let mut lines = Items::new(alloc);
    for one in found {
        lines.push(line(one, lacking))?;
    }
    Ok(lines)
}

/// Checks each certificate of a file by the checker alone: one line for each, in order.
///
/// A certificate is refused at step 0 where its numbers name no question of a read query, and at
/// the first wrong, missing or left-over step where its steps are not accepted. It needs the first
/// earlier E9 of its query of which no certificate of the file, wherever it stands, has accepted
/// steps; without one it is accepted. `NoMemory` where memory runs out.
pub fn check_all(
    alloc: Global,
    schema: &Schema,
    queries: &[QueryRun],
    certs: &[Cert],
) -> Result<Items<CheckRun>, NoMemory>
    requires read { AreRead schema.now queries.now }
    ensures { IfOk result (λ lines. lines ≡ checks_of schema.now queries.now certs.now) }
{
    wrong_steps_are_numbered();
    let axioms = axioms(alloc, schema)?;
    let found = check_each(alloc, schema, &axioms, queries, certs)?;
    let lacking = lacking_of(alloc, queries, &found)?;
    lines(alloc, &found, &lacking)
}
