//! What each certificate comes to by itself, and which questions have an accepted one.
ghost use Rattle.std.specs.Prelude.{◌≡◌, ◌&&◌, nat_eq, map, IfOk};
ghost use Rattle.constraint_axioms.specs.Spoken.{spoken};
ghost use Rattle.sort_formula.specs.Axioms.{axioms as constraints};
ghost use Rattle.cert_checks.specs.Named.{AreRead};
ghost use Rattle.cert_checks.specs.Checks.{first_lacking, is_one_row};
ghost use Rattle.cert_checks.specs.inner.Alone.{alone, alone_line, has_accepted, is_accepted, lacking_in, lacking_of};

use crate::naming::{question_named, read_query};
use cert_checker::check_with_axioms;
use constraint_axioms::Axiom;
use lint_base::NoMemory;
use lint_core::{Cert, CheckRun, Checked, QueryResult, QueryRun, Question, Schema};
use std::alloc::Global;

/// What a certificate comes to by itself: refused at step 0 where it names no question.
fn check_alone(
    alloc: Global,
    schema: &Schema,
    axioms: &[Axiom],
    queries: &[QueryRun],
    cert: &Cert,
) -> Result<Checked, NoMemory>
    requires listed { map spoken axioms.now ≡ constraints schema.now }
    requires read { AreRead schema.now queries.now }
    ensures { IfOk result (λ found. found ≡ alone schema.now queries.now cert.now) }
{
    match question_named(queries, cert) {
        Some((query, question)) => {
            check_with_axioms(alloc, schema, axioms, query, question, cert)
        }
        None => Ok(Checked::Refused { step: 0 }),
    }
}

/// What each certificate comes to by itself, in order.
pub(crate) fn check_each(
    alloc: Global,
    schema: &Schema,
    axioms: &[Axiom],
    queries: &[QueryRun],
    certs: &[Cert],
) -> Result<Vec<CheckRun>, NoMemory>
    requires listed { map spoken axioms.now ≡ constraints schema.now }
    requires read { AreRead schema.now queries.now }
    ensures { IfOk result
        (λ found. found.items ≡ map (alone_line schema.now queries.now) certs.now) }
{
    let mut found = Vec::new(alloc);
    for cert in certs {
        let checked = check_alone(alloc, schema, axioms, queries, cert)?;
        found.push(CheckRun {
            query: cert.query,
            question: cert.question,
            checked,
        })?;
    }
    Ok(found)
}

fn is_one_row(question: &Question) -> bool
    ensures { result ≡ is_one_row question.now }
{
    matches!(question, Question::OneRow { .. })
}

/// Whether this is the line of an accepted certificate of the question of these numbers.
fn is_of(line: &CheckRun, query: usize, question: usize) -> bool
    ensures { result ≡ nat_eq line.now.query query && nat_eq line.now.question question
        && is_accepted line.now.checked }
{
    line.query as usize == query
        && line.question as usize == question
        && matches!(line.checked, Checked::Accepted)
}

fn has_accepted(found: &[CheckRun], query: usize, question: usize) -> bool
    ensures { result ≡ has_accepted found.now query question }
{
    found.iter().any(|line| is_of(line, query, question))
}

/// The number of the first E9 of a query that has no accepted certificate.
fn first_lacking(found: &[CheckRun], query: usize, asked: &[Question]) -> Option<usize>
    ensures { result ≡ first_lacking (has_accepted found.now query) 1 asked.now }
{
    for (place, question) in asked.iter().enumerate() {
        if is_one_row(question) && !has_accepted(found, query, place + 1) {
            return Some(place + 1);
        }
    }
    None
}

fn lacking_in(found: &[CheckRun], number: usize, outcome: &QueryResult) -> Option<usize>
    ensures { result ≡ lacking_in found.now number outcome.now }
{
    let (_, asked) = read_query(outcome)?;
    first_lacking(found, number, asked)
}

/// Of each query, in order, the number of its first E9 that has no accepted certificate.
pub(crate) fn lacking_of(
    alloc: Global,
    queries: &[QueryRun],
    found: &[CheckRun],
) -> Result<Vec<Option<usize>>, NoMemory>
    ensures { IfOk result
        (λ lacking. lacking.items ≡ lacking_of found.now 1 queries.now) }
{
    let mut lacking = Vec::new(alloc);
    for (index, query) in queries.iter().enumerate() {
        lacking.push(lacking_in(found, index + 1, &query.result))?;
    }
    Ok(lacking)
}
