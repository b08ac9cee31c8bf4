//! Which question a certificate names.
ghost use Rattle.std.specs.Prelude.{◌≡◌, List, None, Some, MatchOption};
ghost use Rattle.lint_core.specs.declared.query.Question.{Question as Asked};
ghost use Rattle.cert_checks.specs.Named.{query_named, question_named, read_query};

use lint_core::{Cert, Query, QueryResult, QueryRun, Question};

/// A query that was read, and what is asked of it.
pub(crate) fn read_query(outcome: &QueryResult) -> Option<(&Query, &[Question])>
    ensures { MatchOption result (read_query outcome.now ≡ None)
        (λ read. read_query outcome.now
        ≡ Some (record { query = read.0.now; asked = read.1.now })) }
{
    match outcome {
        QueryResult::Refused(_) => None,
        QueryResult::Answered {
            query,
            questions,
            ..
        } => Some((query, questions.as_slice())),
    }
}

/// The read query of a number, and what is asked of it.
fn query_named(queries: &[QueryRun], number: u32) -> Option<(&Query, &[Question])>
    ensures { MatchOption result (query_named queries.now number ≡ None)
        (λ read. query_named queries.now number
        ≡ Some (record { query = read.0.now; asked = read.1.now })) }
{
    let place = number.checked_sub(1)?;
    read_query(&queries.get(place as usize)?.result)
}

/// The question that a certificate names, and its query.
pub(crate) fn question_named<'a>(
    queries: &'a [QueryRun],
    cert: &Cert,
) -> Option<(&'a Query, &'a Question)>
    ensures { MatchOption result (question_named queries.now cert.now ≡ None)
        (λ named. (before : List Asked) × (question_named queries.now cert.now
        ≡ Some (record { query = named.0.now; before = before; question = named.1.now }))) }
{
    let (query, asked) = query_named(queries, cert.query)?;
    let place = cert.question.checked_sub(1)?;
    Some((query, asked.get(place as usize)?))
}
