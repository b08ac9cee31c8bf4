//! What a run answers.
use crate::certificate::Cert;
use crate::database::{Counter, KeyName};
use crate::query::{Query, Question};
use crate::schema::Schema;
use lint_base::{Items, Refusal, Span};

/// The answer to a question. Questions count from 1.
#[derive(Drop)]
pub enum Answer {
    /// The question holds in every database of the schema.
    Always(Cert),
    /// The question fails in this database; a constant column has two values in these two.
    NotAlways(Items<Counter>),
    /// The query is always empty, so nothing else is worth asking of it.
    Moot,
    /// The answer to an earlier question, on which this one stands, leaves it open.
    Blocked {
        by: u32,
    },
    /// The question fails in this database, which breaks one foreign key alone; the tables that it
    /// leads from and to are on a cycle.
    CyclicKeys {
        cycle: Items<u32>,
        counter: Counter,
        key: KeyName,
    },
    /// Each of these tables may need a row for each row of the one before, and the first for each
    /// row of the last, so no number of rows is known to suffice.
    CyclicNesting {
        cycle: Items<u32>,
    },
    /// The question may need more rows, or its clauses are more, than are judged.
    Large {
        rows: u64,
        nodes: u64,
    },
    /// So many cases were tried, more than the budget.
    Spent {
        tried: u64,
    },
}

/// What a check of a certificate comes to.
#[derive(Clone, Copy, Debug, PartialEq, Eq)]
pub enum Checked {
    /// The steps refute the question's counter sentence.
    Accepted,
    /// The first step that is wrong, missing or left over. Steps count from 1.
    Refused { step: u64 },
    /// The certificate counts only together with one of this earlier question.
    Needs { question: u32 },
}

/// A certificate of a file, by the query and the question that it names, and what its check comes
/// to.
#[derive(Clone, Copy, Debug, PartialEq, Eq)]
pub struct CheckRun {
    pub query: u32,
    pub question: u32,
    pub checked: Checked,
}

/// What became of a query.
#[derive(Drop)]
pub enum QueryResult {
    Refused(Refusal),
    /// As many answers as questions, in their order.
    Answered {
        query: Query,
        questions: Items<Question>,
        answers: Items<Answer>,
    },
}

/// A query of the file, with its place in it.
#[derive(Drop)]
pub struct QueryRun {
    pub span: Span,
    pub result: QueryResult,
}

/// The schema of a run, its queries, in the order of their file, and the certificates that it
/// checked, in the order of theirs.
#[derive(Drop)]
pub struct Run {
    pub schema: Schema,
    pub queries: Items<QueryRun>,
    pub checks: Items<CheckRun>,
}
