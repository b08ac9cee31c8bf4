//! What the words of the pages ask.
//!
//! - `problem QUESTION`, or `problem QUESTION given VALUE`: the live tables of the question's
//!   sentences in their order, with the counts of the row terms and of the clauses; or the tables
//!   of a cycle, from the least on; or the count that is above its limit. From here the page
//!   speaks of this problem;
//! - `row N`: the table of a row term, and the sentence and the node that ask for it, with the row
//!   terms at which they do;
//! - `clause N`, or `clause N M` for all from N to M: the guards of a clause, each with its way,
//!   and its own ways, where `-` has no literal;
//! - `inserts ROWS`: the INSERT statements of the rows, with `\n` for the end of a line.
use crate::inserts::inserts;
use crate::problems::{Stop, problem};
use crate::shown::{clauses, cycle, row, summary};
use case_pages::{Answering, Page, said};
use instantiate::Problem;
use lint_base::NoMemory;
use lint_core::{Query, Schema};
use std::alloc::Global;

/// Answers by the problem that the page named last, if one was made.
#[derive(Drop)]
pub(crate) struct Grounds {
    problem: Option<Problem>,
}

impl Grounds {
    pub(crate) fn new() -> Grounds {
        Grounds { problem: None }
    }

    fn take_problem(
        &mut self,
        alloc: Global,
        schema: &Schema,
        query: &Query,
        text: &str,
    ) -> Result<String, NoMemory> {
        self.problem = None;
        match problem(alloc, schema, query, text) {
            Ok(problem) => {
                let shown = summary(alloc, schema, &problem);
                self.problem = Some(problem);
                shown
            }
            Err(stop) => shown_stop(alloc, schema, stop),
        }
    }

    fn of_problem(
        &self,
        alloc: Global,
        schema: &Schema,
        word: &str,
        text: &str,
    ) -> Result<String, NoMemory> {
        let Some(problem) = &self.problem else {
            return said(alloc, "no problem");
        };
        match word {
            "row" => row(alloc, schema, problem, text),
            "clause" => clauses(alloc, problem, text),
            _ => said(alloc, "no such word"),
        }
    }
}

/// Why there is no problem.
fn shown_stop(alloc: Global, schema: &Schema, stop: Stop) -> Result<String, NoMemory> {
    match stop {
        Stop::NoQuestion => said(alloc, "no question"),
        Stop::NotAsked => said(alloc, "not asked"),
        Stop::Cycle { tables } => cycle(alloc, schema, tables.as_slice()),
        Stop::ManyRows { count } => Ok(format!(in alloc; "rows {count}")?),
        Stop::ManyNodes { count } => Ok(format!(in alloc; "nodes {count}")?),
        Stop::NoMemory => Err(NoMemory),
    }
}

impl Answering for Grounds {
    fn answer(
        &mut self,
        alloc: Global,
        page: &Page,
        word: &str,
        text: &str,
    ) -> Result<String, NoMemory> {
        let Some(schema) = &page.schema else {
            return said(alloc, "no schema");
        };
        match word {
            "inserts" => inserts(alloc, schema, text),
            "problem" => match &page.query {
                Some(query) => self.take_problem(alloc, schema, query, text),
                None => said(alloc, "no query"),
            },
            _ => self.of_problem(alloc, schema, word, text),
        }
    }
}
