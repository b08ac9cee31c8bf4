//! What the engine answers of a few queries, and of sentences, whose answers are known by hand.
//! The program prints the verdict of each question, and whether each sentence can hold; the gate
//! compares that with the page `stdout`, which was written by hand from what these mean.
//!
//! It stands beside `sqllint`, over `lint_engine`, and is no part of it. Nothing stands on it,
//! and nobody has to believe it: what it calls is proved where it stands.
#![tactic(auto)]

mod reading;
mod sentences;

ghost use Rattle.std.specs.Prelude.{◌≡◌, true};
ghost use Rattle.lint_core.specs.Fits.{query_fits};

use lint_base::NoMemory;
use lint_core::{Answer, Query, Schema};
use lint_engine::ask_all;
use reading::{query, schema};
use sentences::settled;
use std::alloc::Global;
use std::io;

const SCHEMA: &str = "CREATE TABLE dept (deptno INTEGER PRIMARY KEY, dname VARCHAR(14) NOT NULL); \
    CREATE TABLE emp (empno INTEGER PRIMARY KEY, ename VARCHAR(10) NOT NULL, \
    sal INTEGER CHECK (sal > 0), deptno INTEGER NOT NULL REFERENCES dept, mgr INTEGER)";

fn word(answer: &Answer) -> &'static str {
    match answer {
        Answer::Always(_) => " always,",
        Answer::NotAlways(_) => " not always,",
        Answer::Moot => " moot,",
        Answer::Blocked { .. } => " blocked,",
        Answer::CyclicKeys { .. } => " cyclic keys,",
        Answer::CyclicNesting { .. } => " cyclic nesting,",
        Answer::Large { .. } => " large,",
        Answer::Spent { .. } => " spent,",
    }
}

/// The verdicts on the questions of a query, in their order.
fn verdicts(alloc: Global, schema: &Schema, query: &Query) -> Result<String, NoMemory>
    requires { query_fits schema.now query.now ≡ true }
{
    let answers = ask_all(alloc, schema, query, 1, 200_000)?;
    let mut words = String::new(alloc);
    for answer in answers.as_slice() {
        words.push_str(word(answer))?;
    }
    Ok(words)
}

/// The verdicts on a query's text, or that it is no query.
fn judged(alloc: Global, schema: &Schema, text: &str) -> Result<String, NoMemory> {
    match query(alloc, schema, text) {
        Some(query) => verdicts(alloc, schema, &query),
        None => Ok(String::from_str(alloc, " no query")?),
    }
}

fn shown(alloc: Global, text: &str) -> String {
    let Some(schema) = schema(alloc, SCHEMA) else {
        return String::new(alloc);
    };
    match judged(alloc, &schema, text) {
        Ok(words) => words,
        Err(_) => String::new(alloc),
    }
}

/// Whether some salary can be at most this number.
fn salary_at_most(alloc: Global, most: i128) -> String {
    let Some(schema) = schema(alloc, SCHEMA) else {
        return String::new(alloc);
    };
    match settled(alloc, &schema, 1, 2, most) {
        Ok(words) => words,
        Err(_) => String::new(alloc),
    }
}

fn main(rt: HostRuntime) -> io::Result<()> {
    for text in [
        "SELECT ename FROM emp WHERE sal < 0",
        "SELECT DISTINCT empno FROM emp",
        "SELECT ename FROM emp e, dept d WHERE e.deptno = d.deptno",
        "SELECT ename FROM emp WHERE mgr NOT IN (SELECT mgr FROM emp)",
        "SELECT ename FROM emp WHERE sal = (SELECT sal FROM emp x WHERE x.empno = 7)",
        "SELECT ename FROM emp WHERE sal = (SELECT sal FROM emp x WHERE x.deptno = 7)",
    ] {
        println!(rt; "{}:{}", text, shown(rt.alloc(), text).as_str())?;
    }
    for most in [-1, 0, 1] {
        println!(rt;
            "some sal at most {}: {}",
            most,
            salary_at_most(rt.alloc(), most).as_str()
        )?;
    }
    Ok(())
}
