//! Small lists of clauses of which it is known by hand what a search of their cases answers. The
//! program prints what it answers of each, with its budget; the gate compares that with the page
//! `stdout`, which was written by hand.
//!
//! Its tests say what `judge` answers of small lists of literals, and `classes` of facts about texts.
//!
//! It stands beside `sqllint`, over `case_split`, and is no part of it. Nothing stands on it, and
//! nobody has to believe it: what it calls is proved where it stands. What no clause says, that the
//! search jumps back over choices that no conflict uses, is seen here: without the jump the budget
//! of 100 would not do.
#![tactic(auto)]

mod lists;
#[cfg(test)]
mod literals;
#[cfg(test)]
mod texts;

ghost use Rattle.worked_searches.specs.Lists.{IsSearchable};

use case_split::{Found, search};
use ground_theory::Clause;
use lint_base::NoMemory;
use lists::{contradiction, frame, free_choice, needed_choice, useless_choices};
use std::alloc::Global;
use std::io;

/// What a search of the clauses answers within a budget, in words.
fn answer(alloc: Global, clauses: &[Clause], budget: u64) -> Result<&'static str, NoMemory>
    requires { IsSearchable clauses.now }
{
    let found = search(alloc, clauses, &frame(alloc)?, budget)?;
    Ok(words(&found))
}

fn words(found: &Found) -> &'static str {
    match found {
        Found::Open(branch) => match branch.choices.as_slice().first() {
            Some(Some(0)) => "open, by the first way",
            Some(Some(_)) => "open, by a later way",
            _ => "open",
        },
        Found::Closed(_) => "closed",
        Found::Spent { .. } => "spent",
    }
}

fn free(alloc: Global) -> Result<&'static str, NoMemory> {
    answer(alloc, free_choice(alloc)?.as_slice(), 1)
}

fn contradicted(alloc: Global) -> Result<&'static str, NoMemory> {
    answer(alloc, contradiction(alloc)?.as_slice(), 2)
}

fn useless(alloc: Global) -> Result<&'static str, NoMemory> {
    answer(alloc, useless_choices(alloc)?.as_slice(), 100)
}

fn needed(alloc: Global, budget: u64) -> Result<&'static str, NoMemory> {
    answer(alloc, needed_choice(alloc)?.as_slice(), budget)
}

fn shown(answer: Result<&'static str, NoMemory>) -> &'static str {
    answer.unwrap_or("no memory")
}

fn main(rt: HostRuntime) -> io::Result<()> {
    let alloc = rt.alloc();
    println!(rt; "two free ways, budget 1: {}", shown(free(alloc)))?;
    println!(rt;
        "x < 0, then x >= 0, budget 2: {}",
        shown(contradicted(alloc))
    )?;
    println!(rt;
        "twenty choices between, budget 100: {}",
        shown(useless(alloc))
    )?;
    println!(rt;
        "and both of two ways, budget 100: {}",
        shown(needed(alloc, 100))
    )?;
    println!(rt; "that with budget 10: {}", shown(needed(alloc, 10)))?;
    Ok(())
}
