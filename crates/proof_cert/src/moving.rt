//! Closing steps over the literals of a leaf as steps in a branch.
ghost use Rattle.std.specs.Prelude.{◌≡◌, Some, map, option_and_then, IfOk};
ghost use Rattle.ground_theory.specs.Moving.{moved, moved_sum, moved_text, moved_path};
ghost use Rattle.proof_cert.specs.inner.Leaves.{at_number, fact_in, row_in};

use lint_base::{Items, NoMemory};
use lint_core::{SameEdge, Step, SumEdge, TextEdge};
use std::alloc::Global;

/// The fact of each literal, and the row of each row term.
#[derive(Drop)]
pub(crate) struct Renaming {
    pub(crate) facts: Items<u32>,
    pub(crate) rows: Items<u32>,
}

/// What stands under the number, and 0 behind the end.
fn at(numbers: &[u32], number: u32) -> u32
    ensures { result ≡ at_number numbers.now number }
{
    numbers.get(number as usize).copied().unwrap_or(0)
}

impl Renaming {
    fn fact(&self, number: u32) -> u32
        ensures { result ≡ fact_in self.now number }
    {
        at(self.facts.as_slice(), number)
    }

    fn row(&self, number: u32) -> u32
        ensures { result ≡ row_in self.now number }
    {
        at(self.rows.as_slice(), number)
    }

    fn sum(&self, edge: SumEdge) -> SumEdge
        ensures { result ≡ moved_sum (fact_in self.now) (row_in self.now) edge }
    {
        match edge {
            SumEdge::Fact(fact) => SumEdge::Fact(self.fact(fact)),
            SumEdge::Low { row, column } => {
                let row = self.row(row);
                SumEdge::Low { row, column }
            }
            SumEdge::High { row, column } => {
                let row = self.row(row);
                SumEdge::High { row, column }
            }
            SumEdge::Same { fact, column } => {
                let fact = self.fact(fact);
                SumEdge::Same { fact, column }
            }
            SumEdge::Back { fact, column } => {
                let fact = self.fact(fact);
                SumEdge::Back { fact, column }
            }
        }
    }

    fn text(&self, edge: TextEdge) -> TextEdge
        ensures { result ≡ moved_text (fact_in self.now) (row_in self.now) edge }
    {
        match edge {
            TextEdge::Fact(fact) => TextEdge::Fact(self.fact(fact)),
            TextEdge::FactBack(fact) => TextEdge::FactBack(self.fact(fact)),
            TextEdge::Same { fact, column } => {
                let fact = self.fact(fact);
                TextEdge::Same { fact, column }
            }
            TextEdge::Back { fact, column } => {
                let fact = self.fact(fact);
                TextEdge::Back { fact, column }
            }
        }
    }

    fn ring(&self, alloc: Global, edges: &[SumEdge]) -> Result<Items<SumEdge>, NoMemory>
        ensures { IfOk result (λ ring. ring
            ≡ map (moved_sum (fact_in self.now) (row_in self.now)) edges.now) }
    {
        let mut ring = Items::new(alloc);
        for edge in edges {
            ring.push(self.sum(*edge))?;
        }
        Ok(ring)
    }

    fn chain(&self, alloc: Global, edges: &[TextEdge]) -> Result<Items<TextEdge>, NoMemory>
        ensures { IfOk result (λ chain. chain
            ≡ map (moved_text (fact_in self.now) (row_in self.now)) edges.now) }
    {
        let mut chain = Items::new(alloc);
        for edge in edges {
            chain.push(self.text(*edge))?;
        }
        Ok(chain)
    }

    fn path(&self, alloc: Global, edges: &[SameEdge]) -> Result<Items<SameEdge>, NoMemory>
        ensures { IfOk result (λ path. path
            ≡ moved_path (fact_in self.now) (row_in self.now) edges.now) }
    {
        let mut path = Items::new(alloc);
        for edge in edges {
            path.push(SameEdge {
                fact: self.fact(edge.fact),
                back: edge.back,
            })?;
        }
        Ok(path)
    }

    /// The step with these facts and rows in the place of its own.
    pub(crate) fn moved(&self, alloc: Global, step: &Step) -> Result<Step, NoMemory>
        ensures { IfOk result (λ other. other
            ≡ moved (fact_in self.now) (row_in self.now) step.now) }
    {
        match step {
            Step::And { fact } => Ok(Step::And { fact: *fact }),
            Step::Or { fact } => Ok(Step::Or { fact: *fact }),
            Step::Ex { fact } => Ok(Step::Ex { fact: *fact }),
            Step::All { fact, row } => Ok(Step::All {
                fact: *fact,
                row: *row,
            }),
            Step::Sum { edges } => Ok(Step::Sum {
                edges: self.ring(alloc, edges.as_slice())?,
            }),
            Step::Text { last, edges } => Ok(Step::Text {
                last: self.last(*last),
                edges: self.chain(alloc, edges.as_slice())?,
            }),
            Step::Null { fact, other, path } => Ok(Step::Null {
                fact: self.fact(*fact),
                other: self.fact(*other),
                path: self.path(alloc, path.as_slice())?,
            }),
            Step::Same { fact, path } => Ok(Step::Same {
                fact: self.fact(*fact),
                path: self.path(alloc, path.as_slice())?,
            }),
        }
    }

    fn last(&self, last: Option<u32>) -> Option<u32>
        ensures { result ≡ option_and_then (λ fact. Some (fact_in self.now fact)) last }
    {
        match last {
            Some(fact) => Some(self.fact(fact)),
            None => None,
        }
    }
}
