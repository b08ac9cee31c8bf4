//! The Exists nodes of sentences, each with the tables of the Foralls around it.
ghost use Rattle.std.specs.Prelude.{◌≡◌, ◌+◌, [], ◌∷◌, ◌++◌, map, IfOk, OnOk};
ghost use Rattle.sorted_skolem.specs.inner.Asks.{told, sizes, parts_asks, asks_from};

use lint_base::{Items, NoMemory};
use sort_formula::{Formula, Sentence};
use std::alloc::Global;

/// An Exists node: the numbers of its sentence and of the node, its table, and those of the
/// Foralls around it, the outermost first.
#[derive(Drop)]
pub(crate) struct Ask {
    pub(crate) sentence: usize,
    pub(crate) node: u64,
    pub(crate) table: u32,
    pub(crate) foralls: Items<u32>,
}

/// A walk through sentences: the number of the sentence and of the next node, the tables of the
/// Foralls around it, and the Exists nodes so far.
#[derive(Drop)]
struct Walk {
    alloc: Global,
    sentence: usize,
    node: u64,
    foralls: Vec<u32>,
    asks: Vec<Ask>,
}

/// The Exists nodes of the sentences, in order. `NoMemory` where there is no memory for them, or a
/// sentence has more nodes than any memory holds.
pub(crate) fn asks_of(alloc: Global, sentences: &[Sentence]) -> Result<Vec<Ask>, NoMemory>
    ensures { IfOk result (λ asks. asks.items ≡ asks_from 0 sentences.now) }
{
    let mut walk = Walk {
        alloc,
        sentence: 0,
        node: 0,
        foralls: Vec::new(alloc),
        asks: Vec::new(alloc),
    };
    for (number, sentence) in sentences.iter().enumerate() {
        walk.sentence = number;
        walk.node = 0;
        walk.formula(sentence.formula())?;
    }
    Ok(walk.asks)
}

/// A list of the same numbers.
pub(crate) fn copy_of(alloc: Global, numbers: &[u32]) -> Result<Items<u32>, NoMemory>
    ensures { IfOk result (λ copy. copy ≡ numbers.now) }
{
    let mut copy = Vec::new(alloc);
    copy.extend_from_slice(numbers)?;
    Ok(Items::from_vec(copy))
}

impl Walk {
    /// Gives the next node its number.
    fn next(&mut self) -> Result<u64, NoMemory>
        ensures number { IfOk result (λ number. number ≡ self.old.node) }
        ensures node { OnOk result (self.new.node ≡ self.old.node + 1) }
        ensures sentence { self.new.sentence ≡ self.old.sentence }
        ensures foralls { self.new.foralls.items ≡ self.old.foralls.items }
        ensures asks { self.new.asks.items ≡ self.old.asks.items }
    {
        let number = self.node;
        let Some(next) = number.checked_add(1) else {
            return Err(NoMemory);
        };
        self.node = next;
        Ok(number)
    }

    /// Adds an Exists node over the table.
    fn ask(&mut self, node: u64, table: u32) -> Result<(), NoMemory>
        ensures asks { OnOk result (self.new.asks.items ≡ self.old.asks.items ++ record {
          sentence = self.old.sentence;
          node = node;
          table = table;
          foralls = self.old.foralls.items;
        } ∷ []) }
        ensures node { self.new.node ≡ self.old.node }
        ensures sentence { self.new.sentence ≡ self.old.sentence }
        ensures foralls { self.new.foralls.items ≡ self.old.foralls.items }
    {
        let foralls = copy_of(self.alloc, &self.foralls)?;
        self.asks.push(Ask {
            sentence: self.sentence,
            node,
            table,
            foralls,
        })?;
        Ok(())
    }

    /// Adds the Exists nodes of a formula.
    #[cycle(walk)]
    fn formula(&mut self, formula: &Formula) -> Result<(), NoMemory>
        ensures asks { OnOk result (self.new.asks.items ≡ self.old.asks.items
            ++ (told self.old.sentence formula.now).asks self.old.node self.old.foralls.items) }
        ensures node { OnOk result (self.new.node
            ≡ self.old.node + (told self.old.sentence formula.now).size) }
        ensures sentence { self.new.sentence ≡ self.old.sentence }
        ensures foralls { OnOk result (self.new.foralls.items ≡ self.old.foralls.items) }
    {
        let node = self.next()?;
        match formula {
            Formula::Atom(_) => Ok(()),
            Formula::And(parts) | Formula::Or(parts) => self.parts(parts.as_slice()),
            Formula::Exists { table, body } => {
                self.ask(node, *table)?;
                self.formula(body.get())
            }
            Formula::Forall { table, body } => {
                self.foralls.push(*table)?;
                self.formula(body.get())?;
                self.foralls.pop();
                Ok(())
            }
        }
    }

    /// Adds the Exists nodes of the parts of a formula.
    #[cycle(walk)]
    fn parts(&mut self, parts: &[Formula]) -> Result<(), NoMemory>
        ensures asks { OnOk result (self.new.asks.items ≡ self.old.asks.items
            ++ parts_asks self.old.node self.old.foralls.items
            (map (told self.old.sentence) parts.now)) }
        ensures node { OnOk result (self.new.node
            ≡ self.old.node + sizes (map (told self.old.sentence) parts.now)) }
        ensures sentence { self.new.sentence ≡ self.old.sentence }
        ensures foralls { OnOk result (self.new.foralls.items ≡ self.old.foralls.items) }
    {
        for part in parts {
            self.formula(part)?;
        }
        Ok(())
    }
}
