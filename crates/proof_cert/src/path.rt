//! The splits on the way to the branch in hand.
ghost use Rattle.std.specs.Prelude.{◌≡◌, ◌++◌, [], length, take, IfOk, OnOk};
ghost use Rattle.proof_cert.specs.inner.Paths.{IsIndexed, IsNew, fact_at, last_of, opened_at, row_at};

use lint_base::NoMemory;
use sort_formula::Formula;
use std::alloc::Global;

/// A split that was made: the clause, the way that was taken, the formula that stands at the
/// clause and the fact that says it; the first fact that came by it, and the row that came by it
/// where the formula is an Exists.
#[derive(Clone, Copy)]
pub(crate) struct Opened<'a> {
    pub(crate) clause: u32,
    pub(crate) way: usize,
    pub(crate) formula: &'a Formula,
    pub(crate) fact: u32,
    pub(crate) first: u32,
    pub(crate) row: u32,
}

/// The splits in their order, of ever other clauses, and the place of each among them, by its
/// clause. A place that does not lead to a split of its clause says nothing.
#[derive(Drop)]
pub(crate) struct Path<'a> {
    pub(crate) splits: Vec<Opened<'a>>,
    pub(crate) places: Vec<usize>,
}

impl<'a> Path<'a> {
    /// No split yet, of so many clauses.
    pub(crate) fn new(alloc: Global, clauses: usize) -> Result<Path<'a>, NoMemory>
        ensures indexed { IfOk result IsIndexed }
        ensures splits { IfOk result (λ path. path.splits.items ≡ []) }
        ensures places { IfOk result (λ path. length path.places.items ≡ clauses) }
    {
        Ok(Path {
            splits: Vec::new(alloc),
            places: vec![in alloc; 0; clauses]?,
        })
    }

    /// The split of the clause, if it was made.
    pub(crate) fn find(&self, clause: u32) -> Option<Opened<'a>>
        requires { IsIndexed self.now }
        ensures { result ≡ opened_at self.now.splits.items clause }
    {
        let place = *self.places.get(clause as usize)?;
        let opened = *self.splits.get(place)?;
        if opened.clause == clause {
            Some(opened)
        } else {
            None
        }
    }

    /// The fact of a clause that is split, 0 for another.
    pub(crate) fn fact_of(&self, clause: u32) -> u32
        requires { IsIndexed self.now }
        ensures { result ≡ fact_at self.now.splits.items clause }
    {
        match self.find(clause) {
            Some(opened) => opened.fact,
            None => 0,
        }
    }

    /// The row that came by the split of a clause, 0 where it is not split.
    pub(crate) fn row_of(&self, clause: u32) -> u32
        requires { IsIndexed self.now }
        ensures { result ≡ row_at self.now.splits.items clause }
    {
        match self.find(clause) {
            Some(opened) => opened.row,
            None => 0,
        }
    }

    /// Goes back to the first splits, and makes one more, if there is one.
    pub(crate) fn go_to(&mut self, above: usize, opened: Option<Opened<'a>>) -> Result<(), NoMemory>
        requires indexed { IsIndexed self.old }
        requires other { let way = take above self.old.splits.items in
            IsNew (length self.old.places.items) way opened }
        ensures indexed { OnOk result (IsIndexed self.new) }
        ensures splits { OnOk result (self.new.splits.items
            ≡ take above self.old.splits.items ++ last_of opened.entry) }
        ensures places { OnOk result (length self.new.places.items
            ≡ length self.old.places.items) }
    {
        self.splits.truncate(above);
        if let Some(opened) = opened {
            self.places[opened.clause as usize] = self.splits.len();
            self.splits.push(opened)?;
        }
        Ok(())
    }
}
