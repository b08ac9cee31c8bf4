//! The classes of row terms that Same literals join, and which of the literals join two classes.
ghost use Rattle.std.specs.Prelude.{◌≡◌, ◌<◌, ◌≤◌, ◌^◌, ℕ, Some, None, length, IfOk, replicate, slice_set};
ghost use Rattle.ground_theory.specs.inner.Joining.{AreSames, IsJoining, IsRelabelled, AreJoined, IsJoined};
ghost use Rattle.ground_theory.specs.inner.Joining.{label_at, AreThere};

use lint_base::NoMemory;
use std::alloc::Global;

/// A literal that says that two row terms are one, by its number.
#[derive(Clone, Copy)]
pub(crate) struct Join {
    pub(crate) fact: u32,
    pub(crate) row: u32,
    pub(crate) other: u32,
}

/// The row term that names the class of each, and the literals that joined two classes.
#[derive(Drop)]
pub(crate) struct Joined {
    pub(crate) labels: Vec<u32>,
    pub(crate) joins: Vec<Join>,
}

/// The row term that names the class of each, and for one that names none any more the literal
/// that joined its class to another.
#[derive(Drop)]
struct Joining {
    labels: Vec<u32>,
    by: Vec<Option<Join>>,
}

/// The classes of the row terms.
pub(crate) fn classes(alloc: Global, rows: u32, sames: &[Join]) -> Result<Joined, NoMemory>
    requires { AreSames rows sames.now }
    ensures { IfOk result (λ c. AreJoined rows sames.now c.labels.items c.joins.items) }
{
    let mut joining = Joining {
        labels: numbers(alloc, rows)?,
        by: nones(alloc, rows)?,
    };
    for same in sames {
        joining.join(*same);
    }
    Ok(Joined {
        joins: listed(alloc, &joining.by)?,
        labels: joining.labels,
    })
}

impl Joining {
    /// Joins the classes of two row terms.
    fn join(&mut self, same: Join)
        requires joining { IsJoining (length self.old.labels.items) self.old.labels.items
            self.old.by.items }
        requires row { same.row < length self.old.labels.items }
        requires other { same.other < length self.old.labels.items }
        ensures { IsJoined self.old.labels.items self.old.by.items same self.new.labels.items
            self.new.by.items }
    {
        let from = self.labels[same.other as usize];
        let to = self.labels[same.row as usize];
        if from != to {
            relabel(&mut self.labels, from, to);
            self.by[from as usize] = Some(same);
        }
    }
}

/// Gives each row term with the one label the other.
fn relabel(labels: &mut Vec<u32>, from: u32, to: u32)
    ensures { let count = length labels.old.items in
        IsRelabelled labels.old.items from to count labels.new.items }
{
    for row in 0..labels.len() {
        if labels[row] == from {
            labels[row] = to;
        }
    }
}

/// The numbers below a count.
fn numbers(alloc: Global, count: u32) -> Result<Vec<u32>, NoMemory>
    ensures count { IfOk result (λ v. length v.items ≡ count) }
    ensures each { IfOk result (λ v. (k : ℕ) → k < count → label_at v.items k ≡ k) }
{
    let mut all = Vec::new(alloc);
    for number in 0..count {
        all.push(number)?;
    }
    Ok(all)
}

/// No literal in each place.
fn nones(alloc: Global, count: u32) -> Result<Vec<Option<Join>>, NoMemory>
    ensures { IfOk result (λ v. v.items ≡ replicate count None) }
{
    let mut all = Vec::new(alloc);
    for _ in 0..count {
        all.push(None)?;
    }
    Ok(all)
}

/// The literals that are there.
fn listed(alloc: Global, by: &[Option<Join>]) -> Result<Vec<Join>, NoMemory>
    ensures { IfOk result (λ v. AreThere by.now (length by.now) v.items) }
{
    let mut all = Vec::new(alloc);
    for place in by {
        if let Some(join) = place {
            all.push(*join)?;
        }
    }
    Ok(all)
}
