//! The variables: one for each cell that literals name, in each row term of the class.
ghost use Rattle.std.specs.Prelude.{◌≡◌, ◌+◌, ◌<◌, ◌≤◌, ◌*◌, ℕ, Some, None, length, IfOk, OnOk, replicate, slice_set};
ghost use Rattle.ground_theory.specs.inner.Numbering.{IsNumbering, IsAdded, IsClassAdded, IsNumbered};
ghost use Rattle.ground_theory.specs.inner.Numbering.{AreWithin, number_at};

use lint_base::NoMemory;
use std::alloc::Global;

/// A cell of a row term.
#[derive(Clone, Copy)]
pub(crate) struct Cell {
    pub(crate) row: u32,
    pub(crate) column: u32,
}

/// A cell, and the number of a literal that names it.
#[derive(Clone, Copy)]
pub(crate) struct Named {
    pub(crate) fact: u32,
    pub(crate) row: u32,
    pub(crate) column: u32,
}

/// The cells that have a variable, and the variable of each cell.
#[derive(Drop)]
pub(crate) struct Numbering {
    places: Vec<Option<u32>>,
    pub(crate) cells: Vec<Cell>,
}

/// Gives a variable to each cell that is named, and to those of its column in the row terms of its
/// class.
pub(crate) fn number_cells(
    alloc: Global,
    labels: &[u32],
    named: &[Named],
) -> Result<Numbering, NoMemory>
    requires rows { length labels.now ≤ 512 }
    requires within { AreWithin (length labels.now) named.now }
    ensures { IfOk result (λ n. let count = length named.now in
        IsNumbered labels.now named.now count n.places.items n.cells.items) }
{
    let mut numbering = Numbering {
        places: nones(alloc, labels.len() * 64)?,
        cells: Vec::new(alloc),
    };
    for cell in named {
        numbering.add_class(labels, cell.row, cell.column)?;
    }
    Ok(numbering)
}

impl Numbering {
    /// The variable of a cell.
    pub(crate) fn number(&self, row: u32, column: u32) -> Option<u32>
        requires within { row * 64 + column < length self.now.places.items }
        ensures { result ≡ number_at self.now.places.items row column }
    {
        self.places[row as usize * 64 + column as usize]
    }

    /// Gives a variable to the cells of the column in the row terms of a class.
    fn add_class(&mut self, labels: &[u32], row: u32, column: u32) -> Result<(), NoMemory>
        requires rows { length labels.now ≤ 512 }
        requires row { row < length labels.now }
        requires column { column < 64 }
        requires numbering { IsNumbering (length labels.now) self.old.places.items
            self.old.cells.items }
        ensures { let count = length labels.now in OnOk result (IsClassAdded labels.now row column
            count self.old.places.items self.old.cells.items self.new.places.items
            self.new.cells.items) }
    {
        for other in 0..labels.len() as u32 {
            if labels[other as usize] == labels[row as usize] {
                self.add(labels.len(), other, column)?;
            }
        }
        Ok(())
    }

    /// Gives a variable to a cell that has none.
    fn add(&mut self, rows: usize, row: u32, column: u32) -> Result<(), NoMemory>
        requires rows { rows ≤ 512 }
        requires row { row < rows }
        requires column { column < 64 }
        requires numbering { IsNumbering rows self.old.places.items self.old.cells.items }
        ensures { OnOk result (IsAdded rows row column self.old.places.items self.old.cells.items
            self.new.places.items self.new.cells.items) }
    {
        let place = row as usize * 64 + column as usize;
        if self.places[place].is_none() {
            let number = self.cells.len() as u32;
            self.cells.push(Cell { row, column })?;
            self.places[place] = Some(number);
        }
        Ok(())
    }
}

/// No variable in each place.
fn nones(alloc: Global, count: usize) -> Result<Vec<Option<u32>>, NoMemory>
    ensures { IfOk result (λ v. v.items ≡ replicate count None) }
{
    let mut all = Vec::new(alloc);
    for _ in 0..count {
        all.push(None)?;
    }
    Ok(all)
}
