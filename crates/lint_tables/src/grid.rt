//! Grids of small numbers.
ghost use Rattle.std.specs.Prelude.{◌≡◌, ◌<◌};
ghost use Rattle.lint_tables.specs.Grid.{cell_at};

/// R rows of C small numbers.
#[derive(Clone, Copy)]
pub struct Grid<const R: usize, const C: usize> {
    pub cells: [[u8; C]; R],
}

/// AND of two truth values, with 0 for false, 1 for unknown and 2 for true.
pub const AND_GRID: Grid<3, 3> = Grid {
    cells: [[0, 0, 0], [0, 1, 1], [0, 1, 2]],
};

/// OR of two truth values.
pub const OR_GRID: Grid<3, 3> = Grid {
    cells: [[0, 1, 2], [1, 1, 2], [2, 2, 2]],
};

/// NOT of a truth value.
pub const NOT_GRID: Grid<1, 3> = Grid { cells: [[2, 1, 0]] };

impl<const R: usize, const C: usize> Grid<R, C> {
    /// The number in a row and a column, both from 0.
    pub fn at(&self, r: usize, c: usize) -> u8
        requires row { r < R }
        requires column { c < C }
        ensures { result ≡ cell_at self.now.cells r c }
    {
        self.cells[r][c]
    }
}
