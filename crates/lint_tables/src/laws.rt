//! Laws of the tables. The functions do nothing: each contract is a law.
ghost use Rattle.std.specs.Prelude.{◌≡◌, ◌<◌, ◌-◌, ℕ, ℤ, not, min, max, map};
ghost use Rattle.std.specs.List.{range_with_len};
ghost use Rattle.lint_tables.specs.Grid.{cell_at};
ghost use Rattle.lint_tables.specs.Operators.{is_related, negation, mirror};
ghost use Rattle.lint_tables.specs.Ways.{ways_of, ways_hold};
ghost use Rattle.lint_tables.specs.Words.{upper, place_of, reserved};
ghost use Rattle.lint_tables.specs.declared.op.Op.{Op as Operator};

use crate::grid::{AND_GRID, NOT_GRID, OR_GRID};

/// With 0 for false, 1 for unknown and 2 for true, AND is the least, OR the greatest, and NOT
/// swaps false and true.
pub fn grids_are_truth_tables()
    ensures and { (a b : ℕ) → a < 3 → b < 3 → cell_at AND_GRID.cells a b ≡ min a b }
    ensures or { (a b : ℕ) → a < 3 → b < 3 → cell_at OR_GRID.cells a b ≡ max a b }
    ensures not { (a : ℕ) → a < 3 → cell_at NOT_GRID.cells 0 a ≡ 2 - a }
{}

/// The negation holds exactly where the operator does not, and the mirror where it holds the other
/// way round.
pub fn operators_change_sides()
    ensures negation { (op : Operator) (a b : ℤ)
        → is_related (negation op) a b ≡ not (is_related op a b) }
    ensures mirror { (op : Operator) (a b : ℤ) → is_related (mirror op) a b ≡ is_related op b a }
{}

/// The ways of an operator hold of two whole numbers exactly where the operator does.
pub fn ways_are_exact()
    ensures { (op : Operator) (a b : ℤ) → ways_hold (ways_of op) a b ≡ is_related op a b }
{}

/// The reserved words are in upper case, and each is found at its own place, so that none stands
/// twice.
pub fn reserved_words_stand_once()
    ensures upper { map (map upper) reserved ≡ reserved }
    ensures place { map (place_of reserved) reserved
        ≡ map (λ place. Some place) (range_with_len 0 44) }
{}
