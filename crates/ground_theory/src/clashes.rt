//! What rows of one class contradict: that two of them differ, and that a cell is NULL and is not.
ghost use Rattle.std.specs.Prelude.{◌≡◌, ◌<◌, ◌≤◌, ◌*◌, None, length, IfOk, MatchOption, replicate};
ghost use Rattle.ground_theory.specs.inner.Joining.{AreSames};
ghost use Rattle.ground_theory.specs.inner.Numbering.{AreWithin};
ghost use Rattle.ground_theory.specs.inner.Clashes.{AreApart, IsParted, AreNulls, AreFirm};
ghost use Rattle.ground_theory.specs.inner.Clashes.{IsNullClash, LabelsWithin};
ghost use Rattle.ground_theory.specs.inner.Clashes.{IsSameLeaf, IsNullLeaf};
ghost use Rattle.ground_theory.specs.inner.Paths.{AreTied};

use crate::joining::Join;
use crate::numbering::Named;
use crate::paths::path;
use lint_base::{Items, NoMemory};
use lint_core::Step;
use std::alloc::Global;

/// A cell that is NULL, and one that is not, of one column and in rows of one class.
#[derive(Clone, Copy)]
pub(crate) struct NullClash {
    pub(crate) null: Named,
    pub(crate) firm: Named,
}

/// The first literal that says of two rows of one class that they differ.
pub(crate) fn parted(labels: &[u32], others: &[Join]) -> Option<Join>
    requires { AreSames (length labels.now) others.now }
    ensures { MatchOption result (AreApart labels.now others.now (length others.now))
        (IsParted labels.now others.now) }
{
    for other in others {
        if labels[other.row as usize] == labels[other.other as usize] {
            return Some(*other);
        }
    }
    None
}

/// The first cell that is not NULL and is in another row of its class.
pub(crate) fn null_clash(
    alloc: Global,
    labels: &[u32],
    nulls: &[Named],
    firms: &[Named],
) -> Result<Option<NullClash>, NoMemory>
    requires rows { length labels.now ≤ 512 }
    requires labels { LabelsWithin labels.now }
    requires nulls { AreWithin (length labels.now) nulls.now }
    requires firms { AreWithin (length labels.now) firms.now }
    ensures { IfOk result (λ clash. let count = length firms.now in
        MatchOption clash (AreFirm labels.now nulls.now firms.now count)
        (IsNullClash labels.now nulls.now firms.now)) }
{
    let held = hold(alloc, labels, nulls)?;
    for firm in firms {
        let class = labels[firm.row as usize];
        if let Some(null) = held[class as usize * 64 + firm.column as usize] {
            return Ok(Some(NullClash { null, firm: *firm }));
        }
    }
    Ok(None)
}

/// The leaf of two rows of one class of which a literal says that they differ.
pub(crate) fn same_leaf(
    alloc: Global,
    rows: u32,
    joins: &[Join],
    other: Join,
) -> Result<Step, NoMemory>
    requires few { length joins.now ≤ 512 }
    requires within { AreSames rows joins.now }
    requires row { other.row < rows }
    requires other { other.other < rows }
    requires tied { AreTied joins.now other.row other.other }
    ensures { IfOk result (IsSameLeaf joins.now other) }
{
    Ok(Step::Same {
        fact: other.fact,
        path: Items::from_vec(path(alloc, rows, joins, other.row, other.other)?),
    })
}

/// The leaf of a cell that is NULL and is not.
pub(crate) fn null_leaf(
    alloc: Global,
    rows: u32,
    joins: &[Join],
    clash: NullClash,
) -> Result<Step, NoMemory>
    requires few { length joins.now ≤ 512 }
    requires within { AreSames rows joins.now }
    requires null { clash.null.row < rows }
    requires firm { clash.firm.row < rows }
    requires tied { AreTied joins.now clash.null.row clash.firm.row }
    ensures { IfOk result (IsNullLeaf joins.now clash) }
{
    Ok(Step::Null {
        fact: clash.null.fact,
        other: clash.firm.fact,
        path: Items::from_vec(path(alloc, rows, joins, clash.null.row, clash.firm.row)?),
    })
}

/// A literal for each cell of a class that is NULL.
fn hold(alloc: Global, labels: &[u32], nulls: &[Named]) -> Result<Vec<Option<Named>>, NoMemory>
    requires rows { length labels.now ≤ 512 }
    requires labels { LabelsWithin labels.now }
    requires nulls { AreWithin (length labels.now) nulls.now }
    ensures { IfOk result (λ held. AreNulls labels.now nulls.now (length nulls.now) held.items) }
{
    let mut held = nones(alloc, labels.len() * 64)?;
    for null in nulls {
        let class = labels[null.row as usize];
        held[class as usize * 64 + null.column as usize] = Some(*null);
    }
    Ok(held)
}

/// No cell in each place.
fn nones(alloc: Global, count: usize) -> Result<Vec<Option<Named>>, NoMemory>
    ensures { IfOk result (λ v. v.items ≡ replicate count None) }
{
    let mut all = Vec::new(alloc);
    for _ in 0..count {
        all.push(None)?;
    }
    Ok(all)
}
