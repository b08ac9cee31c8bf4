//! The assignment of values that the solvers found.
ghost use Rattle.std.specs.Prelude.{◌≡◌, IfOk};
ghost use Rattle.ground_theory.specs.inner.Sums.{told, HaveColumns};
ghost use Rattle.ground_theory.specs.inner.Filling.{IsSolution, IsFit, HasRowRoom, HaveRowRoom};
ghost use Rattle.ground_theory.specs.inner.Filling.{filled, row_cells, class_cells};

use crate::literal::{Assignment, Frame};
use crate::numbering::Numbering;
use crate::numbers::domains;
use lint_base::{Items, NoMemory, Str};
use lint_core::{Domain, Value};
use std::alloc::Global;

/// The variables, the number of each behind that of zero, and the text of each by its label.
#[derive(Drop)]
pub(crate) struct Solution {
    pub(crate) numbering: Numbering,
    pub(crate) numbers: Vec<i128>,
    pub(crate) labels: Vec<u32>,
    pub(crate) texts: Vec<Str>,
}

/// The values of the class that each row term is of.
pub(crate) fn assignment(
    alloc: Global,
    frame: &Frame,
    classes: Vec<u32>,
    solution: &Solution,
) -> Result<Assignment, NoMemory>
    requires columns { HaveColumns frame.now }
    requires solution { IsSolution frame.now solution.now }
    requires room { HaveRowRoom solution.now classes.items }
    ensures same { IfOk result (λ a. a.same ≡ classes.items) }
    ensures cells { IfOk result (λ a. a.cells
        ≡ told (class_cells frame.now solution.now) 0 classes.items) }
{
    let mut cells = Vec::new(alloc);
    for class in classes.as_slice() {
        cells.push(row(alloc, frame, *class, solution)?)?;
    }
    Ok(Assignment {
        same: Items::from_vec(classes),
        cells: Items::from_vec(cells),
    })
}

/// The values of a row term.
fn row(
    alloc: Global,
    frame: &Frame,
    row: u32,
    solution: &Solution,
) -> Result<Items<Value>, NoMemory>
    requires columns { HaveColumns frame.now }
    requires solution { IsSolution frame.now solution.now }
    requires room { HasRowRoom solution.now row }
    ensures { IfOk result (λ cells. cells ≡ row_cells frame.now solution.now row) }
{
    let mut cells = Vec::new(alloc);
    for (column, domain) in domains(frame, row).iter().enumerate() {
        let number = solution.numbering.number(row, column as u32);
        cells.push(value(alloc, number, *domain, solution)?)?;
    }
    Ok(Items::from_vec(cells))
}

/// The value of a variable; NULL where there is none.
fn value(
    alloc: Global,
    number: Option<u32>,
    domain: Domain,
    solution: &Solution,
) -> Result<Value, NoMemory>
    requires { IsFit solution.now number domain }
    ensures { IfOk result (λ value. value ≡ filled solution.now number domain) }
{
    let Some(number) = number else {
        return Ok(Value::Null);
    };
    match domain {
        Domain::Number { .. } => {
            let zero = solution.numbers[0];
            Ok(Value::Int((solution.numbers[number as usize + 1] - zero) as i64))
        }
        Domain::Text { .. } => {
            let label = solution.labels[number as usize];
            Ok(Value::Text(solution.texts[label as usize].copy(alloc)?))
        }
    }
}
