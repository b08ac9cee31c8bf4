//! CHECKs as sentences.
ghost use Rattle.std.specs.Prelude.{◌≡◌, ◌∷◌, ◌^◌, [], true, IfOk};
ghost use Rattle.lint_core.specs.Fits.{check_fits};
ghost use Rattle.sort_formula.specs.Axioms.{plain};
ghost use Rattle.sort_formula.specs.Negated.{negated};
ghost use Rattle.sort_formula.specs.Translation.{is_false_formula};
ghost use Rattle.sort_formula.specs.declared.formula.Formula.TheVariants as f;
ghost use Rattle.constraint_axioms.specs.Spoken.{spoken};
ghost use Rattle.sort_formula.specs.Bounds.{is_within};
ghost use Rattle.truth_formula.specs.Scopes.{CanStand};

use crate::axiom::Axiom;
use crate::sentences::plain;
use lint_base::{Items, NoMemory};
use lint_core::{Cond, Schema};
use sort_formula::{Formula, for_all, negate};
use std::alloc::Global;
use truth_formula::{Scope, is_false};
use truth_laws::formulas_fit;

fn only(alloc: Global, number: u32) -> Result<Items<Items<u32>>, NoMemory>
    ensures { IfOk result (λ levels. levels ≡ (number ∷ []) ∷ []) }
{
    let mut level = Items::new(alloc);
    level.push(number)?;
    let mut levels = Items::new(alloc);
    levels.push(level)?;
    Ok(levels)
}

/// The one row of a table, at which a CHECK is asked.
fn row_scope(alloc: Global, number: u32) -> Result<Scope, NoMemory>
    ensures { IfOk result
        (λ scope. scope ≡ record {
          levels = (0 ∷ []) ∷ [];
          tables = (number ∷ [])
              ∷ [];
          depth = 1;
        }) }
{
    Ok(Scope {
        levels: only(alloc, 0)?,
        tables: only(alloc, number)?,
        depth: 1,
    })
}

/// The CHECK is not false there.
fn is_kept(alloc: Global, schema: &Schema, check: &Cond, scope: &Scope) -> Result<Formula, NoMemory>
    requires { CanStand schema.now check.now scope.now }
    ensures formula { IfOk result
        (λ formula. formula ≡ negated (is_false_formula schema.now check.now scope.now)) }
    ensures bounds { IfOk result
        (λ _. is_within (2 ^ 65) (is_false_formula schema.now check.now scope.now) ≡ true) }
{
    negate(alloc, &is_false(alloc, schema, check, scope)?)
}

/// The CHECK is false at no row of the table.
pub(crate) fn check_axiom(
    alloc: Global,
    schema: &Schema,
    number: u32,
    check: &Cond,
) -> Result<Axiom, NoMemory>
    requires { check_fits schema.now number check.now ≡ true }
    ensures { IfOk result
        (λ stated. spoken stated
        ≡ plain (f.Forall number
        (negated (is_false_formula schema.now check.now
        (record { levels = (0 ∷ []) ∷ []; tables = (number ∷ []) ∷ []; depth = 1 }))))) }
{
    formulas_fit();
    let scope = row_scope(alloc, number)?;
    let kept = is_kept(alloc, schema, check, &scope)?;
    Ok(plain(for_all(alloc, number, kept)?))
}
