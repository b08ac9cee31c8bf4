//! Steps that take a fact of the branch in hand apart.
ghost use Rattle.std.specs.Prelude.{◌≡◌, ◌^◌, true, false, Some, None, [], ◌∷◌, ◌++◌, IfOk, OnOk, if◌then◌else◌, map, slice_get, nat_eq};
ghost use Rattle.std.specs.List.{list_all};
ghost use Rattle.std.specs.Option.{option_map_or};
ghost use Rattle.sort_formula.specs.Bounds.{is_within};
ghost use Rattle.sort_formula.specs.Certificate.{fact_of, opened, with_parts, with_row, at_row};
ghost use Rattle.cert_checker.specs.inner.Seen.{branch_of};
ghost use Rattle.cert_checker.specs.inner.Branches.{Extends};

use crate::facts::{Open, Stated};
use lint_base::NoMemory;
use sort_formula::Formula;
use std::alloc::Global;

impl<'a> Stated<'a> {
    fn copy_rows(&self, alloc: Global) -> Result<Vec<usize>, NoMemory>
        ensures { IfOk result (λ rows. rows.items ≡ self.now.rows) }
    {
        let mut rows = Vec::new(alloc);
        rows.extend_from_slice(self.rows())?;
        Ok(rows)
    }

    /// Another formula at the same rows.
    pub(crate) fn part(&self, alloc: Global, formula: &'a Formula) -> Result<Stated<'a>, NoMemory>
        requires { is_within (2 ^ 66) formula.now ≡ true }
        ensures { IfOk result (λ part. part ≡ fact_of self.now.rows formula.now) }
    {
        Ok(Stated::new(formula, self.copy_rows(alloc)?))
    }

    /// Another formula at the same rows and one more.
    fn part_at(
        &self,
        alloc: Global,
        formula: &'a Formula,
        row: usize,
    ) -> Result<Stated<'a>, NoMemory>
        requires { is_within (2 ^ 66) formula.now ≡ true }
        ensures { IfOk result (λ part. part ≡ fact_of (self.now.rows ++ row ∷ []) formula.now) }
    {
        let mut rows = self.copy_rows(alloc)?;
        rows.push(row)?;
        Ok(Stated::new(formula, rows))
    }
}

impl<'a> Open<'a> {
    /// A copy of a fact, if there is one of this number.
    pub(crate) fn fact(&self, alloc: Global, fact: u32) -> Result<Option<Stated<'a>>, NoMemory>
        ensures { IfOk result (λ found. found ≡ slice_get self.now.facts.items fact) }
    {
        match self.facts.get(fact as usize) {
            Some(stated) => Ok(Some(stated.part(alloc, stated.formula())?)),
            None => Ok(None),
        }
    }

    /// Adds formulas at the rows of a fact.
    fn add_parts(
        &mut self,
        alloc: Global,
        whole: &Stated<'a>,
        parts: &'a [Formula],
    ) -> Result<(), NoMemory>
        requires { list_all (is_within (2 ^ 66)) parts.now ≡ true }
        ensures facts { OnOk result (self.new.facts.items
            ≡ self.old.facts.items ++ map (fact_of whole.now.rows) parts.now) }
        ensures tables { self.new.tables ≡ self.old.tables }
    {
        for part in parts {
            self.facts.push(whole.part(alloc, part)?)?;
        }
        Ok(())
    }

    /// Takes a conjunction apart; no where the fact is none.
    pub(crate) fn take_apart(&mut self, alloc: Global, fact: u32) -> Result<bool, NoMemory>
        ensures opened { IfOk result (λ right. opened (branch_of self.old) fact with_parts
            ≡ (if right then Some (branch_of self.new ∷ []) else None)) }
        ensures extends { OnOk result (Extends self.old self.new) }
    {
        let Some(whole) = self.fact(alloc, fact)? else {
            return Ok(false);
        };
        let Formula::And(parts) = whole.formula() else {
            return Ok(false);
        };
        self.add_parts(alloc, &whole, parts.as_slice())?;
        Ok(true)
    }

    /// Takes a new row, of which the fact says that it is there; no where it says none.
    pub(crate) fn take_row(&mut self, alloc: Global, fact: u32) -> Result<bool, NoMemory>
        ensures opened { IfOk result (λ right. opened (branch_of self.old) fact with_row
            ≡ (if right then Some (branch_of self.new ∷ []) else None)) }
        ensures extends { OnOk result (Extends self.old self.new) }
    {
        let Some(whole) = self.fact(alloc, fact)? else {
            return Ok(false);
        };
        let Formula::Exists { table, body } = whole.formula() else {
            return Ok(false);
        };
        let row = self.tables.len();
        self.facts.push(whole.part_at(alloc, body.get(), row)?)?;
        self.tables.push(*table)?;
        Ok(true)
    }

    /// Whether there is such a row, and it is of the table.
    fn is_row_of(&self, row: u32, table: u32) -> bool
        ensures { result ≡ option_map_or (nat_eq table) (slice_get self.now.tables.items row)
            false }
    {
        match self.tables.get(row as usize) {
            Some(other) => table == *other,
            None => false,
        }
    }

    /// Says of a row what the fact says of each row of its table; no where it says nothing of
    /// that row.
    pub(crate) fn say_of_row(
        &mut self,
        alloc: Global,
        fact: u32,
        row: u32,
    ) -> Result<bool, NoMemory>
        ensures opened { IfOk result (λ right. opened (branch_of self.old) fact (at_row row)
            ≡ (if right then Some (branch_of self.new ∷ []) else None)) }
        ensures extends { OnOk result (Extends self.old self.new) }
    {
        let Some(whole) = self.fact(alloc, fact)? else {
            return Ok(false);
        };
        let Formula::Forall { table, body } = whole.formula() else {
            return Ok(false);
        };
        if !self.is_row_of(row, *table) {
            return Ok(false);
        }
        self.facts
            .push(whole.part_at(alloc, body.get(), row as usize)?)?;
        Ok(true)
    }
}
