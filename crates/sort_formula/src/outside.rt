//! The quantifiers outside a formula, linked from the inside out.
ghost use Rattle.std.specs.Prelude.{◌≡◌, ◌<◌, ◌+◌, length, IfOk, IfErr, slice_get, Some};
ghost use Rattle.sort_formula.specs.Sentences.{is_variable, are_of_one_table};
ghost use Rattle.sort_formula.specs.inner.Standing.{tables_outside};

/// The tables of the quantifiers outside.
#[derive(Drop)]
pub(crate) enum Outside<'a> {
    Nothing,
    /// A quantifier over the table, inside others.
    Quantifier { table: u32, outer: &'a Outside<'a> },
}

impl Outside<'_> {
    /// The table of a variable; where it is not bound, how many quantifiers further in it would
    /// be.
    fn look_up(&self, row: u32) -> Result<u32, u32>
        ensures there { IfOk result (λ table. (row < length (tables_outside self.now))
            × (slice_get (tables_outside self.now) row ≡ Some table)) }
        ensures further { IfErr result (λ more. more + length (tables_outside self.now) ≡ row) }
    {
        match self {
            Outside::Nothing => Err(row),
            Outside::Quantifier { table, outer } => match outer.look_up(row) {
                Ok(found) => Ok(found),
                Err(0) => Ok(*table),
                Err(further) => Err(further - 1),
            },
        }
    }

    /// The table of a variable, if it is bound.
    pub(crate) fn table_of(&self, row: u32) -> Option<u32>
        ensures { result ≡ slice_get (tables_outside self.now) row }
    {
        match self.look_up(row) {
            Ok(table) => Some(table),
            Err(_) => None,
        }
    }

    pub(crate) fn has(&self, row: u32) -> bool
        ensures { result ≡ is_variable (tables_outside self.now) row }
    {
        self.look_up(row).is_ok()
    }

    /// Whether two variables are bound, and of one table.
    pub(crate) fn has_as_one(&self, row: u32, other: u32) -> bool
        ensures { result ≡ are_of_one_table (tables_outside self.now) row other }
    {
        match (self.table_of(row), self.table_of(other)) {
            (Some(table), Some(other)) => table == other,
            _ => false,
        }
    }
}
