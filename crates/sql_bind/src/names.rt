//! Tables of names, which are looked up by a hash.
ghost use Rattle.std.specs.Prelude.{◌≡◌, [], not, is_some, IfOk, OnOk, OnErr};
ghost use Rattle.sql_bind.specs.inner.NameTables.{name_place, with_name};

use indexmap::IndexSet;
use lint_base::{NoMemory, Str};
use std::alloc::Global;
use std::marker::Model;

/// Names, each once, in the order in which they were added.
#[derive(Drop)]
pub(crate) struct NameTable<'a> {
    names: IndexSet<&'a str>,
}

impl<'a> Model for NameTable<'a> {
    ghost use Rattle.std.specs.Prelude.{List, ℕ, map, ◌≡◌, true, encode_utf8_all};
    ghost use Rattle.std.specs.List.{list_all};
    ghost use Rattle.std.specs.Str.{chars, bytes_eq};

    ghost Value = { List (List ℕ) };

    ghost view = { λ t. map (λ name. chars name.now) t.names.keys };

    // each is the text of its characters
    ghost invariant = { λ t. list_all (λ name. bytes_eq (encode_utf8_all (chars name.now)) name.now) t.names.keys ≡ true };
}

impl<'a> NameTable<'a> {
    /// No names. It takes no memory.
    pub(crate) fn new(alloc: Global) -> NameTable<'a>
        ensures { result ≡ [] }
    {
        NameTable {
            names: IndexSet::new(alloc),
        }
    }

    /// Adds a name if it is not there, and tells whether it was not.
    pub(crate) fn add(&mut self, name: &'a Str) -> Result<bool, NoMemory>
        ensures added { IfOk result (λ new. new ≡ not (is_some (name_place self.old name.now))) }
        ensures names { OnOk result
            (self.new ≡ with_name (name_place self.old name.now) self.old name.now) }
        ensures err { OnErr result (self.new ≡ self.old) }
    {
        let new = self.names.insert(name.as_str())?;
        Ok(new)
    }

    /// The number of a name.
    pub(crate) fn place(&self, name: &Str) -> Option<usize>
        ensures { result ≡ name_place self.now name.now }
    {
        self.names.get_index_of(name.as_str())
    }
}
