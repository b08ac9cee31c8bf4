//! A record of the bytes that a writer took, which only contracts read. It is a word of its owner
//! alone: a clause of the owner's ties it to what the writer holds.
ghost use Rattle.std.specs.Prelude.{◌≡◌, ℕ, List, [], ◌++◌};
ghost use Rattle.std.specs.Borrow.{ftrue};

use std::marker::{Model, PhantomData};

/// The bytes that were taken so far. It takes no memory, and its methods do nothing when they run.
#[derive(Drop)]
pub struct Taken {
    marker: PhantomData<u8>,
    pub ghost bytes: { List ℕ },
}

impl Model for Taken {
    ghost also_owns = { λ _. ftrue };
}

impl Taken {
    /// No bytes.
    pub fn new() -> Taken
        ensures { result.bytes ≡ [] }
    {
        Taken {
            marker: PhantomData,
        }
    }

    /// Notes that these bytes were taken too.
    pub fn note(&mut self, _bytes: &[u8])
        ensures { self.new.bytes ≡ self.old.bytes ++ _bytes.now }
    {}
}
