//! A record of what was asked of a shelf and what it gave, which only contracts read.
ghost use Rattle.std.specs.Prelude.{◌≡◌, List, [], ◌∷◌};
ghost use Rattle.std.specs.Borrow.{ftrue};
ghost use Rattle.lint_base.specs.Trace.{Moment, Opened, Refused, Gave, moment_of};

use std::marker::{Model, PhantomData};

const OPENED: u64 = 0;

const REFUSED: u64 = 1;

const GAVE: u64 = 2;

/// What was asked and given so far, the latest first. It takes no memory, and its methods do
/// nothing when they run.
#[derive(Drop)]
pub struct Trace {
    marker: PhantomData<u8>,
    pub ghost moments: { List Moment },
}

impl Model for Trace {
    ghost also_owns = { λ _. ftrue };
}

impl Trace {
    /// The empty trace.
    pub fn new() -> Trace
        ensures { result.moments ≡ [] }
    {
        Trace {
            marker: PhantomData,
        }
    }

    /// Notes that the path was opened.
    pub fn opened(&mut self, path: &str)
        ensures { self.new.moments ≡ Opened path.now ∷ self.old.moments }
    {
        self.note(&[OPENED], path.as_bytes());
    }

    /// Notes that the path was not opened.
    pub fn refused(&mut self, path: &str)
        ensures { self.new.moments ≡ Refused path.now ∷ self.old.moments }
    {
        self.note(&[REFUSED], path.as_bytes());
    }

    /// Notes that a read gave so many bytes.
    pub fn gave(&mut self, count: usize)
        ensures { self.new.moments ≡ Gave count ∷ self.old.moments }
    {
        self.note(&[GAVE, count as u64], &[]);
    }

    fn note(&mut self, _numbers: &[u64], _bytes: &[u8])
        ensures { self.new.moments ≡ moment_of _numbers.now _bytes.now ∷ self.old.moments }
    {}
}
