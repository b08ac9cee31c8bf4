//! The comparison operators.
ghost use Rattle.std.specs.Prelude.{◌≡◌};
ghost use Rattle.lint_tables.specs.Operators.{negation, mirror};
ghost use Rattle.lint_tables.specs.Ways.{ways_of};

/// A comparison operator: `=`, `<>`, `<`, `<=`, `>`, `>=`.
#[derive(Clone, Copy, Debug, PartialEq, Eq)]
pub enum Op {
    Eq,
    Ne,
    Lt,
    Le,
    Gt,
    Ge,
}

/// A difference bound between the sides a and b of a comparison of whole numbers: a - b is at most
/// minus `less`.
#[derive(Clone, Copy, Debug, PartialEq, Eq)]
pub struct Way {
    /// Whether it bounds b - a instead.
    pub swapped: bool,
    /// By how much the lesser side lies below the other at least: 0 or 1 for an operator.
    pub less: u8,
}

/// The one or two difference bounds that state an operator.
#[derive(Clone, Copy, Debug, PartialEq, Eq)]
pub struct Ways {
    pub one: Way,
    pub two: Option<Way>,
    /// Whether all ways must hold, or one of the two is enough.
    pub all: bool,
}

const BELOW: Way = Way {
    swapped: false,
    less: 1,
};

const AT_MOST: Way = Way {
    swapped: false,
    less: 0,
};

const ABOVE: Way = Way {
    swapped: true,
    less: 1,
};

const AT_LEAST: Way = Way {
    swapped: true,
    less: 0,
};

/// One arm for each operator.
macro_rules! turned {
    ($op:expr; $($from:ident => $to:ident),*) => {
        match $op {
            $(Op::$from => Op::$to,)*
        }
    };
}

/// The ways of each operator: the first, the second, and whether all must hold.
macro_rules! ways {
    ($op:expr; $($from:ident => $one:expr, $two:expr, $all:expr);*) => {
        match $op {
            $(Op::$from => Ways {
                one: $one,
                two: $two,
                all: $all,
            },)*
        }
    };
}

impl Op {
    /// The operator that holds exactly where this one does not.
    pub fn negated(self) -> Op
        ensures { result ≡ negation self }
    {
        turned!(self; Eq => Ne, Ne => Eq, Lt => Ge, Le => Gt, Gt => Le, Ge => Lt)
    }

    /// The operator with its sides exchanged.
    pub fn mirrored(self) -> Op
        ensures { result ≡ mirror self }
    {
        turned!(self; Eq => Eq, Ne => Ne, Lt => Gt, Le => Ge, Gt => Lt, Ge => Le)
    }

    /// The difference bounds between its sides that hold exactly where it holds of whole numbers.
    pub fn ways(self) -> Ways
        ensures { result ≡ ways_of self }
    {
        ways!(self;
            Eq => AT_MOST, Some(AT_LEAST), true;
            Ne => BELOW, Some(ABOVE), false;
            Lt => BELOW, None, true;
            Le => AT_MOST, None, true;
            Gt => ABOVE, None, true;
            Ge => AT_LEAST, None, true
        )
    }
}
