//! Why an evaluation has no answer.
use lint_base::{NoMemory, Span};
use std::alloc::{AllocError, AllocFailed};

/// Why there is no truth.
#[derive(Clone, Copy, Debug, PartialEq, Eq)]
pub enum TruthStop {
    /// The scalar subquery at this place gives two rows.
    TwoRows { span: Span },
    /// Memory ran out.
    NoMemory,
}

impl From<NoMemory> for TruthStop {
    ghost use Rattle.std.specs.Prelude.{◌≡◌};
    ghost use Rattle.sql_meaning.specs.declared.stop.TruthStop.TheVariants as stop;

    ghost from_gives = { λ _ e. e ≡ stop.NoMemory };

    fn from(_error: NoMemory) -> TruthStop {
        TruthStop::NoMemory
    }
}

impl From<AllocError> for TruthStop {
    ghost use Rattle.std.specs.Prelude.{◌≡◌};
    ghost use Rattle.sql_meaning.specs.declared.stop.TruthStop.TheVariants as stop;

    ghost from_gives = { λ _ e. e ≡ stop.NoMemory };

    fn from(_error: AllocError) -> TruthStop {
        TruthStop::NoMemory
    }
}

impl<T: Drop> From<AllocFailed<T>> for TruthStop {
    ghost use Rattle.std.specs.Prelude.{◌≡◌};
    ghost use Rattle.sql_meaning.specs.declared.stop.TruthStop.TheVariants as stop;

    ghost from_gives = { λ _ e. e ≡ stop.NoMemory };

    fn from(_error: AllocFailed<T>) -> TruthStop {
        TruthStop::NoMemory
    }
}
