//! Why a file was not read, and why a text was not written.
use crate::place::Failed;
use std::alloc::AllocError;
use thiserror::Error;

/// Why a file was not read whole.
#[derive(Clone, Copy, Debug, PartialEq, Eq, Error)]
pub enum ReadStop {
    /// The shelf did not open the path.
    #[error("the file can't be opened")]
    OpenFault,
    /// A read of the open file failed.
    #[error("the file can't be read")]
    ReadFault,
    /// The file holds more bytes than the limit.
    #[error("the file is too long")]
    TooLong,
    /// Memory ran out.
    #[error("out of memory")]
    NoMemory,
}

/// Why a text was not written whole.
#[derive(Clone, Copy, Debug, PartialEq, Eq, Error)]
pub enum WriteStop {
    /// A write to the sink failed.
    #[error("the output can't be written")]
    WriteFault,
}

impl From<AllocError> for ReadStop {
    ghost use Rattle.std.specs.Prelude.{◌≡◌};
    ghost use Rattle.lint_base.specs.declared.stops.ReadStop.TheVariants as stop;

    ghost from_gives = { λ _ e. e ≡ stop.NoMemory };

    fn from(_error: AllocError) -> ReadStop {
        ReadStop::NoMemory
    }
}

impl From<Failed> for WriteStop {
    fn from(_error: Failed) -> WriteStop {
        WriteStop::WriteFault
    }
}
