//! Refusals.
ghost use Rattle.std.specs.Prelude.{◌≡◌, ◌+◌, IfOk};
ghost use Rattle.lint_base.specs.declared.place.TextStop.TheVariants as stop;
ghost use Rattle.lint_base.specs.declared.place.Fault.TheVariants.{TooMany};

use lint_base::{Fault, NoMemory, Refusal, Span, TextStop};

/// The refusal for a fault at a place.
pub(crate) fn refused(fault: Fault, span: Span) -> TextStop
    ensures { result ≡ stop.Refused (record { fault = fault; span = span; count = 0 }) }
{
    TextStop::Refused(Refusal {
        fault,
        span,
        count: 0,
    })
}

/// The refusal of one more than may be, which makes so many.
pub(crate) fn too_many(count: u32, span: Span) -> TextStop
    ensures { result ≡ stop.Refused (record { fault = TooMany; span = span; count = count }) }
{
    TextStop::Refused(Refusal {
        fault: Fault::TooMany,
        span,
        count,
    })
}

/// A number of things that are all in memory. For more than a `u32` counts there is no memory.
pub(crate) fn counted(number: usize) -> Result<u32, NoMemory>
    ensures { IfOk result (λ count. count ≡ number) }
{
    match u32::try_from(number) {
        Ok(count) => Ok(count),
        Err(_) => Err(NoMemory),
    }
}

/// The next number of things that are all in memory.
pub(crate) fn next(number: u32) -> Result<u32, NoMemory>
    ensures { IfOk result (λ next. next ≡ number + 1) }
{
    match number.checked_add(1) {
        Some(next) => Ok(next),
        None => Err(NoMemory),
    }
}
