//! Why a line of a trace is refused: it is bad, with a code, or there is no memory for it.
ghost use Rattle.std.specs.Prelude.{◌≡◌};
ghost use Rattle.lb_trace.specs.declared.line_error.LineError.TheVariants.{Bad as bad, NoMemory as no_memory};

use crate::trace::Code;
use lb_base::NoMemory;

/// Why a line was not taken.
#[derive(Clone, Copy, Debug, PartialEq, Eq)]
pub enum LineError {
    /// It is bad, and this is the first code that holds of it.
    Bad(Code),
    /// Memory ran out.
    NoMemory,
}

impl From<Code> for LineError {
    ghost from_gives = { λ code made. made ≡ bad code };

    fn from(code: Code) -> Self {
        LineError::Bad(code)
    }
}

impl From<NoMemory> for LineError {
    ghost from_gives = { λ _ made. made ≡ no_memory };

    fn from(_: NoMemory) -> Self {
        LineError::NoMemory
    }
}
