//! Why reading stops.

ghost use Rattle.std.specs.Prelude.{◌≡◌};
ghost use Rattle.v_expr.specs.declared.stop.ExpressionStop.TheVariants.{NoMemory};

use std::alloc::{AllocError, AllocFailed};

/// Why no expression is read.
#[derive(Clone, Copy, PartialEq, Eq, Debug)]
pub enum ExpressionStop {
    /// There was not enough memory.
    NoMemory,
    /// The tokens do not begin with one: how many of them were left where that was found.
    Refused(usize),
}

impl From<AllocError> for ExpressionStop {
    ghost from_gives = { λ _ e. e ≡ NoMemory };

    fn from(_e: AllocError) -> ExpressionStop {
        ExpressionStop::NoMemory
    }
}

impl<T: Drop> From<AllocFailed<T>> for ExpressionStop {
    ghost from_gives = { λ _ e. e ≡ NoMemory };

    fn from(_e: AllocFailed<T>) -> ExpressionStop {
        ExpressionStop::NoMemory
    }
}
