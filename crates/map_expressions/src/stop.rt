//! Why a text is read as no expression.

ghost use Rattle.std.specs.Prelude.{◌≡◌};
ghost use Rattle.map_expressions.specs.declared.stop.TextStop.TheVariants.{NoMemory};

use std::alloc::{AllocError, AllocFailed};
use v_lex::Note;

/// Why a text is read as no expression.
#[derive(Drop)]
pub enum TextStop {
    /// It has no tokens, or they spell no expression. The note leads to the place in the text, as `line 1 column 7: &&` or
    /// `line 1 column 2: after f: (cnt)`.
    Refused(Note),
    /// Memory ran out, which says nothing of the text.
    NoMemory,
}

impl From<AllocError> for TextStop {
    ghost from_gives = { λ _ e. e ≡ NoMemory };

    fn from(_e: AllocError) -> TextStop {
        TextStop::NoMemory
    }
}

impl<T: Drop> From<AllocFailed<T>> for TextStop {
    ghost from_gives = { λ _ e. e ≡ NoMemory };

    fn from(_e: AllocFailed<T>) -> TextStop {
        TextStop::NoMemory
    }
}
