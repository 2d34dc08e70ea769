//! Why words ask for nothing.

ghost use Rattle.std.specs.Prelude.{◌≡◌};
ghost use Rattle.wb_words.specs.declared.stop.WordsStop.TheVariants as stops;

use std::alloc::{AllocError, AllocFailed};

/// Why words ask for nothing.
#[derive(Clone, Copy, PartialEq, Eq, Debug)]
pub enum WordsStop {
    /// The words are none of a command, or ask for help.
    Usage,
    /// Memory could not be found.
    NoMemory,
}

impl From<AllocError> for WordsStop {
    ghost from_gives = { λ _ stop. stop ≡ stops.NoMemory };

    fn from(_error: AllocError) -> WordsStop {
        WordsStop::NoMemory
    }
}

impl<T: Drop> From<AllocFailed<T>> for WordsStop {
    ghost from_gives = { λ _ stop. stop ≡ stops.NoMemory };

    fn from(_error: AllocFailed<T>) -> WordsStop {
        WordsStop::NoMemory
    }
}
