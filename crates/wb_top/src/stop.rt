//! Why a call has no outcome.

ghost use Rattle.std.specs.Prelude.{◌≡◌};
ghost use Rattle.wb_top.specs.declared.stop.Stop.TheVariants as stops;

use std::alloc::{AllocError, AllocFailed};
use wb_outside::ReadStop;

/// Want of memory.
pub(crate) type NoMemory = AllocError;

/// Why a call has no outcome.
#[derive(Clone, Copy, PartialEq, Eq, Debug)]
pub(crate) enum Stop {
    /// A file could not be read.
    ReadFault,
    /// Memory could not be found.
    NoMemory,
}

impl From<AllocError> for Stop {
    ghost from_gives = { λ _ stop. stop ≡ stops.NoMemory };

    fn from(_error: AllocError) -> Stop {
        Stop::NoMemory
    }
}

impl<T: Drop> From<AllocFailed<T>> for Stop {
    ghost from_gives = { λ _ stop. stop ≡ stops.NoMemory };

    fn from(_error: AllocFailed<T>) -> Stop {
        Stop::NoMemory
    }
}

impl From<ReadStop> for Stop {
    ghost use Rattle.wb_top.specs.Stops.{stop_of};

    ghost from_gives = { λ error stop. stop ≡ stop_of error };

    fn from(error: ReadStop) -> Stop {
        match error {
            ReadStop::Failed => Stop::ReadFault,
            ReadStop::NoMemory => Stop::NoMemory,
        }
    }
}
