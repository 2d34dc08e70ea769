//! Why a reading stops.

ghost use Rattle.std.specs.Prelude.{◌≡◌};
ghost use Rattle.ila_file.specs.declared.stop.Stop.TheVariants.{Memory};

use crate::Note;
use std::alloc::{AllocError, AllocFailed};

/// Want of memory.
pub type NoMemory = AllocError;

/// Why a file's data gives no written model.
#[derive(Drop)]
pub enum ShapeStop {
    /// It has the shape of none; the note leads to a place that has another shape.
    Refused(Note),
    /// Memory ran out, which says nothing of the data.
    NoMemory,
}

/// Why a piece of a file is not read.
#[derive(Clone, Copy, PartialEq, Eq, Debug)]
pub(crate) enum Stop {
    /// Memory ran out.
    Memory,
    /// The piece has another shape.
    Refused,
}

impl From<AllocError> for Stop {
    ghost from_gives = { λ _ e. e ≡ Memory };

    fn from(_e: AllocError) -> Stop {
        Stop::Memory
    }
}

impl<T: Drop> From<AllocFailed<T>> for Stop {
    ghost from_gives = { λ _ e. e ≡ Memory };

    fn from(_e: AllocFailed<T>) -> Stop {
        Stop::Memory
    }
}
