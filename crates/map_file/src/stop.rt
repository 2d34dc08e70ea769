//! Why a reading stops.

ghost use Rattle.std.specs.Prelude.{◌≡◌};
ghost use Rattle.map_file.specs.declared.stop.Stop.TheVariants.{Memory};

use crate::MapRefusal;
use std::alloc::{AllocError, AllocFailed};

/// Why the bytes of a map file give no map.
#[derive(Drop)]
pub enum MapStop {
    /// A rule refuses them.
    Refused(MapRefusal),
    /// Memory ran out, which says nothing of the bytes.
    NoMemory,
}

/// Why a piece of a file is not read.
#[derive(Clone, Copy, PartialEq, Eq, Debug)]
pub(crate) enum Stop {
    /// Memory ran out.
    Memory,
    /// The piece has another shape.
    Refused,
}

impl From<AllocError> for Stop {
    ghost from_gives = { λ _ e. e ≡ Memory };

    fn from(_e: AllocError) -> Stop {
        Stop::Memory
    }
}

impl<T: Drop> From<AllocFailed<T>> for Stop {
    ghost from_gives = { λ _ e. e ≡ Memory };

    fn from(_e: AllocFailed<T>) -> Stop {
        Stop::Memory
    }
}
