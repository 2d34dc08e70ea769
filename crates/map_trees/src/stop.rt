//! Why a text has no tree.

ghost use Rattle.std.specs.Prelude.{◌≡◌};
ghost use Rattle.map_trees.specs.declared.stop.Stop.TheVariants.{NoMemory};

use map_file::MapRefusal;
use std::alloc::{AllocError, AllocFailed};

/// Why a text has no tree.
#[derive(Drop)]
pub(crate) enum Stop {
    /// It is read as no expression.
    Unread(MapRefusal),
    /// Memory ran out.
    NoMemory,
}

impl From<AllocError> for Stop {
    ghost from_gives = { λ _ e. e ≡ NoMemory };

    fn from(_e: AllocError) -> Stop {
        Stop::NoMemory
    }
}

impl<T: Drop> From<AllocFailed<T>> for Stop {
    ghost from_gives = { λ _ e. e ≡ NoMemory };

    fn from(_e: AllocFailed<T>) -> Stop {
        Stop::NoMemory
    }
}
