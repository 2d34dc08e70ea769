//! Why no design is emitted.

ghost use Rattle.std.specs.Prelude.{◌≡◌};
ghost use Rattle.ila_emit.specs.declared.stop.EmitStop.TheVariants.{NoMemory};

use std::alloc::AllocError;

/// Why no design is emitted for a model.
#[derive(Drop)]
pub enum EmitStop {
    /// The model has child programs, which are not emitted yet.
    NotYet,
    /// Memory ran out, which says nothing of the model.
    NoMemory,
}

impl From<AllocError> for EmitStop {
    ghost from_gives = { λ _ e. e ≡ NoMemory };

    fn from(_e: AllocError) -> EmitStop {
        EmitStop::NoMemory
    }
}
