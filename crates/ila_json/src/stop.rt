//! Why the reading of a model file stops.

ghost use Rattle.std.specs.Prelude.{◌≡◌};
ghost use Rattle.ila_json.specs.declared.stop.ModelStop.TheVariants.{NoMemory};

use ila_rules::ModelRefusal;
use std::alloc::AllocError;

/// Why the bytes of a model file give no model.
#[derive(Drop)]
pub enum ModelStop {
    /// A rule refuses them; they stand for no model.
    Refused(ModelRefusal),
    /// Memory ran out, which says nothing of the bytes.
    NoMemory,
}

impl From<AllocError> for ModelStop {
    ghost from_gives = { λ _ e. e ≡ NoMemory };

    fn from(_e: AllocError) -> ModelStop {
        ModelStop::NoMemory
    }
}
