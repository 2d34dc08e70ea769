//! The emitted design of a model, with its map.

ghost use Rattle.ila_model.specs.Model.{model_of};
ghost use Rattle.ila_emit.specs.Emission.{IsEmission};

use crate::stop::EmitStop;
use emitted_maps::{map_text, nesting_of};
use emitted_texts::emitted_text;
use ila_model::IlaModel;
use std::alloc::Global;

/// A design and its map, as texts.
#[derive(Drop)]
pub struct Emitted {
    /// The Verilog of the design: one module of the model's name.
    pub verilog: String,
    /// The map by which the design refines the model, as compact JSON, without a line feed at the end.
    pub map: String,
}

/// The emitted design of the model, with its map. A model with child programs has none yet. (Parts that hold a child program which no
/// instruction runs come from no file. For them out of memory is answered.)
pub fn emit(alloc: Global, model: &IlaModel) -> Result<Emitted, EmitStop>
    ensures { IsEmission (model_of model.now) result }
{
    if nesting_of(model) > 0 {
        return Err(EmitStop::NotYet);
    }
    if !model.parts.children.is_empty() {
        return Err(EmitStop::NoMemory);
    }
    let verilog = emitted_text(alloc, model)?;
    let map = map_text(alloc, model)?;
    Ok(Emitted { verilog, map })
}
