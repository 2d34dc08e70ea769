//! The limits of a check.

ghost use Rattle.std.specs.Prelude.{option_map};
ghost use Rattle.ila_model.specs.Model.{model_of};
ghost use Rattle.model_meaning.specs.Model.{instructions_in};
ghost use Rattle.v_design.specs.Seen.{parts_of};
ghost use Rattle.check_limits.specs.Limits.{IsLimit, IsUnrolledLimit};
ghost use Rattle.check_limits.specs.View.{as_limit};

use crate::memories::{bits_of_registers, bits_of_states};
use ila_model::IlaModel;
use model_terms::unrolled_steps;
use v_design::Design;

/// A limit that a model and a design are over.
#[derive(Clone, Copy, PartialEq, Eq, Debug)]
pub enum Limit {
    /// The memory bits of both together, over 16,384.
    Memory(u128),
    /// The unrolled micro-steps of an instruction, over 4,096.
    Unroll(u64),
}

/// The memory bits of a model and a design may be so many.
const MOST_MEMORY_BITS: u128 = 16_384;

/// An instruction may take so many unrolled micro-steps.
const MOST_UNROLLED_STEPS: u64 = 4_096;

/// The unrolled micro-steps of the first instruction that takes too many.
fn first_over(model: &IlaModel) -> Option<u64>
    ensures { IsUnrolledLimit (instructions_in (model_of model.now).top) result }
{
    for number in 0..model.parts.instructions.len() {
        let steps = unrolled_steps(model, number);
        if steps > MOST_UNROLLED_STEPS {
            return Some(steps);
        }
    }
    None
}

/// The limit that a model and a design are over, if they are over one: first the memory bits of both together, of each memory its words
/// times their bits; then the unrolled micro-steps of the first instruction that takes too many.
pub fn limit_of(model: &IlaModel, design: &Design) -> Option<Limit>
    ensures { IsLimit (model_of model.now) (parts_of design.now) (option_map as_limit result) }
{
    let bits = bits_of_states(model) + bits_of_registers(design);
    if bits > MOST_MEMORY_BITS {
        return Some(Limit::Memory(bits));
    }
    match first_over(model) {
        Some(steps) => Some(Limit::Unroll(steps)),
        None => None,
    }
}
