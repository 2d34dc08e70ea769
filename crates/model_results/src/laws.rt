//! The laws, each the contract of a function without code.

ghost use Rattle.model_results.specs.Results.{InstructionDoesItsResult, ModelDoesItsResult};

/// An instruction leads from a point to another exactly where its result ends there.
pub fn an_instruction_does_its_result()
    ensures { InstructionDoesItsResult }
{}

/// An instruction of a model leads from a state under inputs to another exactly where its result ends there.
pub fn a_model_does_its_result()
    ensures { ModelDoesItsResult }
{}
