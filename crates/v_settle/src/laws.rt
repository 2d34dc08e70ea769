//! What the evaluation means for a design of one module, as laws without code.

ghost use Rattle.v_settle.specs.Designs.{SettlesFromOutside, SettlesWithItsModule, AcceptedHasOneDriver, NoParameterIsMemory, AcceptedIsEvaluable};

use v_write::laws::unbroken_statements_are_sound;

/// Where a design without parameters and instances has settled for registers and inputs, its module has settled from what they give it;
/// and back, where the design is accepted but for loops.
pub fn a_design_of_one_module_settles_from_outside()
    ensures there { SettlesFromOutside }
    ensures back { SettlesWithItsModule }
{}

/// An accepted module meets two of the conditions: a bit has one driver at most, and no parameter is a memory.
pub fn an_accepted_module_has_one_driver_for_a_bit()
    ensures one_driver { AcceptedHasOneDriver }
    ensures parameters { NoParameterIsMemory }
{}

/// A module that is an accepted design by itself can be evaluated, where its names have at most 128 bits and its drivers can be run.
pub fn an_accepted_module_can_be_evaluated()
    ensures { AcceptedIsEvaluable }
{
    unbroken_statements_are_sound();
}
