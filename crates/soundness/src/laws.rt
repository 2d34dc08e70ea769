//! The laws of soundness, the contracts of functions without code.
ghost use Rattle.refinement.specs.Soundness.{ObligationsGiveRefinement};
ghost use Rattle.soundness.specs.Invariants.{ObligationsKeepInvariants};

/// Where each instruction has an entry in the map with a bound above 0 and all obligations hold, every run of the design, of
/// any length and from any first registers, that is from reset and has one command in flight, refines the model.
pub fn obligations_give_refinement()
    ensures { ObligationsGiveRefinement }
{}

/// Where each instruction has an entry in the map with a bound above 0 and all obligations hold, each invariant holds at each idle cycle
/// of every such run.
pub fn obligations_keep_invariants()
    ensures { ObligationsKeepInvariants }
{}
