//! The laws, each the contract of a function without code.
ghost use Rattle.accepted_maps.specs.Complete.{AcceptedMapsAreComplete};
ghost use Rattle.accepted_maps.specs.Still.{AcceptedMapsAreStill};

/// A map that no rule refuses gives states and invariants what uses no input.
pub fn accepted_maps_are_still()
    ensures { AcceptedMapsAreStill }
{}

/// It has an entry for each instruction of the model's top, with a bound of at least one cycle.
pub fn accepted_maps_are_complete()
    ensures { AcceptedMapsAreComplete }
{}
