//! The laws, each the contract of a function without code.
ghost use Rattle.input_free.specs.Free.{InputsAreNotSeen, ValuesAreInputFree, ConditionsAreInputFree, MemoriesAreInputFree};
ghost use Rattle.input_free.specs.Still.{StillMapsStandStill};

/// Where two valuations of an accepted design have settled for the same registers, they have the same bits but for those that come from
/// inputs.
pub fn inputs_are_not_seen()
    ensures { InputsAreNotSeen }
{}

/// An expression of a map that uses no input has one value in both.
pub fn states_and_invariants_do_not_depend_on_inputs()
    ensures values { ValuesAreInputFree }
    ensures conditions { ConditionsAreInputFree }
{}

/// A memory has the same words in both.
pub fn memories_do_not_depend_on_inputs()
    ensures { MemoriesAreInputFree }
{}

/// Where what is mapped to states and invariants uses no input, their terms are worth the same under all inputs.
pub fn still_maps_stand_still()
    ensures { StillMapsStandStill }
{}
