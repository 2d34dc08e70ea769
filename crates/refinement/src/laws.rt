//! Obligations of small models and maps, each the contract of a function without code.
ghost use Rattle.std.specs.Prelude.{◌≡◌, length};
ghost use Rattle.model_meaning.specs.Worked.{multiplier, always};
ghost use Rattle.refinement.specs.Obligation.{obligations};
ghost use Rattle.refinement.specs.Worked.{CounterHasItsObligations, multiplier_map};

/// The counter has its seven obligations, by name and in order.
pub fn counter_has_its_obligations()
    ensures { CounterHasItsObligations }
{}

/// The multiplier has 19 obligations where its bound is 6, and 17 where it is 5.
pub fn multiplier_has_its_obligations()
    ensures six { length (obligations (multiplier always 4) (multiplier_map 6)) ≡ 19 }
    ensures five { length (obligations (multiplier always 4) (multiplier_map 5)) ≡ 17 }
{}
