//! The laws, each the contract of a function without code.
ghost use Rattle.driver_places.specs.Two.{TwoDriversAreTwoSets, BadDriversAreInPlaces};

/// A bit or a memory of a module has two drivers exactly where two sets of the module's drivers meet, those of outputs of its instances
/// among them; and a design breaks the rule on drivers exactly where in some module two meet or a name is assigned where it may not be.
pub fn bad_drivers_are_in_places()
    ensures two { TwoDriversAreTwoSets }
    ensures places { BadDriversAreInPlaces }
{}
