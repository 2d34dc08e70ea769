//! The laws, each the contract of a function without code.
ghost use Rattle.flat_drivers.specs.Reading.{BitsAreReadTheSame, UndrivenBitsAreTheSame};

/// A bit of a module is read in the design exactly where the flat drivers read it, or it is a bit of an output of the top; and the design
/// has a bit that is read and has no driver exactly where the flat drivers leave one without.
pub fn flat_drivers_read_the_same_bits()
    ensures read { BitsAreReadTheSame }
    ensures undriven { UndrivenBitsAreTheSame }
{}
