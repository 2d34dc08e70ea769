//! The laws, each the contract of a function without code.
ghost use Rattle.flat_fitting.specs.Fitting.{UnbrokenDriversAreFit, FlatItemsAreFit};

/// In a scope that fits words, items whose drivers break none of the rules on expressions have what is asked for before two drivers, bits
/// without drivers, latches, lists of events and loops are looked for.
pub fn unbroken_drivers_are_fit()
    ensures { UnbrokenDriversAreFit }
{}

/// Items with the drivers of a design in one scope have it, where its modules break none of these rules.
pub fn flat_items_are_fit()
    ensures { FlatItemsAreFit }
{}
