//! The laws, each the contract of a function without code.
ghost use Rattle.emitted_texts.specs.Fitting.{EmittedModulesArePrintable, EmittedModulesAreShallow, StoresAreTyped};

/// The emitted module of a model without child programs can be printed, whichever terms are kept.
pub fn emitted_modules_are_printable()
    ensures { EmittedModulesArePrintable }
{}

/// Nowhere in what is printed of it are more than 200 constructs open.
pub fn emitted_modules_are_shallow()
    ensures { EmittedModulesAreShallow }
{}

/// Every store of terms keeps what is asked of the graph of such a model.
pub fn stores_are_typed()
    ensures { StoresAreTyped }
{}
