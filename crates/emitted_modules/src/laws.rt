//! The laws, each the contract of a function without code.
ghost use Rattle.emitted_modules.specs.Laws.{FlatModelsAreEmitted, StoresAreStored};

/// The emitted module of a model without child programs is one: it has the model's ports and registers, and each of its runs follows the
/// model.
pub fn flat_models_are_emitted()
    ensures { FlatModelsAreEmitted }
{}

/// Every store of terms keeps what is asked of the graph of such a model.
pub fn stores_are_stored()
    ensures { StoresAreStored }
{}
