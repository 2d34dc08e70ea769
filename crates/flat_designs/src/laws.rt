//! The laws, each the contract of a function without code.
ghost use Rattle.flat_designs.specs.Flat.{DottedNamesAreANaming};
ghost use Rattle.flat_designs.specs.Laws.{SettledSolvesTheFlat, FlatSolvesEachModule, BitsAreDrivenTheSame};
ghost use Rattle.flat_designs.specs.Depending.{BitsDependOnTheSame};
ghost use Rattle.flat_designs.specs.Edge.{EdgeLeavesTheSame, ModulesInTurnAreInTextOrder};

/// Dotted names are a naming of the names of all modules, where no name has a dot.
pub fn dotted_names_are_a_naming()
    ensures { DottedNamesAreANaming }
{}

/// The equations of the flat drivers hold exactly where those of all modules that stand in the design do; so a settled valuation solves
/// them.
pub fn flat_equations_are_those_of_the_modules()
    ensures settled { SettledSolvesTheFlat }
    ensures each { FlatSolvesEachModule }
{}

/// A bit of a module is driven by the flat drivers as it is in the design.
pub fn flat_drivers_drive_the_same_bits()
    ensures driven { BitsAreDrivenTheSame }
{}

/// Bits of modules depend on each other through the flat drivers as they do in the design, and there is a loop among the flat drivers
/// exactly where the design has one.
pub fn bits_depend_on_the_same_bits()
    ensures depend { BitsDependOnTheSame }
{}

/// At the clock's edge the flat clocked blocks leave under each name of a module what the module's own do, where each module's stand in
/// the order of its text; so they do where the modules stand one after the other.
pub fn the_edge_leaves_the_same()
    ensures edge { EdgeLeavesTheSame }
    ensures in_turn { ModulesInTurnAreInTextOrder }
{}
