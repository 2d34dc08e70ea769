//! The laws, each the contract of a function without code.
ghost use Rattle.place_kinds.specs.Known.{KnownModulesAreSpots, PlacesArePlaced, PlacedAreNumbered};
ghost use Rattle.place_kinds.specs.Blocks.{PlacesAreReady, EventListsAreAtPlaces, BlockingIsAtPlaces, NonblockingIsAtPlaces, LatchesAreAtPlaces};
ghost use Rattle.place_kinds.specs.Drivers.{ListsAreAllDriven, DrivenPlacesAreReady, BadDriversAreAtPlaces, BadNamesAreFound};
ghost use Rattle.place_kinds.specs.Flat.{FlatDesignsAreReady, UndrivenBitsAreFlat, LoopsAreFlat};

/// A test of modules with known constants is passed by some module of a design exactly where some module of a list of its places passes it.
pub fn known_modules_are_spots()
    ensures { KnownModulesAreSpots }
{}

/// Where the rules on names, digits, constants, widths, selects and memories hold, a list of the places of a design has its modules as they
/// stand in it, with the values of all their parameters.
pub fn places_are_placed()
    ensures placing { PlacesArePlaced }
    ensures numbered { PlacedAreNumbered }
{}

/// Blocks may be looked at in each of these modules, and the design breaks a rule on blocks exactly where one of them does.
pub fn block_kinds_are_at_places()
    ensures ready { PlacesAreReady }
    ensures events { EventListsAreAtPlaces }
    ensures blocking { BlockingIsAtPlaces }
    ensures nonblocking { NonblockingIsAtPlaces }
    ensures latches { LatchesAreAtPlaces }
{}

/// Two drivers, and names that may not be assigned, may be looked for in lists of all that these modules drive, as `v_flat` makes them, and
/// the design breaks the rule on drivers exactly where one of these lists does.
pub fn bad_drivers_are_at_places()
    ensures lists { ListsAreAllDriven }
    ensures ready { DrivenPlacesAreReady }
    ensures drivers { BadDriversAreAtPlaces }
    ensures names { BadNamesAreFound }
{}

/// Bits without drivers and loops may be looked for in the one scope of such a design, and the design has one exactly where one is found
/// there.
pub fn flat_kinds_are_kinds_of_the_design()
    ensures ready { FlatDesignsAreReady }
    ensures undriven { UndrivenBitsAreFlat }
    ensures loops { LoopsAreFlat }
{}
