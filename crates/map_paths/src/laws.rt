//! What dotted names mean, as laws without code.

ghost use Rattle.map_paths.specs.Laws.{LocatedNamesHaveTheirMeaning, LocatedNamesAreDotted, DottedNamesAreLocated};

/// A dotted name means in a design what its last part means in the module to which the other parts lead; where they lead nowhere, nothing.
pub fn located_names_have_their_meaning()
    ensures { LocatedNamesHaveTheirMeaning }
{}

/// A name that leads to a module and a name is the dotted name of that name there; and where no part has a dot, the dotted name of a name
/// leads to it and its module.
pub fn located_names_are_dotted_names()
    ensures are_dotted { LocatedNamesAreDotted }
    ensures are_located { DottedNamesAreLocated }
{}
