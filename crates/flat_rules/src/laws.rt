//! The laws, each the contract of a function without code.
ghost use Rattle.flat_rules.specs.SameRules.{ExpressionsBreakTheSame, TargetsBreakTheSame, StatementsBreakTheSame, AssignmentsBreakTheSame};
ghost use Rattle.flat_rules.specs.Sound.{ModulesAreKnown, ObjectsAreInBounds};
ghost use Rattle.flat_rules.specs.Drivers.{FlatDriversBreakNothing, FlatObjectsAreInBounds, FlatScopesAreNarrow};

/// Where the new scope says of the new names what the old one says of the names in a tree, the tree with the new names breaks the same
/// rules on expressions.
pub fn renamed_trees_break_the_same_rules()
    ensures expressions { ExpressionsBreakTheSame }
    ensures targets { TargetsBreakTheSame }
    ensures statements { StatementsBreakTheSame }
    ensures assignments { AssignmentsBreakTheSame }
{}

/// Where modules break none of the rules that are judged before clocks and drivers are looked at, each module is known as it is placed:
/// with the values of its parameters, and with one scope.
pub fn sound_modules_are_known()
    ensures { ModulesAreKnown }
{}

/// What such a module has under a name has at most 128 bits, and as a memory at most 65,536 words, and a parameter's number fits it.
pub fn objects_of_sound_modules_are_in_bounds()
    ensures { ObjectsAreInBounds }
{}

/// The drivers of such a design in one scope break none of the rules on expressions.
pub fn flat_drivers_break_nothing()
    ensures { FlatDriversBreakNothing }
{}

/// What the one scope says of the names of modules is in bounds, and where it knows no other names all that it says fits words.
pub fn flat_scopes_are_in_bounds()
    ensures objects { FlatObjectsAreInBounds }
    ensures narrow { FlatScopesAreNarrow }
{}
