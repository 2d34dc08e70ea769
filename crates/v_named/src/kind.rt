//! What is said of the names of a design.
use v_places::Place;

/// The kinds on names, in the order in which they are answered.
#[derive(Clone, Copy, PartialEq, Eq, Debug)]
pub enum NamesKind {
    /// No module has the name of the top, or the clock is not an input port of it of one bit.
    NoTop,
    /// A net, a variable, a parameter or a module is not declared, or a parameter is used before its declaration.
    Undeclared,
    /// Two modules share a name, or two declarations of one module.
    DuplicateName,
    /// A module stands below itself, or more than 65,536 instances stand below the top.
    BadHierarchy,
}

/// The first kind on names that a design breaks, or else all modules that stand in it.
#[derive(Drop)]
pub enum Named<'t, 's> {
    Refused(NamesKind),
    Places(Vec<Place<'t, 's>>),
}
