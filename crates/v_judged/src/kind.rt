//! The kinds by which designs are refused, and what is told of a design.
use v_places::Place;

/// Why a design is refused, in the order in which the kinds are answered.
#[derive(Clone, Copy, PartialEq, Eq, Debug)]
pub enum DesignKind {
    /// No module has the name of the top, or the clock is not an input port of it of one bit.
    NoTop,
    /// A net, a variable, a parameter or a module is not declared, or a parameter is used before its declaration.
    Undeclared,
    /// Two modules share a name, or two declarations of one module.
    DuplicateName,
    /// A module stands below itself, or more than 65,536 instances stand below the top.
    BadHierarchy,
    /// A number has an x, z or `?` digit where none may stand.
    HasXz,
    /// A port without a direction, a direction without a port, an input that is a variable, ranges that differ, or connections or overrides
    /// that the module below does not have.
    BadPort,
    /// A constant reads a net, divides by 0, or has no value that may stand there.
    BadConstant,
    /// More than 128 bits.
    WidthOver128,
    /// A select that its name does not have.
    BadSelect,
    /// A memory where none may stand, or with too many words.
    MemoryUse,
    /// A clock net is read or assigned, or is a part of what is connected to a port.
    ClockAsData,
    /// A block has a list of events that none may have.
    BadEventList,
    /// A blocking assignment in a clocked block.
    BlockingInClocked,
    /// A nonblocking assignment in a combinational block.
    NonblockingInComb,
    /// A bit that a combinational block does not assign on each path, or reads before it assigns it.
    Latch,
    /// Two drivers of one bit, or a name that may not be assigned where it is.
    BadDriver,
    /// A bit is read that nothing drives.
    Undriven,
    /// A bit depends on itself.
    CombLoop,
}

/// The first kind whose rule a design breaks, or that it is accepted, with all modules that stand in it.
#[derive(Drop)]
pub enum Judged<'t, 's> {
    Refused(DesignKind),
    Accepted(Vec<Place<'t, 's>>),
}
