//! The kinds by which designs are refused.

/// A kind by which a design is refused.
#[derive(Clone, Copy, PartialEq, Eq)]
pub enum RuleKind {
    NoTop,
    Undeclared,
    DuplicateName,
    BadHierarchy,
    HasXz,
    BadPort,
    BadConstant,
    WidthOver128,
    BadSelect,
    MemoryUse,
    ClockAsData,
    BadEventList,
    BlockingInClocked,
    NonblockingInComb,
    Latch,
    BadDriver,
    Undriven,
    CombLoop,
}
