//! What obligations say, as data. Cycles are counted from 0; instructions, assumptions and invariants go by their place.

/// A state of the model: its name, and its place in the order of the states.
#[derive(Clone, Copy)]
pub struct StateAt<'a> {
    pub name: &'a str,
    pub place: usize,
}

/// A hypothesis or a claim about a few cycles.
#[derive(Clone, Copy)]
pub enum Fact<'a> {
    /// Reset is active at this cycle.
    ResetActive(u64),
    /// Reset is inactive at this cycle.
    ResetInactive(u64),
    /// This assumption of the map holds at this cycle.
    Assumed(usize, u64),
    /// This invariant of the map holds at this cycle.
    Invariant(usize, u64),
    /// A command starts at this cycle.
    Start(u64),
    /// No command starts at this cycle.
    NoStart(u64),
    /// This instruction's decode condition holds at cycle 0.
    Decoded(usize),
    /// This instruction's commit holds at this cycle.
    Commit(usize, u64),
    /// This instruction's commit does not hold at this cycle.
    NoCommit(usize, u64),
    /// The state has its stated initial value at this cycle.
    Initial(StateAt<'a>, u64),
    /// The state is equal at cycles 0 and 1.
    Same(StateAt<'a>),
    /// At cycle 0 the model is valid, and exactly one instruction decodes.
    OneDecodes,
    /// From cycle 0 the steps of this instruction's child end.
    Ends(usize),
    /// The state has at this cycle the value that the instruction gives it from cycle 0.
    ResultOf(usize, StateAt<'a>, u64),
    /// What never holds.
    Never,
}

/// What an obligation takes for granted, told in a word: obligations with the same hypotheses share them so.
/// `hypotheses` lists them as facts.
#[derive(Clone, Copy, PartialEq, Eq)]
pub enum Hypotheses {
    /// Reset is active at each of the map's reset cycles.
    Reset,
    /// A cycle without start, with its invariants, reset inactive, and its assumptions.
    Idle,
    /// The same with a start.
    Started,
    /// A start of this instruction.
    StartedBy(usize),
    /// A command of this instruction that has not ended in its first so many cycles.
    NotEnded(usize, u64),
    /// A command of this instruction whose first commit is at this cycle.
    EndedAt(usize, u64),
}

/// An obligation: its name, how many cycles it speaks of, its hypotheses, and its claim.
#[derive(Drop)]
pub struct Obligation<'a> {
    pub name: String,
    pub cycles: u64,
    pub hypotheses: Hypotheses,
    pub claim: Fact<'a>,
}

/// What the obligations take from a map: the number of cycles of reset, how many assumptions and invariants there are, and the
/// bound of each instruction, in the model's order.
#[derive(Clone, Copy)]
pub struct MapCounts<'a> {
    pub reset_cycles: u64,
    pub assume: usize,
    pub invariants: usize,
    pub bounds: &'a [u64],
}
