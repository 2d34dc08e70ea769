//! What is said of a run that is watched beside its model.

/// What refinement takes for granted at each cycle.
#[derive(Clone, Copy, Debug)]
pub enum Premise {
    /// Reset is active in the reset's cycles, and inactive after them.
    Reset,
    /// The assumption of this number in the map holds after the reset.
    Assume(usize),
    /// No command starts inside another one.
    Flight,
}

/// Where a run does not do what its model does. States and instructions go by their numbers in the model.
#[derive(Clone, Copy, Debug)]
pub enum Disagreement {
    /// After the reset a state has another value than the stated one.
    InitialValue(usize),
    /// At a start not exactly one instruction decodes, the model is not valid, or it has no next state.
    NoStep,
    /// A command of this instruction has not ended within its bound.
    PastBound(usize),
    /// At an idle cycle a state has another value than the model's.
    OtherState(usize),
}

/// The answer for a run. Cycles count from 0.
#[derive(Clone, Copy, Debug)]
pub enum Watched {
    /// It does what the model does, and so many commands have ended.
    Agrees(u64),
    /// It does so up to this cycle, at which this premise fails.
    Outside(u64, Premise),
    /// It disagrees first at this cycle, and so.
    Disagrees(u64, Disagreement),
}
