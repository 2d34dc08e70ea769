//! What a map file says before its expressions are read.

/// A map file as it is written. Expressions are texts.
#[derive(Drop)]
pub struct WrittenMap {
    /// The name of the top module.
    pub top: String,
    /// The name of the clock.
    pub clock: String,
    pub reset: WrittenReset,
    /// The conditions that the inputs are assumed to meet.
    pub assume: Vec<String>,
    /// The conditions that are claimed of the registers at each idle cycle.
    pub invariants: Vec<String>,
    /// The condition under which a command starts.
    pub start: String,
    /// By ascending names.
    pub states: Vec<Mapped>,
    /// By ascending names.
    pub inputs: Vec<Mapped>,
    /// In the file's order.
    pub instructions: Vec<InstructionEntry>,
}

/// How the reset is applied.
#[derive(Drop)]
pub struct WrittenReset {
    /// The name of its signal.
    pub signal: String,
    /// Whether it is active at 1, else at 0.
    pub is_active_high: bool,
    /// For how many cycles it is active, as it is written.
    pub cycles: u64,
}

/// What a state or an input of the model stands for in the design.
#[derive(Drop)]
pub struct Mapped {
    /// The model's name for it.
    pub name: String,
    pub expression: String,
}

/// How an instruction of the model ends.
#[derive(Drop)]
pub struct InstructionEntry {
    /// The model's name for it.
    pub name: String,
    /// The condition of its commit.
    pub commit: String,
    /// Within how many cycles it ends, as it is written.
    pub bound: u64,
}
