//! What words may ask for.

/// The design that is meant: a module of the Verilog files.
#[derive(Drop)]
pub(crate) struct Top {
    /// The name of the top module.
    pub(crate) top: String,
    /// The name of the top's input that is the clock.
    pub(crate) clock: String,
}

/// A command of the program.
#[derive(Drop)]
pub(crate) enum Verb {
    /// Does the design refine the model, under the map? With so many lemmas for each line, more than none.
    Check(u64),
    /// What does the model do under the script?
    Simulate,
    /// What does the design do under the script?
    SimulateRtl(Top),
    /// What does the trace show of the model and the design, under the map?
    Replay,
    /// Does the design do what the model does under the script, by the map?
    SimulateBoth,
    /// What does a design of the model look like? Or, where it is true, what is its map?
    Emit(bool),
}
