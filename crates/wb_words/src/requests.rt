//! What words may ask for.

ghost use Rattle.std.specs.Prelude.{◌≤◌, length};

/// Does the design refine the model, under the map?
#[derive(Drop)]
pub struct Check<'a> {
    /// The name of the model file.
    pub model: &'a str,
    /// The name of the map file.
    pub map: &'a str,
    /// How many steps a search may take.
    pub budget: u64,
    /// The names of the Verilog files.
    pub designs: Vec<&'a str>,
    /// A search may take a step.
    pub ghost some_steps: { 1 ≤ budget },
    /// A search ends before long.
    pub ghost not_too_many: { budget ≤ 1000000000 },
    /// There is a design.
    pub ghost some_design: { 1 ≤ length designs.items },
}

/// What does the model do under the script?
#[derive(Clone, Copy)]
pub struct Simulate<'a> {
    /// The name of the model file.
    pub model: &'a str,
    /// The name of the script.
    pub script: &'a str,
}

/// What does the design do under the script?
#[derive(Drop)]
pub struct SimulateRtl<'a> {
    /// The name of the top module.
    pub top: &'a str,
    /// The name of the top's input that is the clock.
    pub clock: &'a str,
    /// The name of the script.
    pub script: &'a str,
    /// The names of the Verilog files.
    pub designs: Vec<&'a str>,
    /// There is a design.
    pub ghost some_design: { 1 ≤ length designs.items },
}

/// What does the trace show of the model and the design, under the map?
#[derive(Drop)]
pub struct Replay<'a> {
    /// The name of the model file.
    pub model: &'a str,
    /// The name of the map file.
    pub map: &'a str,
    /// The name of the trace.
    pub trace: &'a str,
    /// The names of the Verilog files.
    pub designs: Vec<&'a str>,
    /// There is a design.
    pub ghost some_design: { 1 ≤ length designs.items },
}

/// Does the design do what the model does under the script, by the map?
#[derive(Drop)]
pub struct SimulateBoth<'a> {
    /// The name of the model file.
    pub model: &'a str,
    /// The name of the map file.
    pub map: &'a str,
    /// The name of the script.
    pub script: &'a str,
    /// The names of the Verilog files.
    pub designs: Vec<&'a str>,
    /// There is a design.
    pub ghost some_design: { 1 ≤ length designs.items },
}

/// What does a design of the model look like?
#[derive(Clone, Copy)]
pub struct Emit<'a> {
    /// The name of the model file.
    pub model: &'a str,
    /// Is its map asked for, in place of its Verilog?
    pub map_only: bool,
}

/// A command, with the names of the files that it reads.
#[derive(Drop)]
pub enum Request<'a> {
    /// `check`
    Check(Check<'a>),
    /// `simulate`
    Simulate(Simulate<'a>),
    /// `simulate-rtl`
    SimulateRtl(SimulateRtl<'a>),
    /// `replay`
    Replay(Replay<'a>),
    /// `simulate-both`
    SimulateBoth(SimulateBoth<'a>),
    /// `emit`
    Emit(Emit<'a>),
}
