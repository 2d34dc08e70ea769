//! The parts of a model over the ids of a store of terms: its states and inputs, its instructions, and their child programs.

use wb_terms::{NameId, TermId, Terms, Value};

/// An update: the state's new value is that of a term at the old states and the inputs.
#[derive(Clone, Copy, Debug)]
pub struct Update {
    /// The state's name in the store's table.
    pub state: NameId,
    /// The term of its new value, of the state's sort.
    pub term: TermId,
}

/// A child program, by its place in a model's table of children, from 0.
#[derive(Clone, Copy, Debug, PartialEq, Eq)]
pub struct ChildId(pub usize);

/// An instruction: it is taken where its decode condition holds; it then updates states, and runs its child program, if any.
#[derive(Drop)]
pub struct Instruction {
    pub name: String,
    /// A truth value.
    pub decode: TermId,
    /// By ascending states, so that no state is updated twice. A state without update keeps its value.
    pub updates: Vec<Update>,
    pub child: Option<ChildId>,
}

/// A child program: at most `steps` steps of a machine with private states.
#[derive(Drop)]
pub struct Child {
    /// The child whose instruction runs this one; none where it is an instruction of the top.
    pub around: Option<ChildId>,
    /// The first of its private states in the store's table of names; the others follow at once.
    pub first: NameId,
    /// For each private state, in order, the initial value that it states. In well-sorted parts each states one.
    pub initial_values: Vec<Option<Value>>,
    /// The condition, a truth value, under which the child takes a step.
    pub valid: TermId,
    /// The limit of its steps, 1 to 4,096.
    pub steps: u32,
    pub instructions: Vec<Instruction>,
}

/// The parts of a model. The store's table has the names of the states, then those of the inputs, and then the private
/// states of the children, in the order of the children.
#[derive(Drop)]
pub struct Parts {
    /// The declared names, and every term of the model.
    pub terms: Terms,
    /// For each state, in order, the initial value that the model states, if any.
    pub initial_values: Vec<Option<Value>>,
    /// How many inputs there are.
    pub inputs: usize,
    /// The condition, a truth value, under which the model takes a step.
    pub valid: TermId,
    pub instructions: Vec<Instruction>,
    /// The child programs, at most three around one another. Each is run by at most one instruction; within a machine the
    /// children of its instructions stand in the order of the instructions.
    pub children: Vec<Child>,
}
