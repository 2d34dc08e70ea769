//! Model files as they are written, and their reading from the data of JSON.
#![tactic(auto)]

mod declarations;
mod diagnosis;
mod instruction_misfits;
mod keys;
mod machine_misfits;
mod note;
mod place;
mod scalars;
mod shape;
mod state_misfits;
mod stop;
mod terms;
mod unknown_keys;
mod written;

pub use keys::unknown_key;
pub use note::Note;
pub use place::{Place, Spot};
pub use shape::read_shape;
pub use stop::{NoMemory, ShapeStop};
pub use written::{
    BinaryOperator, Definition, UnaryOperator, Widening, WrittenChild, WrittenInput,
    WrittenInstruction, WrittenMachine, WrittenModel, WrittenSort, WrittenState, WrittenTerm,
    WrittenUpdate, WrittenValue,
};
