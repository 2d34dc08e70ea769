//! Scripts for a model.
#![tactic(auto)]

mod beginning;
mod cuts;
mod index;
mod line;
mod missing;
mod names;
mod naming;
mod numbers;
mod place;
mod reading;
mod refusal;
mod running;
mod script;
mod set;
mod sets;
mod settables;
mod stop;
mod text;
mod values;
mod whole;

pub use ila_file::Note;
pub use names::{Kind, Settable};
pub use naming::names_of;
pub use reading::read_script;
pub use refusal::{ScriptKind, ScriptRefusal, ScriptStop};
pub use running::{simulate, simulated_text};
pub use script::Script;
pub use set::Set;
pub use settables::Names;
pub use text::{append_decimal, simulation_text};
pub use values::{set_all, zero};
pub use wb_terms::NoMemory;
pub use whole::{Simulation, simulated};
