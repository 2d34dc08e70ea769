//! The top call: a command's words, the files that it names, and what it writes.
#![tactic(auto)]

mod answer;
mod both;
mod cases;
mod emission;
pub mod laws;
mod length;
mod outcome;
mod places;
mod replaying;
mod rtl;
mod simulation;
mod status;
mod stop;
mod texts;
mod top;
mod verb;
mod wanted;
mod words;

pub use check_report::Spent;
pub use status::{AllSpent, Ended, Status};
pub use top::workbench;
