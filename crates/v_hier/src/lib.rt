//! The modules of a source and the names of a module: which module is the top, which names are declared twice, and which are used
//! though nothing declares them (IEEE 1364-2005, 4.11, 12.1 to 12.3).
#![tactic(auto)]

mod clock;
mod duplicate;
mod entry;
mod expression;
mod item;
mod known;
mod reading;
mod statement;
mod top;
mod undeclared;

pub use clock::has_clock_as_data;
pub use duplicate::{has_duplicate, has_duplicate_module};
pub use top::{has_parts, top_of};
pub use undeclared::{declared_modules, has_undeclared, has_undeclared_beside};
