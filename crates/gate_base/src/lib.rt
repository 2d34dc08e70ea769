//! Circuits that grow gate by gate, and the formula in conjunctive normal form that says what they give.
#![tactic(auto)]

mod assuming;
mod bits;
mod building;
mod clauses;
mod keys;
mod ordering;

pub use assuming::{Asked, assumed};
pub use bits::{Bit, Gate};
pub use building::Builder;
pub use sat_base::{Cnf, Lit, NoMemory};
