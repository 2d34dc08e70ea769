//! The scopes of a design: whether its top and its clock are there, whether the names of its modules are in order, and what the names
//! of a module stand for (IEEE 1364-2005, 3.3, 4.2, 12.3). Designs with parameters or instances are left for later.
#![tactic(auto)]

mod clock;
mod constant;
pub mod laws;
mod names;
mod range;
mod refusal;
mod row;
mod scope;
mod scopes_of;
mod table;

pub use clock::has_clock;
pub use constant::Constants;
pub use range::{Bounds, bounds_of};
pub use refusal::{ScopesKind, names_refusal};
pub use row::{Declared, declared_rows};
pub use scope::{declared_scope, module_scope, placed_scope};
pub use scopes_of::{DesignScopes, ScopesRefusal, ScopesStop, scopes};
pub use table::ModuleScope;
