//! The names of a module, each with all that is declared of it.
ghost use Rattle.std.specs.Prelude.{◌≡◌, ℕ, List};
ghost use Rattle.v_scopes.specs.Rows.{rows_of, row_named};
ghost use Rattle.v_scopes.specs.Tables.{row_at};

use crate::names::Table;
use crate::row::Declared;

/// The scope of a module: what its names stand for. Each is found by a look-up in a sorted table.
#[derive(Drop)]
pub struct ModuleScope<'s> {
    pub(crate) declared: Vec<Declared<'s>>,
    pub(crate) table: Table<'s>,
    pub(crate) ghost holds: { (q : List ℕ) → row_at table q ≡ row_named (rows_of declared.items) q },
}
