//! What is known of the module at a place: its names and its scope.
ghost use Rattle.std.specs.Prelude.{◌≡◌, ℕ, List};
ghost use Rattle.verilog_meaning.specs.Hierarchy.{declarations};
ghost use Rattle.v_syntax.specs.Source.{module_of};
ghost use Rattle.v_value.specs.Scope.{scope_at};
ghost use Rattle.v_scopes.specs.Rows.{rows, rows_of};
ghost use Rattle.v_places.specs.Views.{spot_of};
ghost use Rattle.place_kinds.specs.Places.{spot_scope};

use v_places::Place;
use v_scopes::ModuleScope;
use v_value::scope::Scope;

/// What the module at a place declares, and its scope.
#[derive(Drop)]
pub(crate) struct PlaceScope<'p, 't, 's> {
    pub(crate) place: &'p Place<'t, 's>,
    pub(crate) names: ModuleScope<'s>,
    pub(crate) scope: Scope<'s>,
    pub(crate) ghost rows_so: { rows_of names.declared.items ≡ rows (scope_at place.now.constants) (declarations (module_of place.now.within.now)) },
    pub(crate) ghost scope_so: { (n : List ℕ) → scope_at scope n ≡ spot_scope (spot_of place.now) n },
}
