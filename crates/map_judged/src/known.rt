//! The names of a map's expressions with what they mean in a design.

ghost use Rattle.std.specs.Prelude.{◌≡◌};
ghost use Rattle.std.proofs.Props.{props};
ghost use Rattle.v_value.specs.Scope.{scope_at};
ghost use Rattle.v_value.specs.Narrow.{HasNarrowObjects};

use map_paths::Instances;
use std::collections::BTreeSet;
use v_value::scope::Scope;

/// What the names of some expressions of a map mean in a design, and which of them are clocks.
#[derive(Drop)]
pub struct KnownNames<'n, 's> {
    pub(crate) instances: Instances<'s>,
    pub(crate) nets: Vec<BTreeSet<&'n str>>,
    pub(crate) scope: Scope<'n>,
    pub(crate) ghost narrow: { HasNarrowObjects (scope_at scope) } by { Prim.hlevel props },
}

impl<'n, 's> KnownNames<'n, 's> {
    /// The scope of these names.
    pub fn scope(&self) -> &Scope<'n>
        ensures { result.now ≡ self.now.scope }
    {
        &self.scope
    }

    /// Where dotted names lead in the design.
    pub fn instances(&self) -> &Instances<'s>
        ensures { result.now ≡ self.now.instances }
    {
        &self.instances
    }
}
