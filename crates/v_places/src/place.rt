//! A module that stands in a design.
ghost use Rattle.std.proofs.Props.{props};
ghost use Rattle.v_value.specs.Scope.{scope_at};
ghost use Rattle.v_value.specs.Narrow.{HasNarrowObjects};

use v_syntax::module::{Instance, Module};
use v_value::scope::Scope;

/// A module that stands in the design: its instance in the module around it, the place of that module in the list of places, and those of
/// its parameters that have values. The top is no instance, and its parent is 0.
#[derive(Drop)]
pub struct Place<'t, 's> {
    pub within: &'t Module<'s>,
    pub instance: Option<&'t Instance<'s>>,
    pub parent: usize,
    pub constants: Scope<'s>,
    pub ghost narrow: { HasNarrowObjects (scope_at constants) } by { Prim.hlevel props },
}
