//! The constants that ranges may read.
ghost use Rattle.std.specs.Prelude.{◌≡◌, []};
ghost use Rattle.std.proofs.Props.{props};
ghost use Rattle.v_value.specs.Scope.{scope_at};
ghost use Rattle.v_value.specs.Narrow.{HasNarrowObjects};

use std::alloc::Global;
use v_value::scope::Scope;

/// A scope of constants, all of which fit words of at most 128 bits.
#[derive(Clone, Copy)]
pub struct Constants<'s, 't> {
    pub scope: &'s Scope<'t>,
    pub ghost narrow: { HasNarrowObjects (scope_at scope.now) } by { Prim.hlevel props },
}

/// A scope without names.
pub(crate) fn no_constants<'t>(alloc: Global) -> Scope<'t>
    ensures { result.declarations.items ≡ [] }
{
    Scope::new(alloc)
}
