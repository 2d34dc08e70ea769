//! What is kept of a module, and shapes of memories.

ghost use Rattle.std.proofs.Props.{props};
ghost use Rattle.v_value.specs.Scope.{scope_at};
ghost use Rattle.v_value.specs.Narrow.{HasNarrowObjects};

use std::collections::BTreeSet;
use v_value::scope::Scope;

/// What is kept of a module: its scope, and the names of which a clocked block may assign a bit.
#[derive(Drop)]
pub(crate) struct Memories<'s> {
    pub(crate) scope: Scope<'s>,
    pub(crate) assigned: BTreeSet<&'s str>,
    pub(crate) ghost narrow: { HasNarrowObjects (scope_at scope) } by { Prim.hlevel props },
}

/// The shape of a memory: of 2^address_width words, each of so many bits.
#[derive(Clone, Copy)]
pub(crate) struct Shape {
    pub(crate) address_width: u32,
    pub(crate) width: u32,
}
