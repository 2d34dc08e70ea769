//! What overrides a parameter of an instance.
ghost use Rattle.std.specs.Prelude.{IfSome};
ghost use Rattle.std.proofs.Props.{props};
ghost use Rattle.v_value.specs.Objects.{object_of};
ghost use Rattle.v_value.specs.Narrow.{IsNarrowObject};

use v_value::scope::Object;

/// What overrides a parameter: a value with a width and sign of its own, of at most 128 bits, or nothing, where the expression that is
/// given breaks a rule.
#[derive(Clone, Copy)]
pub struct Override<'s> {
    pub name: &'s str,
    pub value: Option<Object>,
    pub ghost narrow: { IfSome value (λ o. IsNarrowObject (object_of o)) } by { Prim.hlevel props },
}
