//! What names stand for where all of them have at most 128 bits.
ghost use Rattle.std.specs.Prelude.{◌≡◌, ◌+◌, cond, nat_lt};
ghost use Rattle.verilog_meaning.specs.Expression.{object_width, is_memory};
ghost use Rattle.v_value.specs.Scope.{object_of};
ghost use Rattle.v_modules.specs.Combined.{is_net_object, narrowed, as_net};

use v_value::scope::Object;

/// How far apart the bounds of the object's range are: one less than its width.
fn last_place(object: Object) -> u32
    ensures { result + 1 ≡ object_width (object_of object) }
{
    object.left.max(object.right) - object.left.min(object.right)
}

/// Whether the object has more than 128 bits.
pub(crate) fn is_wide(object: Object) -> bool
    ensures { result ≡ nat_lt 128 (object_width (object_of object)) }
{
    last_place(object) > 127
}

/// Whether the object is a memory.
pub(crate) fn is_memory(object: Object) -> bool
    ensures { result ≡ is_memory (object_of object) }
{
    object.addresses.is_some()
}

/// Whether the object is that of a net, a variable or a memory.
pub(crate) fn is_net(object: Object) -> bool
    ensures { result ≡ is_net_object (object_of object) }
{
    object.is_declared && object.constant.is_none()
}

/// The right bound of a range of one bit, which descends, or of one of two bits, which does not.
fn right_bound(descends: bool) -> u32
    ensures { result ≡ cond descends 0 1 }
{
    if descends { 0 } else { 1 }
}

/// The same object, where it is wide with two bits at most, in the same direction.
pub(crate) fn narrowed(object: Object) -> Object
    ensures { object_of result ≡ narrowed (object_of object) }
{
    if is_wide(object) {
        return Object {
            left: 0,
            right: right_bound(object.right <= object.left),
            constant: None,
            ..object
        };
    }
    Object {
        constant: None,
        ..object
    }
}

/// The same object, or a net of one bit where the name has no value.
fn as_net(object: Object) -> Object
    ensures { object_of result ≡ as_net (object_of object) }
{
    if object.is_declared {
        return object;
    }
    Object {
        is_declared: true,
        signed: false,
        has_range: false,
        left: 0,
        right: 0,
        addresses: None,
        constant: None,
    }
}

/// A net of at most 128 bits, also where the name has no value.
pub(crate) fn net_of(object: Object) -> Object
    ensures { object_of result ≡ as_net (narrowed (object_of object)) }
{
    as_net(narrowed(object))
}
