//! Lists that grow from none.

ghost use Rattle.std.specs.Prelude.{◌≡◌, ◌++◌, ◌∷◌, [], OnOk};

use std::alloc::AllocError;

/// Puts an element at the end of a list. The first one takes room for itself alone: most lists have one element, and an empty one takes no
/// room.
pub fn append<T: Drop>(list: &mut Vec<T>, last: T) -> Result<(), AllocError>
    ensures { OnOk result (list.new.items ≡ list.old.items ++ last ∷ []) }
{
    if list.is_empty() {
        list.reserve_exact(1)?;
    }
    list.push(last)?;
    Ok(())
}
