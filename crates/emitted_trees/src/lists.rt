//! Lists that grow by one.

ghost use Rattle.std.specs.Prelude.{◌≡◌, ◌++◌, ◌∷◌, [], IfOk};

use crate::NoMemory;
use std::alloc::Global;

/// A list of one thing.
pub(crate) fn one<T: Drop>(alloc: Global, only: T) -> Result<Vec<T>, NoMemory>
    ensures { IfOk result (λ v. v.items ≡ only ∷ []) }
{
    let mut list = Vec::with_capacity(alloc, 1)?;
    list.push(only)?;
    Ok(list)
}

/// A list with one thing more at its end.
pub(crate) fn with<T: Drop>(list: Vec<T>, last: T) -> Result<Vec<T>, NoMemory>
    ensures { IfOk result (λ v. v.items ≡ list.items ++ last ∷ []) }
{
    let mut all = list;
    all.push(last)?;
    Ok(all)
}
