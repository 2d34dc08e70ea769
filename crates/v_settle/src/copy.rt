//! A second table with the terms of a module's names.

ghost use Rattle.std.specs.Prelude.{◌≡◌, ℕ, true, is_some, IfOk, OnOk};
ghost use Rattle.wb_values.specs.Value.{Name};
ghost use Rattle.v_value.specs.Scope.{scope_at};
ghost use Rattle.v_lower.specs.Table.{images_at};
ghost use Rattle.v_settle.specs.Copies.{IsWithin};

use crate::NoMemory;
use std::alloc::Global;
use v_lower::NamedTerms;
use v_value::scope::Scope;

/// Gives a name the term that it has in the first table, if it has one.
fn copy_name<'s>(
    name: &'s str,
    table: &NamedTerms<'s>,
    copy: &mut NamedTerms<'s>,
) -> Result<(), NoMemory>
    ensures within { OnOk result (IsWithin (images_at copy.old) (images_at table.now) → IsWithin (images_at copy.new) (images_at table.now)) }
    ensures kept { OnOk result ((n : Name) → is_some (images_at copy.old n) ≡ true → is_some (images_at copy.new n) ≡ true) }
    ensures there { OnOk result (is_some (images_at table.now name.now) ≡ true → is_some (images_at copy.new name.now) ≡ true) }
{
    match table.term(name) {
        Some(id) => {
            copy.insert(name, id)?;
            Ok(())
        }
        None => Ok(()),
    }
}

/// A table with the terms that the declared names have.
pub(crate) fn copied<'s>(
    alloc: Global,
    scope: &Scope<'s>,
    table: &NamedTerms<'s>,
) -> Result<NamedTerms<'s>, NoMemory>
    ensures within { IfOk result (λ t. IsWithin (images_at t) (images_at table.now)) }
    ensures all { IfOk result (λ t. (n : Name) → (scope_at scope.now n).is_declared ≡ true → is_some (images_at table.now n) ≡ true → is_some (images_at t n) ≡ true) }
{
    let mut copy = NamedTerms::new(alloc);
    for declaration in scope.declarations() {
        copy_name(declaration.name, table, &mut copy)?;
    }
    Ok(copy)
}
