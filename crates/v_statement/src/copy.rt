//! Copies of values.
ghost use Rattle.std.specs.Prelude.{◌≡◌, IfOk};
ghost use Rattle.v_value.specs.Scope.{value_of_entry, values_of};

use std::alloc::{AllocError, Global};
use v_value::scope::{Entry, Value, Values};

/// A copy of a value.
fn copied_value(alloc: Global, value: &Value) -> Result<Value, AllocError>
    ensures { IfOk result (λ copy. value_of_entry copy ≡ value_of_entry value.now) }
{
    match value {
        Value::Number(number) => Ok(Value::Number(*number)),
        Value::Words(words) => Ok(Value::Words(Vec::from_slice(alloc, words)?)),
    }
}

/// A copy of values.
pub(crate) fn copied<'s>(alloc: Global, values: &[Entry<'s>]) -> Result<Values<'s>, AllocError>
    ensures { IfOk result (λ copy. values_of copy.entries.items ≡ values_of values.now) }
{
    let mut entries = Vec::new(alloc);
    for entry in values {
        let value = copied_value(alloc, &entry.value)?;
        let name = entry.name;
        entries.push(Entry { name, value })?;
    }
    Ok(Values { entries })
}
