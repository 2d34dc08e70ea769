//! Values with which a simulation begins.

ghost use Rattle.std.specs.Prelude.{◌≡◌, ◌++◌, IfOk, OnOk, map, replicate};
ghost use Rattle.wb_values.specs.Value.{number};
ghost use Rattle.wb_terms.specs.Environment.{as_value};

use wb_terms::{NoMemory, Value};

/// A copy of a value.
fn copy_of(value: &Value) -> Result<Value, NoMemory>
    ensures { IfOk result (λ copy. as_value copy ≡ as_value value.now) }
{
    match value {
        Value::Truth(truth) => Ok(Value::Truth(*truth)),
        Value::Number(number) => Ok(Value::Number(*number)),
        Value::Words(words) => Ok(Value::Words(words.clone()?)),
    }
}

/// Appends copies of values.
pub(crate) fn push_copies(values: &mut Vec<Value>, further: &[Value]) -> Result<(), NoMemory>
    ensures { OnOk result (map as_value values.new.items ≡ map as_value values.old.items ++ map as_value further.now) }
{
    for value in further {
        values.push(copy_of(value)?)?;
    }
    Ok(())
}

/// Appends so many zeros.
pub(crate) fn push_zeros(values: &mut Vec<Value>, count: usize) -> Result<(), NoMemory>
    ensures { OnOk result (map as_value values.new.items ≡ map as_value values.old.items ++ replicate count (number 0)) }
{
    for _k in 0..count {
        values.push(Value::Number(0))?;
    }
    Ok(())
}
