//! The names of a store brought up to the registers.

ghost use Rattle.std.specs.Prelude.{◌≡◌, length, map, take};
ghost use Rattle.wb_terms.specs.Environment.{as_value};
ghost use Rattle.v_cycle.specs.Alike.{AreAlike, IsAlike};
ghost use Rattle.v_cycle.specs.Changing.{IsListed};

use crate::changes::{Changes, apply_all};
use wb_terms::Value;

/// Gives a value that of another one like it.
fn copy_over(value: &mut Value, other: &Value)
    requires { IsAlike (as_value value.old) (as_value other.now) }
    ensures { as_value value.new ≡ as_value other.now }
{
    match (value, other) {
        (Value::Truth(truth), Value::Truth(from)) => *truth = *from,
        (Value::Number(number), Value::Number(from)) => *number = *from,
        (Value::Words(words), Value::Words(from)) => words.copy_from_slice(from),
        _ => unreachable!(),
    }
}

/// Gives the first values those of others like them.
fn copy_all(values: &mut [Value], others: &[Value])
    requires { AreAlike (take (length others.now) (map as_value values.old)) (map as_value others.now) }
    ensures { take (length others.now) (map as_value values.new) ≡ map as_value others.now }
{
    for k in 0..others.len() {
        copy_over(&mut values[k], &others[k]);
    }
}

/// Gives the first values those of the registers: by the changes that the last edge made, or where not all are listed by a copy.
pub(crate) fn follow(values: &mut [Value], registers: &[Value], changes: &Changes)
    requires alike { AreAlike (take (length registers.now) (map as_value values.old)) (map as_value registers.now) }
    requires listed { IsListed changes.now (take (length registers.now) (map as_value values.old)) (map as_value registers.now) }
    ensures { take (length registers.now) (map as_value values.new) ≡ map as_value registers.now }
{
    if changes.is_complete {
        apply_all(values, &changes.list);
    } else {
        copy_all(values, registers);
    }
}
