//! Whether objects fit words, and values their objects.
ghost use Rattle.std.specs.Prelude.{◌≡◌, ◌+◌, IsTrue};
ghost use Rattle.verilog_meaning.specs.Expression.{object_width};
ghost use Rattle.v_value.specs.Scope.{object_of, scope_at, value_of_entry, valuation_at, valuation_in};
ghost use Rattle.v_value.specs.Narrow.{HasNarrowObjects, HasFittingValues};
ghost use Rattle.v_narrow.specs.Test.{is_object_narrow};
ghost use Rattle.v_narrow.specs.Fitting.{number_fits, constant_fits, object_test, declared_test, words_fit, value_fits, entries_test};

use v_value::scope::{Declaration, Entry, Object, Scope, Value, Values};

/// How far apart the bounds of the object's range are: one less than its width.
pub(crate) fn last_place(object: Object) -> u32
    ensures { result + 1 ≡ object_width (object_of object) }
{
    object.left.max(object.right) - object.left.min(object.right)
}

/// Whether the object, or a word of it, has at most 128 bits.
pub(crate) fn is_object_narrow(object: Object) -> bool
    ensures { result ≡ is_object_narrow (object_of object) }
{
    last_place(object) < 128
}

/// Whether the number has no more bits than the object.
fn number_fits(object: Object, number: u128) -> bool
    ensures { result ≡ number_fits (object_of object) number }
{
    let last = last_place(object);
    last >= 127 || number <= wb_bits::mask(last + 1)
}

/// Whether the number of a parameter fits it.
fn constant_fits(object: Object) -> bool
    ensures { result ≡ constant_fits (object_of object) object.constant }
{
    match object.constant {
        Some(number) => number_fits(object, number),
        None => true,
    }
}

/// Whether the object fits words: it, or a word of it, has at most 128 bits, and the number of a parameter fits it.
fn fits_words(object: Object) -> bool
    ensures { result ≡ object_test (object_of object) }
{
    is_object_narrow(object) && constant_fits(object)
}

/// Whether each declared object fits words, or what its name stands for does: of several declarations of one name the first
/// counts. A name is looked up where its declaration does not fit.
pub(crate) fn are_declared_narrow(scope: &Scope<'_>, declarations: &[Declaration<'_>]) -> bool
    ensures { result ≡ declared_test (scope_at scope.now) declarations.now }
{
    for declaration in declarations {
        if !fits_words(declaration.object) && !fits_words(scope.object(declaration.name)) {
            return false;
        }
    }
    true
}

/// Whether each word fits the object.
fn words_fit(object: Object, words: &[u128]) -> bool
    ensures { result ≡ words_fit (object_of object) words.now }
{
    for word in words {
        if !number_fits(object, *word) {
            return false;
        }
    }
    true
}

/// Whether the value fits the object.
fn value_fits(object: Object, value: &Value) -> bool
    ensures { result ≡ value_fits (object_of object) (value_of_entry value.now) }
{
    match value {
        Value::Number(number) => number_fits(object, *number),
        Value::Words(words) => words_fit(object, words),
    }
}

/// Whether the value that the name has fits what the name stands for.
fn named_fits(scope: &Scope<'_>, values: &[Entry<'_>], name: &str) -> bool
    ensures { result ≡ value_fits (scope_at scope.now name.now) (valuation_at values.now name.now) }
{
    for entry in values {
        if entry.name == name {
            return value_fits(scope.object(name), &entry.value);
        }
    }
    true
}

/// Whether each value fits the object that its name stands for, or the value that its name has does: of several values of one
/// name the first counts.
fn are_entries_fitting(scope: &Scope<'_>, values: &[Entry<'_>], entries: &[Entry<'_>]) -> bool
    ensures { result ≡ entries_test (scope_at scope.now) (valuation_at values.now) entries.now }
{
    for entry in entries {
        if !value_fits(scope.object(entry.name), &entry.value)
            && !named_fits(scope, values, entry.name)
        {
            return false;
        }
    }
    true
}

/// Whether all objects of the scope fit words: each has at most 128 bits, and the number of a parameter fits it.
pub fn are_objects_narrow(scope: &Scope<'_>) -> bool
    ensures objects { IsTrue result → HasNarrowObjects (scope_at scope.now) }
    ensures exact { HasNarrowObjects (scope_at scope.now) → IsTrue result }
{
    are_declared_narrow(scope, scope.declarations())
}

/// Whether the values fit their objects: a number, and each word of a memory, has no more bits than the object.
pub fn values_fit(scope: &Scope<'_>, values: &Values<'_>) -> bool
    ensures values { IsTrue result → HasFittingValues (scope_at scope.now) (valuation_in values.now) }
    ensures exact { HasFittingValues (scope_at scope.now) (valuation_in values.now) → IsTrue result }
{
    are_entries_fitting(scope, &values.entries, &values.entries)
}
