//! Look-ups of names: of objects in a sorted table, and of values one after the other.
ghost use Rattle.std.specs.Prelude.{◌≡◌, ◌++◌, ◌∷◌, ℕ, List, [], slice_index, IfOk};
ghost use Rattle.wb_values.specs.Value.{entry_of, as_number, as_words};
ghost use Rattle.v_value.specs.Objects.{object_of, objects_of};
ghost use Rattle.v_value.specs.Tables.{object_at};
ghost use Rattle.v_value.specs.Scope.{scope_at, valuation_at};

use crate::scope::{Declaration, Entry, Object, Scope, Value};
use crate::table::{Table, declare, find, no_names};
use std::alloc::{AllocError, Global};

/// The table of declarations by their names.
fn table_of<'s>(alloc: Global, declarations: &[Declaration<'s>]) -> Result<Table<'s>, AllocError>
    ensures { IfOk result (λ t. (q : List ℕ) → object_at t q ≡ entry_of (objects_of declarations.now) q) }
{
    let mut table = no_names(alloc);
    for each in declarations {
        declare(&mut table, *each)?;
    }
    Ok(table)
}

impl<'s> Scope<'s> {
    /// A scope without names.
    pub fn new(alloc: Global) -> Scope<'s>
        ensures { result.declarations.items ≡ [] }
    {
        Scope {
            declarations: Vec::new(alloc),
            table: no_names(alloc),
        }
    }

    /// The scope of these declarations.
    pub fn of(alloc: Global, declarations: Vec<Declaration<'s>>) -> Result<Scope<'s>, AllocError>
        ensures { IfOk result (λ s. s.declarations.items ≡ declarations.entry.items) }
    {
        let table = table_of(alloc, &declarations)?;
        Ok(Scope {
            declarations,
            table,
        })
    }

    /// The scope with one declaration more.
    pub fn with(self, declaration: Declaration<'s>) -> Result<Scope<'s>, AllocError>
        ensures { IfOk result (λ s. s.declarations.items ≡ self.entry.declarations.items ++ declaration.entry ∷ []) }
    {
        let mut declarations = self.declarations;
        let mut table = self.table;
        declare(&mut table, declaration)?;
        declarations.push(declaration)?;
        Ok(Scope {
            declarations,
            table,
        })
    }

    /// The declarations in their order.
    pub fn declarations(&self) -> &[Declaration<'s>]
        ensures { result.now ≡ self.now.declarations.items }
    {
        &self.declarations
    }

    /// What the name stands for.
    pub fn object(&self, name: &str) -> Object
        ensures { object_of result ≡ scope_at self.now name.now }
    {
        match find(&self.table, name) {
            Some(object) => object,
            None => Object {
                is_declared: false,
                signed: false,
                has_range: false,
                left: 0,
                right: 0,
                addresses: None,
                constant: None,
            },
        }
    }
}

/// The number under a name, 0 where there is none.
pub(crate) fn number_at(entries: &[Entry<'_>], name: &str) -> u128
    ensures { result ≡ as_number (valuation_at entries.now name.now) }
{
    for entry in entries {
        if entry.name == name {
            return match &entry.value {
                Value::Number(number) => *number,
                Value::Words(_) => 0,
            };
        }
    }
    0
}

/// The word with this number of the memory under a name, 0 where there is none.
pub(crate) fn word_at(entries: &[Entry<'_>], name: &str, number: u128) -> u128
    ensures { result ≡ slice_index (as_words (valuation_at entries.now name.now)) number }
{
    for entry in entries {
        if entry.name == name {
            return match &entry.value {
                Value::Number(_) => 0,
                Value::Words(words) => word_of(words, number),
            };
        }
    }
    0
}

/// The word with this number, 0 past the end.
fn word_of(words: &[u128], number: u128) -> u128
    ensures { result ≡ slice_index words.now number }
{
    if number < words.len() as u128 {
        words[number as usize]
    } else {
        0
    }
}
