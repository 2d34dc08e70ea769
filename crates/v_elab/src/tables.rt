//! The tables of terms with which evaluation begins.

ghost use Rattle.std.specs.Prelude.{◌≡◌, ◌≤◌, ◌<◌, ◌++◌, ℕ, List, false, length, drop, map, IfOk, OnOk};
ghost use Rattle.wb_values.specs.Value.{Name, word, Valuation};
ghost use Rattle.verilog_meaning.specs.Expression.{is_memory, object_width};
ghost use Rattle.verilog_meaning.specs.Register.{word_count};
ghost use Rattle.v_operators.specs.Meaning.{Grows, HasNumber, IsOfSort};
ghost use Rattle.v_value.specs.Scope.{scope_at};
ghost use Rattle.v_lower.specs.Lowered.{IsSortOf};
ghost use Rattle.v_lower.specs.Table.{images_at};
ghost use Rattle.v_registers.specs.Registers.{counted_of};
ghost use Rattle.v_elab.specs.Kept.{named_at};
ghost use Rattle.v_elab.specs.Names.{AreEntriesOf, ArePlain, AreMasksOf};
ghost use Rattle.v_elab.specs.Elaborated.{register_names};
ghost use Rattle.v_elab.specs.Tables.{kept, given, unset, IsEntered, AreEntered, register_rows, input_rows, other_rows};

use crate::NoMemory;
use crate::keeping::{kept_term, name_term};
use v_lower::NamedTerms;
use v_operators::constant;
use v_registers::Register;
use v_value::scope::Scope;
use v_value::width::object_width;
use wb_terms::{NameId, TermId, Terms};

/// Enters a register: what counts of it, in both tables.
fn enter_register<'s>(
    terms: &mut Terms,
    table: &mut NamedTerms<'s>,
    next: &mut NamedTerms<'s>,
    scope: &Scope<'_>,
    place: usize,
    register: &Register<'s>,
) -> Result<(), NoMemory>
    requires place { place < length terms.old.names }
    requires sort { IsSortOf (scope_at scope.now register.now.name.now) (named_at terms.old place).1 }
    requires masks { length register.now.masks.items ≡ word_count (scope_at scope.now register.now.name.now) }
    ensures { OnOk result (IsEntered (scope_at scope.now) (record { of_name = register.now.name.now; origin = kept place register.now.masks.items; next_origin = kept place register.now.masks.items })
        (images_at table.old) (images_at next.old) terms.old (images_at table.new) (images_at next.new) terms.new) }
{
    let id = kept_term(
        terms,
        NameId(place),
        scope.object(register.name),
        &register.masks,
    )?;
    table.insert(register.name, id)?;
    next.insert(register.name, id)?;
    Ok(())
}

/// A term that is 0, for a net or variable.
fn zero(terms: &mut Terms, width: u32) -> Result<TermId, NoMemory>
    requires some_bits { 1 ≤ width }
    requires at_most_128 { width ≤ 128 }
    ensures grows { Grows terms.old terms.new }
    ensures zero { IfOk result (λ r. (p : Valuation) → HasNumber terms.new r.0 width p 0) }
    ensures of_sort { IfOk result (λ r. IsOfSort terms.new r.0 (word width)) }
{
    let id = constant(terms, width, 0)?;
    Ok(id)
}

/// Enters an input: its name in the first table, and 0 in the second.
fn enter_input<'s>(
    terms: &mut Terms,
    table: &mut NamedTerms<'s>,
    next: &mut NamedTerms<'s>,
    scope: &Scope<'_>,
    place: usize,
    name: &'s str,
) -> Result<(), NoMemory>
    requires place { place < length terms.old.names }
    requires sort { IsSortOf (scope_at scope.now name.now) (named_at terms.old place).1 }
    requires plain { is_memory (scope_at scope.now name.now) ≡ false }
    requires narrow { object_width (scope_at scope.now name.now) ≤ 128 }
    ensures { OnOk result (IsEntered (scope_at scope.now) (record { of_name = name.now; origin = given place; next_origin = unset })
        (images_at table.old) (images_at next.old) terms.old (images_at table.new) (images_at next.new) terms.new) }
{
    let id = name_term(terms, NameId(place))?;
    let none = zero(terms, object_width(scope.object(name)))?;
    table.insert(name, id)?;
    next.insert(name, none)?;
    Ok(())
}

/// Enters a name to which nothing is given from outside: 0 in both tables.
fn enter_other<'s>(
    terms: &mut Terms,
    table: &mut NamedTerms<'s>,
    next: &mut NamedTerms<'s>,
    scope: &Scope<'_>,
    name: &'s str,
) -> Result<(), NoMemory>
    requires plain { is_memory (scope_at scope.now name.now) ≡ false }
    requires narrow { object_width (scope_at scope.now name.now) ≤ 128 }
    ensures { OnOk result (IsEntered (scope_at scope.now) (record { of_name = name.now; origin = unset; next_origin = unset })
        (images_at table.old) (images_at next.old) terms.old (images_at table.new) (images_at next.new) terms.new) }
{
    let none = zero(terms, object_width(scope.object(name)))?;
    table.insert(name, none)?;
    next.insert(name, none)?;
    Ok(())
}

/// Enters registers, which are the first names of the store.
pub(crate) fn enter_registers<'s>(
    terms: &mut Terms,
    table: &mut NamedTerms<'s>,
    next: &mut NamedTerms<'s>,
    scope: &Scope<'_>,
    registers: &[Register<'s>],
) -> Result<(), NoMemory>
    requires entries { (rest : List Name) × AreEntriesOf (scope_at scope.now) (register_names (map counted_of registers.now) ++ rest) terms.old.names }
    requires masks { AreMasksOf (scope_at scope.now) (map counted_of registers.now) }
    ensures { OnOk result (AreEntered (scope_at scope.now) (register_rows 0 (map counted_of registers.now))
        (images_at table.old) (images_at next.old) terms.old (images_at table.new) (images_at next.new) terms.new) }
{
    for place in 0..registers.len() {
        enter_register(terms, table, next, scope, place, &registers[place])?;
    }
    Ok(())
}

/// Enters inputs, which are the names of the store from a place on.
pub(crate) fn enter_inputs<'s>(
    terms: &mut Terms,
    table: &mut NamedTerms<'s>,
    next: &mut NamedTerms<'s>,
    scope: &Scope<'_>,
    first: usize,
    stored: &[&'s str],
) -> Result<(), NoMemory>
    requires entries { AreEntriesOf (scope_at scope.now) (map (λ n. n.now) stored.now) terms.old.names }
    requires plain { ArePlain (scope_at scope.now) (map (λ n. n.now) (drop first stored.now)) }
    requires narrow { (n : List ℕ) → object_width (scope_at scope.now n) ≤ 128 }
    ensures { OnOk result (AreEntered (scope_at scope.now) (input_rows first (map (λ n. n.now) (drop first stored.now)))
        (images_at table.old) (images_at next.old) terms.old (images_at table.new) (images_at next.new) terms.new) }
{
    for place in first..stored.len() {
        enter_input(terms, table, next, scope, place, stored[place])?;
    }
    Ok(())
}

/// Enters names to which nothing is given from outside.
pub(crate) fn enter_others<'s>(
    terms: &mut Terms,
    table: &mut NamedTerms<'s>,
    next: &mut NamedTerms<'s>,
    scope: &Scope<'_>,
    others: &[&'s str],
) -> Result<(), NoMemory>
    requires plain { ArePlain (scope_at scope.now) (map (λ n. n.now) others.now) }
    requires narrow { (n : List ℕ) → object_width (scope_at scope.now n) ≤ 128 }
    ensures { OnOk result (AreEntered (scope_at scope.now) (other_rows (map (λ n. n.now) others.now))
        (images_at table.old) (images_at next.old) terms.old (images_at table.new) (images_at next.new) terms.new) }
{
    for name in others {
        enter_other(terms, table, next, scope, *name)?;
    }
    Ok(())
}
