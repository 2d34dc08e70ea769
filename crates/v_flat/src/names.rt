//! What the names of all modules that stand in a design are called in one scope: names by the number of their module.
ghost use Rattle.std.specs.Prelude.{◌≡◌, ◌++◌, ◌∷◌, [], false, length, map, IfOk, OnOk};
ghost use Rattle.std.specs.String.{string_bytes};
ghost use Rattle.wb_values.specs.Value.{Valuation};
ghost use Rattle.verilog_meaning.specs.Settled.{Design};
ghost use Rattle.flat_designs.specs.Flat.{IsSeenAs};
ghost use Rattle.v_value.specs.Scope.{object_of, objects_of};
ghost use Rattle.v_scopes.specs.Rows.{rows_of, objects_by};
ghost use Rattle.v_scopes.specs.Scopes.{scope_in};
ghost use Rattle.v_places.specs.Views.{spot_of, spots_of};
ghost use Rattle.v_flat.specs.Entries.{dotted_entry, dotted_entries, spot_names};
ghost use Rattle.v_flat.specs.Numbered.{number_front, numbered, numbered_from};
ghost use Rattle.v_flat.specs.Whole.{IsPlacing, AreCalled};
ghost use Rattle.v_flat.specs.Views.{entry_in, names_in};

use std::alloc::{AllocError, Global};
use v_places::Place;
use v_scopes::{Constants, Declared, ModuleScope, declared_scope};
use v_value::scope::{Declaration, Object};

/// A name of a module that stands in a design, what it is called in one scope, and what it stands for.
#[derive(Drop)]
pub struct Dotted<'s> {
    pub name: &'s str,
    pub text: String,
    pub object: Object,
}

/// The names of a module that stands in a design, and what stands before them in one scope.
#[derive(Drop)]
pub struct PlaceNames<'s> {
    pub front: String,
    pub names: Vec<Dotted<'s>>,
}

/// The names of all modules that stand in a design.
#[derive(Drop)]
pub struct DottedNames<'s> {
    pub places: Vec<PlaceNames<'s>>,
}

/// A name with what it is called.
fn with_front<'s>(
    alloc: Global,
    front: &str,
    name: &'s str,
    object: Object,
) -> Result<Dotted<'s>, AllocError>
    ensures { IfOk result (λ x. entry_in x ≡ dotted_entry front.now (name.now, object_of object)) }
{
    let mut text = String::from_str(alloc, front)?;
    text.push_str(name)?;
    Ok(Dotted { name, text, object })
}

/// Adds constants.
fn add_constants<'s>(
    constants: &[Declaration<'s>],
    front: &str,
    list: &mut Vec<Dotted<'s>>,
    alloc: Global,
) -> Result<(), AllocError>
    ensures { OnOk result (map entry_in list.new.items ≡ map entry_in list.old.items ++ dotted_entries front.now (objects_of constants.now)) }
{
    for each in constants {
        let entry = with_front(alloc, front, each.name, each.object)?;
        list.push(entry)?;
    }
    Ok(())
}

/// Adds what is declared.
fn add_declared<'s>(
    names: &ModuleScope<'s>,
    declared: &[Declared<'s>],
    front: &str,
    list: &mut Vec<Dotted<'s>>,
    alloc: Global,
) -> Result<(), AllocError>
    ensures { OnOk result (map entry_in list.new.items ≡ map entry_in list.old.items ++ dotted_entries front.now (objects_by (scope_in names.now) (rows_of declared.now))) }
{
    for each in declared {
        let object = names.object(each.name);
        let entry = with_front(alloc, front, each.name, object)?;
        list.push(entry)?;
    }
    Ok(())
}

/// The names of a module that stands in a design.
fn place_names<'t, 's>(
    place: &'t Place<'t, 's>,
    front: String,
    alloc: Global,
) -> Result<PlaceNames<'s>, AllocError>
    ensures { IfOk result (λ p. names_in p ≡ spot_names (string_bytes front) (spot_of place.now)) }
{
    let around = Constants {
        scope: &place.constants,
    };
    let scope = declared_scope(alloc, place.within, around)?;
    let mut names = Vec::new(alloc);
    add_constants(place.constants.declarations(), &front, &mut names, alloc)?;
    add_declared(&scope, scope.declarations(), &front, &mut names, alloc)?;
    Ok(PlaceNames { front, names })
}

/// What stands before the names of the module with a number: the number and a dot, and before those of the top nothing if they are left
/// plain.
fn number_front(number: usize, top_is_plain: bool, alloc: Global) -> Result<String, AllocError>
    ensures { IfOk result (λ s. string_bytes s ≡ number_front top_is_plain number) }
{
    if top_is_plain && number == 0 {
        return Ok(String::new(alloc));
    }
    let front = format!(in alloc; "{number}.")?;
    Ok(front)
}

/// The names of all modules that stand in a design, each with the number of its module before it; those of the top are left as they are if
/// they are to be plain. They are about as long as in the text, however deep their modules stand.
pub fn numbered_names<'t, 's>(
    alloc: Global,
    places: &'t [Place<'t, 's>],
    top_is_plain: bool,
) -> Result<DottedNames<'s>, AllocError>
    ensures count { IfOk result (λ n. length n.places.items ≡ length places.now) }
    ensures called { IfOk result (λ n. (d : Design) → IsPlacing d (spots_of places.now)
        → AreCalled d (numbered top_is_plain (spots_of places.now)) (spots_of places.now) (map names_in n.places.items)) }
    ensures seen { IfOk result (λ _. (d : Design) (v : Valuation) → IsPlacing d (spots_of places.now)
        → (w : Valuation) × IsSeenAs d (numbered false (spots_of places.now)) v w) }
{
    let mut list = Vec::new(alloc);
    for (number, place) in places.iter().enumerate() {
        let front = number_front(number, top_is_plain, alloc)?;
        let names = place_names(place, front, alloc)?;
        list.push(names)?;
    }
    Ok(DottedNames { places: list })
}
