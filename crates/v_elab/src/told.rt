//! The dotted names (IEEE 1364-2005, 12.5) of what has its name in one scope by the number of its module.
ghost use Rattle.std.specs.Prelude.{◌≡◌, ◌<◌, ◌^◌, ◌++◌, ◌∷◌, ℕ, false, List, length, map, option_map, slice_get, Some, IfOk, OnOk};
ghost use Rattle.std.specs.Fmt.{decimal};
ghost use Rattle.std.specs.String.{string_bytes};
ghost use Rattle.wb_values.specs.Value.{Name};
ghost use Rattle.verilog_meaning.specs.Hierarchy.{PathStep, dotted};
ghost use Rattle.verilog_meaning.specs.Settled.{Design};
ghost use Rattle.v_places.specs.Views.{spot_of, spots_of};
ghost use Rattle.v_flat.specs.Paths.{paths_of};
ghost use Rattle.v_flat.specs.Numbered.{numbered};
ghost use Rattle.v_flat.specs.Whole.{IsPlacing};
ghost use Rattle.v_elab.specs.Telling.{under_steps, IsToldIn};
ghost use Rattle.v_elab.specs.Told.{AreToldBy};

use crate::NoMemory;
use std::alloc::Global;
use v_places::Place;

/// The name of a place's instance. That of the top is empty.
fn instance_name<'t, 's>(place: &'t Place<'t, 's>) -> &'s str
    ensures { result.now ≡ (spot_of place.now).instance }
{
    match place.instance {
        Some(instance) => instance.name,
        None => "",
    }
}

/// The names of the instances from a place outwards, the innermost first.
fn steps_outwards<'t, 's>(
    places: &'t [Place<'t, 's>],
    number: usize,
    alloc: Global,
) -> Result<Vec<&'s str>, NoMemory>
    ensures { IfOk result (λ v. (path : List PathStep) → slice_get (paths_of (spots_of places.now)) number ≡ Some path
        → (n : Name) → dotted path n ≡ under_steps (map (λ u. u.now) v.items) n) }
{
    let mut steps = Vec::new(alloc);
    let mut at = number;
    while at < places.len() && places[at].parent < at {
        steps.push(instance_name(&places[at]))?;
        at = places[at].parent;
    }
    Ok(steps)
}

/// Adds steps, of which the innermost is first, and a dot after each.
fn add_steps(steps: &[&str], text: &mut String) -> Result<(), NoMemory>
    ensures { OnOk result ((n : Name) → string_bytes text.new ++ n ≡ string_bytes text.old ++ under_steps (map (λ u. u.now) steps.now) n) }
{
    let mut left = steps.len();
    while left > 0 {
        left -= 1;
        text.push_str(steps[left])?;
        text.push('.')?;
    }
    Ok(())
}

/// The dotted name of a name in the module at a place.
fn dotted_name<'t>(
    places: &'t [Place<'t, '_>],
    number: usize,
    name: &str,
    alloc: Global,
) -> Result<String, NoMemory>
    ensures { IfOk result (λ s. (path : List PathStep) → slice_get (paths_of (spots_of places.now)) number ≡ Some path
        → string_bytes s ≡ dotted path name.now) }
{
    let steps = steps_outwards(places, number, alloc)?;
    let mut text = String::new(alloc);
    add_steps(&steps, &mut text)?;
    text.push_str(name)?;
    Ok(text)
}

/// The number before the first dot, and the name after it.
fn number_and_name(text: &str) -> Option<(usize, &str)>
    ensures { (k : ℕ) (n : Name) → k < 2 ^ 64 → text.now ≡ decimal k ++ 46 ∷ n → option_map {U = ℕ × Name} (λ x. (x.0, x.1.now)) result ≡ Some (k, n) }
{
    let (digits, name) = text.split_once('.')?;
    match digits.parse::<usize>() {
        Ok(number) => Some((number, name)),
        Err(_) => None,
    }
}

/// The dotted name of a net or variable, by what it is called in one scope. Another text is left as it is.
fn told_name<'t>(places: &'t [Place<'t, '_>], name: &str, alloc: Global) -> Result<String, NoMemory>
    ensures { IfOk result (λ s. IsToldIn (spots_of places.now) name.now (string_bytes s)) }
{
    match number_and_name(name) {
        Some((number, own)) => dotted_name(places, number, own, alloc),
        None => String::from_str(alloc, name),
    }
}

/// The dotted names of nets and variables, by what they are called in one scope: the number of their place, a dot, and their own name.
pub(crate) fn told_names<'t>(
    places: &'t [Place<'t, '_>],
    names: &[&str],
    alloc: Global,
) -> Result<Vec<String>, NoMemory>
    ensures count { IfOk result (λ v. length v.items ≡ length names.now) }
    ensures told { IfOk result (λ v. (d : Design) → IsPlacing d (spots_of places.now)
        → AreToldBy d (numbered false (spots_of places.now)) (map (λ n. n.now) names.now) (map string_bytes v.items)) }
{
    let mut list = Vec::new(alloc);
    for name in names {
        let told = told_name(places, *name, alloc)?;
        list.push(told)?;
    }
    Ok(list)
}
