//! Declared names, each where it is first declared.

ghost use Rattle.std.specs.Prelude.{◌≡◌, ◌++◌, ◌∷◌, [], ℕ, List, true, false, cond, map, IfOk, OnOk};
ghost use Rattle.wb_values.specs.Value.{same_name};
ghost use Rattle.v_hier.specs.Tables.{has_name};
ghost use Rattle.v_scopes.specs.Rows.{rows_of};
ghost use Rattle.v_registers.specs.Once.{each_once, outside};
ghost use Rattle.v_registers.specs.Placed.{names_in_order};

use crate::NoMemory;
use crate::placed::{placed_names, variables_among};
use std::alloc::Global;
use std::collections::BTreeSet;
use v_scopes::Declared;

/// No name was seen.
pub(crate) fn none_seen<'s>(alloc: Global) -> BTreeSet<&'s str>
    ensures { (q : List ℕ) → has_name result q ≡ false }
{
    BTreeSet::new(alloc)
}

/// Adds a name, where it was not seen before.
fn add_first<'s>(
    name: &'s str,
    seen: &mut BTreeSet<&'s str>,
    names: &mut Vec<&'s str>,
) -> Result<(), NoMemory>
    ensures seen { OnOk result ((q : List ℕ) → has_name seen.new q ≡ cond (same_name name.now q) true (has_name seen.old q)) }
    ensures names { OnOk result (map (λ n. n.now) names.new.items ≡ map (λ n. n.now) names.old.items ++ outside (has_name seen.old) (name.now ∷ [])) }
{
    if seen.contains(name) {
        return Ok(());
    }
    seen.insert(name)?;
    names.push(name)?;
    Ok(())
}

/// The names of a list, each where it first stands.
fn each_once<'s>(alloc: Global, list: &[&'s str]) -> Result<Vec<&'s str>, NoMemory>
    ensures { IfOk result (λ v. map (λ n. n.now) v.items ≡ each_once (map (λ n. n.now) list.now)) }
{
    let mut seen = none_seen(alloc);
    let mut names = Vec::new(alloc);
    for each in list {
        add_first(*each, &mut seen, &mut names)?;
    }
    Ok(names)
}

/// The names of declarations, each once and in the order of the text. A port that is declared as a variable besides stands where that
/// declaration does.
pub fn first_names<'s>(alloc: Global, declared: &[Declared<'s>]) -> Result<Vec<&'s str>, NoMemory>
    ensures { IfOk result (λ v. map (λ n. n.now) v.items ≡ names_in_order (rows_of declared.now)) }
{
    let variables = variables_among(alloc, declared)?;
    let placed = placed_names(alloc, declared, &variables)?;
    let names = each_once(alloc, &placed)?;
    Ok(names)
}
