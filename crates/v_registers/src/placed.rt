//! The names of declarations in the order of the text, where a port that is declared as a variable besides stands where that declaration
//! does.

ghost use Rattle.std.specs.Prelude.{◌≡◌, ◌&&◌, ◌||◌, ◌++◌, ◌∷◌, [], ℕ, List, map, IfOk, OnOk};
ghost use Rattle.wb_values.specs.Value.{same_name};
ghost use Rattle.v_hier.specs.Tables.{has_name};
ghost use Rattle.v_scopes.specs.Rows.{row_of, rows_of};
ghost use Rattle.v_registers.specs.Placed.{declares_variable, is_variable_among, is_passed_over, placed_names};

use crate::NoMemory;
use crate::once::none_seen;
use std::alloc::Global;
use std::collections::BTreeSet;
use v_scopes::Declared;
use v_syntax::module::NetKind;

/// Whether a declaration is that of a variable, other than of a port.
fn declares_variable(declared: Declared<'_>) -> bool
    ensures { result ≡ declares_variable (row_of declared.entry) }
{
    if declared.direction.is_some() {
        return false;
    }
    match declared.kind {
        Some(NetKind::Reg) => true,
        Some(NetKind::Wire) => false,
        None => false,
    }
}

/// Adds the name of a declaration, if it is that of a variable.
fn add_variable<'s>(declared: Declared<'s>, names: &mut BTreeSet<&'s str>) -> Result<(), NoMemory>
    ensures { OnOk result ((q : List ℕ) → has_name names.new q ≡ (has_name names.old q || (same_name declared.entry.name.now q && declares_variable (row_of declared.entry)))) }
{
    if declares_variable(declared) {
        names.insert(declared.name)?;
    }
    Ok(())
}

/// The names that are declared as variables, other than by their ports' declarations.
pub(crate) fn variables_among<'s>(
    alloc: Global,
    declared: &[Declared<'s>],
) -> Result<BTreeSet<&'s str>, NoMemory>
    ensures { IfOk result (λ s. (q : List ℕ) → has_name s q ≡ is_variable_among (rows_of declared.now) q) }
{
    let mut names = none_seen(alloc);
    for each in declared {
        add_variable(*each, &mut names)?;
    }
    Ok(names)
}

/// Whether a declaration is that of a port that is a variable besides.
fn is_passed_over(declared: Declared<'_>, variables: &BTreeSet<&str>) -> bool
    ensures { result ≡ is_passed_over (has_name variables.now) (row_of declared.entry) }
{
    if declared.direction.is_some() {
        variables.contains(declared.name)
    } else {
        false
    }
}

/// Adds the name of a declaration, if it is not passed over.
fn add_placed<'s>(
    declared: Declared<'s>,
    variables: &BTreeSet<&str>,
    names: &mut Vec<&'s str>,
) -> Result<(), NoMemory>
    ensures { OnOk result (map (λ n. n.now) names.new.items ≡ map (λ n. n.now) names.old.items ++ placed_names (has_name variables.now) (row_of declared.entry ∷ [])) }
{
    if !is_passed_over(declared, variables) {
        names.push(declared.name)?;
    }
    Ok(())
}

/// The names of declarations that are not passed over.
pub(crate) fn placed_names<'s>(
    alloc: Global,
    declared: &[Declared<'s>],
    variables: &BTreeSet<&str>,
) -> Result<Vec<&'s str>, NoMemory>
    ensures { IfOk result (λ v. map (λ n. n.now) v.items ≡ placed_names (has_name variables.now) (rows_of declared.now)) }
{
    let mut names = Vec::new(alloc);
    for each in declared {
        add_placed(*each, variables, &mut names)?;
    }
    Ok(names)
}
