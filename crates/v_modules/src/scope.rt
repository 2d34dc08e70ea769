//! Scopes in which all names of a module have at most 128 bits: its constants, and what it declares besides.
ghost use Rattle.std.specs.Prelude.{◌≡◌, ◌++◌, IfOk, OnOk};
ghost use Rattle.v_hier.specs.Tables.{has_name};
ghost use Rattle.v_value.specs.Scope.{objects_of, scope_at};
ghost use Rattle.v_scopes.specs.Rows.{rows_of, objects_by};
ghost use Rattle.v_modules.specs.Combined.{narrowed, nets_by, narrow_objects, net_objects};

use crate::object::{narrowed, net_of};
use std::alloc::{AllocError, Global};
use std::collections::BTreeSet;
use v_scopes::Declared;
use v_value::scope::{Declaration, Scope};

/// Adds constants.
fn add_constants<'s>(
    constants: &[Declaration<'s>],
    list: &mut Vec<Declaration<'s>>,
) -> Result<(), AllocError>
    ensures { OnOk result (list.new.items ≡ list.old.items ++ constants.now) }
{
    for each in constants {
        list.push(*each)?;
    }
    Ok(())
}

/// Adds declared names, each with at most 128 bits.
fn add_narrowed<'s>(
    names: &Scope<'s>,
    declared: &[Declared<'s>],
    list: &mut Vec<Declaration<'s>>,
) -> Result<(), AllocError>
    ensures { OnOk result (objects_of list.new.items ≡ objects_of list.old.items ++ objects_by (λ n. narrowed (scope_at names.now n)) (rows_of declared.now)) }
{
    for each in declared {
        list.push(Declaration {
            name: each.name,
            object: narrowed(names.object(each.name)),
        })?;
    }
    Ok(())
}

/// Adds the declared names that are no parameters, as nets of at most 128 bits.
fn add_nets<'s>(
    names: &Scope<'s>,
    declared: &[Declared<'s>],
    parameters: &BTreeSet<&str>,
    list: &mut Vec<Declaration<'s>>,
) -> Result<(), AllocError>
    ensures { OnOk result (objects_of list.new.items ≡ objects_of list.old.items ++ nets_by (has_name parameters.now) (scope_at names.now) (rows_of declared.now)) }
{
    for each in declared {
        if !parameters.contains(each.name) {
            list.push(Declaration {
                name: each.name,
                object: net_of(names.object(each.name)),
            })?;
        }
    }
    Ok(())
}

/// The names of a module with at most 128 bits each: its constants, and what it declares besides.
pub(crate) fn narrow_scope<'s>(
    alloc: Global,
    constants: &Scope<'s>,
    names: &Scope<'s>,
    declared: &[Declared<'s>],
) -> Result<Scope<'s>, AllocError>
    ensures { IfOk result (λ s. objects_of s.declarations.items ≡ narrow_objects (objects_of constants.now.declarations.items) (scope_at names.now) (rows_of declared.now)) }
{
    let mut list = Vec::new(alloc);
    add_constants(constants.declarations(), &mut list)?;
    add_narrowed(names, declared, &mut list)?;
    let scope = Scope::of(alloc, list)?;
    Ok(scope)
}

/// The same names, where each that is declared and no parameter is a net, also if its range has no value.
pub(crate) fn net_scope<'s>(
    alloc: Global,
    constants: &Scope<'s>,
    names: &Scope<'s>,
    declared: &[Declared<'s>],
    parameters: &BTreeSet<&str>,
) -> Result<Scope<'s>, AllocError>
    ensures { IfOk result (λ s. objects_of s.declarations.items ≡ net_objects (has_name parameters.now) (objects_of constants.now.declarations.items) (scope_at names.now) (rows_of declared.now)) }
{
    let mut list = Vec::new(alloc);
    add_nets(names, declared, parameters, &mut list)?;
    add_constants(constants.declarations(), &mut list)?;
    add_narrowed(names, declared, &mut list)?;
    let scope = Scope::of(alloc, list)?;
    Ok(scope)
}
