//! The parameters of a module that are declared before a place in its text.
ghost use Rattle.std.specs.Prelude.{◌≡◌, ◌||◌, [], Bool, map, IfOk};
ghost use Rattle.std.proofs.Props.{props};
ghost use Rattle.wb_values.specs.Value.{Name, same_name};
ghost use Rattle.verilog_meaning.specs.Hierarchy.{value_names};
ghost use Rattle.verilog_designs.specs.Names.{is_among, parameter_names};
ghost use Rattle.v_syntax.specs.Tree.{tree_of};
ghost use Rattle.v_syntax.specs.Source.{parameter_of, item_of};
ghost use Rattle.v_value.specs.Scope.{objects_of, scope_at};
ghost use Rattle.v_value.specs.Narrow.{HasNarrowObjects};
ghost use Rattle.v_named.specs.Before.{IsBefore, after};

use std::alloc::{AllocError, Global};
use v_scopes::Constants;
use v_syntax::module::{Item, ParameterDeclaration, ParameterValue};
use v_value::scope::{Declaration, Scope};

/// The parameters that are declared so far. One without a value is there as a name that is not declared.
#[derive(Drop)]
pub(crate) struct Before<'s> {
    pub(crate) scope: Scope<'s>,
    pub(crate) ghost narrow: { HasNarrowObjects (scope_at scope) } by { Prim.hlevel props },
}

/// None.
pub(crate) fn none<'s>(alloc: Global) -> Before<'s>
    ensures { result.scope.declarations.items ≡ [] }
{
    Before {
        scope: Scope::new(alloc),
    }
}

/// These and the parameter of this name, where the module's constants are these.
fn with_name<'s>(
    before: Before<'s>,
    name: &'s str,
    constants: Constants<'_, '_>,
) -> Result<Before<'s>, AllocError>
    ensures { IfOk result (λ v. (b : Name → Bool) → IsBefore (objects_of before.entry.scope.declarations.items) (scope_at constants.entry.scope.now) b
        → IsBefore (objects_of v.scope.declarations.items) (scope_at constants.entry.scope.now) (λ n. same_name name.now n || b n)) }
{
    let object = constants.scope.object(name);
    let scope = before.scope.with(Declaration { name, object })?;
    Ok(Before { scope })
}

/// These and the parameters of a declaration.
fn with_values<'s>(
    values: &[ParameterValue<'s>],
    before: Before<'s>,
    constants: Constants<'_, '_>,
) -> Result<Before<'s>, AllocError>
    ensures { IfOk result (λ v. (b : Name → Bool) → IsBefore (objects_of before.entry.scope.declarations.items) (scope_at constants.entry.scope.now) b
        → IsBefore (objects_of v.scope.declarations.items) (scope_at constants.entry.scope.now) (λ n. is_among (value_names (map (λ v. (v.name.now, tree_of v.value)) values.now)) n || b n)) }
{
    let mut known = before;
    for value in values {
        known = with_name(known, value.name, constants)?;
    }
    Ok(known)
}

/// These and the parameters of the header.
pub(crate) fn with_header<'s>(
    declarations: &[ParameterDeclaration<'s>],
    before: Before<'s>,
    constants: Constants<'_, '_>,
) -> Result<Before<'s>, AllocError>
    ensures { IfOk result (λ v. (b : Name → Bool) → IsBefore (objects_of before.entry.scope.declarations.items) (scope_at constants.entry.scope.now) b
        → IsBefore (objects_of v.scope.declarations.items) (scope_at constants.entry.scope.now) (λ n. is_among (parameter_names (map parameter_of declarations.now)) n || b n)) }
{
    let mut known = before;
    for declaration in declarations {
        known = with_values(&declaration.values, known, constants)?;
    }
    Ok(known)
}

/// These and the parameters that an item declares.
pub(crate) fn with_item<'s>(
    item: &Item<'s>,
    before: Before<'s>,
    constants: Constants<'_, '_>,
) -> Result<Before<'s>, AllocError>
    ensures { IfOk result (λ v. (b : Name → Bool) → IsBefore (objects_of before.entry.scope.declarations.items) (scope_at constants.entry.scope.now) b
        → IsBefore (objects_of v.scope.declarations.items) (scope_at constants.entry.scope.now) (after (item_of item.now) b)) }
{
    match item {
        Item::Parameter(declaration) => {
            let known = with_values(&declaration.values, before, constants)?;
            Ok(known)
        }
        Item::Port(_) => Ok(before),
        Item::Wires(_, _, _) => Ok(before),
        Item::Variables(_, _, _) => Ok(before),
        Item::Assign(_) => Ok(before),
        Item::Always(_, _) => Ok(before),
        Item::Instances(_, _, _) => Ok(before),
    }
}
