//! The parameters of a module that have values, in the order of its text.
ghost use Rattle.std.specs.Prelude.{◌≡◌, ◌++◌, ◌∷◌, [], List, map, Some, option_map, IfOk, IfSome};
ghost use Rattle.std.proofs.Props.{props};
ghost use Rattle.verilog_trees.specs.Syntax as pure;
ghost use Rattle.verilog_meaning.specs.Hierarchy.{body_parameters};
ghost use Rattle.verilog_designs.specs.Known.{known_entry, with_known_values, with_known_parameters, known_constants};
ghost use Rattle.v_syntax.specs.Tree.{tree_of};
ghost use Rattle.v_syntax.specs.Source.{optional_range_of, parameter_of, item_of, module_of};
ghost use Rattle.v_scopes.specs.Bounds.{bounds};
ghost use Rattle.v_value.specs.Scope.{object_of, objects_of, scope_at};
ghost use Rattle.v_value.specs.Narrow.{IsNarrowObject, HasNarrowObjects};
ghost use Rattle.v_constants.specs.Given.{given_of, given_at};
ghost use Rattle.v_constants.specs.Values.{fitting, one_by, override_by, values_by};

use crate::given::Override;
use crate::table::{override_of, table_of};
use crate::value::{Form, fitting, one};
use std::alloc::{AllocError, Global};
use std::collections::BTreeMap;
use v_scopes::{Constants, bounds_of};
use v_size::Names;
use v_syntax::module::{Item, Module, ParameterDeclaration, ParameterValue};
use v_value::scope::{Declaration, Object, Scope};

/// The parameters so far that have values, each of at most 128 bits.
#[derive(Drop)]
struct Valued<'s> {
    scope: Scope<'s>,
    ghost narrow: { HasNarrowObjects (scope_at scope) } by { Prim.hlevel props },
}

/// None.
fn none<'s>(alloc: Global) -> Valued<'s>
    ensures { result.scope.declarations.items ≡ [] }
{
    Valued {
        scope: Scope::new(alloc),
    }
}

/// These and one more.
fn with_object<'s>(
    before: Valued<'s>,
    name: &'s str,
    object: Object,
) -> Result<Valued<'s>, AllocError>
    requires { IsNarrowObject (object_of object) }
    ensures { IfOk result (λ v. objects_of v.scope.declarations.items ≡ objects_of before.entry.scope.declarations.items ++ known_entry name.now (Some (object_of object))) }
{
    let scope = before.scope.with(Declaration { name, object })?;
    Ok(Valued { scope })
}

/// These and one more, if it has a value.
fn with_one<'s>(
    before: Valued<'s>,
    name: &'s str,
    object: Option<Object>,
) -> Result<Valued<'s>, AllocError>
    requires { IfSome object (λ o. IsNarrowObject (object_of o)) }
    ensures { IfOk result (λ v. objects_of v.scope.declarations.items ≡ objects_of before.entry.scope.declarations.items ++ known_entry name.now (option_map object_of object)) }
{
    match object {
        Some(object) => with_object(before, name, object),
        None => Ok(before),
    }
}

/// What a parameter stands for, where those before it have these values.
fn value_for<'g>(
    value: &ParameterValue<'_>,
    given: &BTreeMap<&'g str, Override<'g>>,
    form: Form,
    before: &Valued<'_>,
) -> Option<Object>
    ensures value { option_map object_of result ≡ one_by (scope_at before.now.scope) form.signed form.range (tree_of value.now.value) (override_by form.is_local (given_at given.now) value.now.name.now) }
    ensures narrow { IfSome result (λ o. IsNarrowObject (object_of o)) }
{
    let names = Names {
        scope: &before.scope,
    };
    let given = override_of(given, form.is_local, value.name);
    one(&value.value, names, form, given)
}

/// A parameter after those before it.
fn with_value<'s, 'g>(
    value: &ParameterValue<'s>,
    given: &BTreeMap<&'g str, Override<'g>>,
    form: Form,
    before: Valued<'s>,
) -> Result<Valued<'s>, AllocError>
    ensures { IfOk result (λ v. objects_of v.scope.declarations.items ≡ objects_of before.entry.scope.declarations.items ++ known_entry value.now.name.now (one_by (scope_at before.entry.scope) form.signed form.range (tree_of value.now.value) (override_by form.is_local (given_at given.now) value.now.name.now))) }
{
    let object = value_for(value, given, form, &before);
    with_one(before, value.name, object)
}

/// The parameters of a declaration after those before it.
fn with_values<'s, 'g>(
    values: &[ParameterValue<'s>],
    given: &BTreeMap<&'g str, Override<'g>>,
    form: Form,
    before: Valued<'s>,
) -> Result<Valued<'s>, AllocError>
    ensures { IfOk result (λ v. objects_of v.scope.declarations.items ≡ values_by form.is_local form.signed form.range (given_at given.now) (map (λ v. (v.name.now, tree_of v.value)) values.now) (objects_of before.entry.scope.declarations.items)) }
{
    let mut known = before;
    for value in values {
        known = with_value(value, given, form, known)?;
    }
    Ok(known)
}

/// How the parameters of a declaration are declared.
fn form_of(declaration: &ParameterDeclaration<'_>, before: &Valued<'_>) -> Form
    ensures is_local { result.is_local ≡ declaration.now.is_local }
    ensures signed { result.signed ≡ declaration.now.signed }
    ensures range { result.range ≡ fitting (bounds (scope_at before.now.scope) (optional_range_of declaration.now.range)) }
{
    let constants = Constants {
        scope: &before.scope,
    };
    Form {
        is_local: declaration.is_local,
        signed: declaration.signed,
        range: fitting(bounds_of(&declaration.range, constants)),
    }
}

/// The parameters of a declaration after those before it. Its range is evaluated once: it has the same value for all of them, or none
/// of them has a value.
fn with_declaration<'s, 'g>(
    declaration: &ParameterDeclaration<'s>,
    given: &BTreeMap<&'g str, Override<'g>>,
    before: Valued<'s>,
) -> Result<Valued<'s>, AllocError>
    ensures { IfOk result (λ v. objects_of v.scope.declarations.items ≡ with_known_values (parameter_of declaration.now) (given_at given.now) (parameter_of declaration.now).values (objects_of before.entry.scope.declarations.items)) }
{
    let form = form_of(declaration, &before);
    let known = with_values(&declaration.values, given, form, before)?;
    Ok(known)
}

/// The parameters of the header.
fn with_header<'s, 'g>(
    declarations: &[ParameterDeclaration<'s>],
    given: &BTreeMap<&'g str, Override<'g>>,
    before: Valued<'s>,
) -> Result<Valued<'s>, AllocError>
    ensures { IfOk result (λ v. objects_of v.scope.declarations.items ≡ with_known_parameters (map parameter_of declarations.now) (given_at given.now) (objects_of before.entry.scope.declarations.items)) }
{
    let mut known = before;
    for declaration in declarations {
        known = with_declaration(declaration, given, known)?;
    }
    Ok(known)
}

/// The parameters that an item declares.
fn with_item<'s, 'g>(
    item: &Item<'s>,
    given: &BTreeMap<&'g str, Override<'g>>,
    before: Valued<'s>,
) -> Result<Valued<'s>, AllocError>
    ensures { IfOk result (λ v. (rest : List pure.Item) → with_known_parameters (body_parameters (item_of item.now ∷ rest)) (given_at given.now) (objects_of before.entry.scope.declarations.items)
        ≡ with_known_parameters (body_parameters rest) (given_at given.now) (objects_of v.scope.declarations.items)) }
{
    match item {
        Item::Parameter(declaration) => {
            let known = with_declaration(declaration, given, before)?;
            Ok(known)
        }
        Item::Port(_) => Ok(before),
        Item::Wires(_, _, _) => Ok(before),
        Item::Variables(_, _, _) => Ok(before),
        Item::Assign(_) => Ok(before),
        Item::Always(_, _) => Ok(before),
        Item::Instances(_, _, _) => Ok(before),
    }
}

/// The parameters of the body.
fn with_items<'s, 'g>(
    items: &[Item<'s>],
    given: &BTreeMap<&'g str, Override<'g>>,
    before: Valued<'s>,
) -> Result<Valued<'s>, AllocError>
    ensures { IfOk result (λ v. objects_of v.scope.declarations.items ≡ with_known_parameters (body_parameters (map item_of items.now)) (given_at given.now) (objects_of before.entry.scope.declarations.items)) }
{
    let mut known = before;
    for item in items {
        known = with_item(item, given, known)?;
    }
    Ok(known)
}

/// The parameters of a module that have values where these are overridden: those of the header, then those of the body, each evaluated
/// where those before it have their values. The first override of a name counts, and a `localparam` is not overridden.
pub fn constants_of<'s>(
    alloc: Global,
    within: &Module<'s>,
    given: &[Override<'_>],
) -> Result<Scope<'s>, AllocError>
    ensures constants { IfOk result (λ s. objects_of s.declarations.items ≡ known_constants (module_of within.now) (given_of given.now)) }
    ensures narrow { IfOk result (λ s. HasNarrowObjects (scope_at s)) }
{
    let table = table_of(alloc, given)?;
    let header = with_header(&within.parameters, &table, none(alloc))?;
    let whole = with_items(&within.items, &table, header)?;
    Ok(whole.scope)
}
