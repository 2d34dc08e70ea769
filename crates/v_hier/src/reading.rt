//! A module's text read in its order: each parameter may be used from the end of its own declaration on.
ghost use Rattle.std.specs.Prelude.{◌≡◌, ◌++◌, ◌∷◌, [], map, IfOk};
ghost use Rattle.verilog_designs.specs.Names.{uses, declares, names_in, value_mentions, parameter_mentions, all_parameter_mentions, item_mentions, all_item_mentions, mentions};
ghost use Rattle.v_syntax.specs.Tree.{tree_of};
ghost use Rattle.v_syntax.specs.Source.{parameter_of, item_of, module_of};
ghost use Rattle.v_hier.specs.Reading.{IsRead, unknown_with};

use crate::expression::is_expression_known;
use crate::item::{are_ports_known, is_range_known, is_text_known};
use crate::known::{Names, declare};
use std::alloc::AllocError;
use v_syntax::module::{Item, Module, ParameterDeclaration, ParameterValue};

/// Whether each name in a parameter's value may be used; after it the parameter is declared.
fn is_value_known<'s>(
    value: &ParameterValue<'s>,
    names: &mut Names<'_, 's>,
) -> Result<bool, AllocError>
    ensures { IfOk result (λ known. IsRead names.old (uses (names_in (tree_of value.now.value)) ++ declares value.now.name.now ∷ []) known names.new) }
{
    if !is_expression_known(&value.value, names) {
        return Ok(false);
    }
    declare(names, value.name)?;
    Ok(true)
}

/// Whether each name in parameters' values may be used; after each the parameter is declared.
fn are_values_known<'s>(
    values: &[ParameterValue<'s>],
    names: &mut Names<'_, 's>,
) -> Result<bool, AllocError>
    ensures { IfOk result (λ known. IsRead names.old (value_mentions (map (λ v. (v.name.now, tree_of v.value)) values.now)) known names.new) }
{
    for value in values {
        if !is_value_known(value, names)? {
            return Ok(false);
        }
    }
    Ok(true)
}

/// Whether each name in a declaration of parameters may be used.
fn is_declaration_known<'s>(
    declaration: &ParameterDeclaration<'s>,
    names: &mut Names<'_, 's>,
) -> Result<bool, AllocError>
    ensures { IfOk result (λ known. IsRead names.old (parameter_mentions (parameter_of declaration.now)) known names.new) }
{
    if !is_range_known(&declaration.range, names) {
        return Ok(false);
    }
    let known = are_values_known(&declaration.values, names)?;
    Ok(known)
}

/// Whether each name in declarations of parameters may be used.
fn are_declarations_known<'s>(
    declarations: &[ParameterDeclaration<'s>],
    names: &mut Names<'_, 's>,
) -> Result<bool, AllocError>
    ensures { IfOk result (λ known. IsRead names.old (all_parameter_mentions (map parameter_of declarations.now)) known names.new) }
{
    for declaration in declarations {
        if !is_declaration_known(declaration, names)? {
            return Ok(false);
        }
    }
    Ok(true)
}

/// Whether each name in an item may be used.
fn is_item_known<'s>(item: &Item<'s>, names: &mut Names<'_, 's>) -> Result<bool, AllocError>
    ensures { IfOk result (λ known. IsRead names.old (item_mentions (item_of item.now)) known names.new) }
{
    match item {
        Item::Parameter(declaration) => {
            let known = is_declaration_known(declaration, names)?;
            Ok(known)
        }
        _ => Ok(is_text_known(item, names)),
    }
}

/// Whether each name in the items may be used.
fn are_items_known<'s>(items: &[Item<'s>], names: &mut Names<'_, 's>) -> Result<bool, AllocError>
    ensures { IfOk result (λ known. IsRead names.old (all_item_mentions (map item_of items.now)) known names.new) }
{
    for item in items {
        if !is_item_known(item, names)? {
            return Ok(false);
        }
    }
    Ok(true)
}

/// Whether some name in the module's text may not be used where it stands.
pub(crate) fn uses_unknown<'s>(
    within: &Module<'s>,
    names: &mut Names<'_, 's>,
) -> Result<bool, AllocError>
    ensures { IfOk result (λ unknown. unknown ≡ unknown_with names.old (mentions (module_of within.now))) }
{
    if !are_declarations_known(&within.parameters, names)? {
        return Ok(true);
    }
    if !are_ports_known(&within.ports, names) {
        return Ok(true);
    }
    let known = are_items_known(&within.items, names)?;
    Ok(!known)
}
