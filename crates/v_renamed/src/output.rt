//! Expressions that are targets as well, as what is connected to an output is, with other names.
ghost use Rattle.std.specs.Prelude.{◌≡◌, IfOk, map, option_map};
ghost use Rattle.verilog_trees.specs.Syntax as pure;
ghost use Rattle.v_syntax.specs.Tree.{selects_of, target_of, tree_of};
ghost use Rattle.v_renamed.specs.NewNames.{new_name};
ghost use Rattle.v_renamed.specs.Copies.{target_at, as_renamed, all_renamed, are_none, joined_list};

use crate::expression::copy_selects;
use crate::names::{Names, name_for};
use std::alloc::{AllocError, Global};
use v_syntax::tree::{Expression, Selects, Target};

/// Whether there are none of them.
fn are_none<X>(others: &[X]) -> bool
    ensures { result ≡ are_none others.now }
{
    others.is_empty()
}

/// The name with its selects as a target, with other names.
fn copy_place<'a, 's: 'a>(
    alloc: Global,
    selects: &Selects<'s>,
    name: &'s str,
    names: &Names<'a>,
) -> Result<Target<'a>, AllocError>
    ensures { IfOk result (λ t. target_of t ≡ target_at (new_name names.now) (pure.place name.now (selects_of selects.now))) }
{
    let selects = copy_selects(alloc, selects, names)?;
    Ok(Target::Place(name_for(names, name), selects))
}

/// The expression as a target with its names replaced, where it is one. A chain without links is what stands in it.
#[cycle(output)]
pub(crate) fn copy_as_target<'a, 's: 'a>(
    alloc: Global,
    tree: &Expression<'s>,
    names: &Names<'a>,
) -> Result<Option<Target<'a>>, AllocError>
    ensures { IfOk result (λ o. option_map target_of o ≡ as_renamed (new_name names.now) (tree_of tree.now)) }
{
    match tree {
        Expression::Number(_) => Ok(None),
        Expression::Name(name, selects) => {
            let target = copy_place(alloc, selects, name, names)?;
            Ok(Some(target))
        }
        Expression::Concatenation(parts) => {
            let targets = copy_all_as_targets(alloc, parts, names)?;
            Ok(joined(targets))
        }
        Expression::Replication(_, _) => Ok(None),
        Expression::AsSigned(_) => Ok(None),
        Expression::AsUnsigned(_) => Ok(None),
        Expression::Prefix(operators, operand) => {
            if are_none(operators) {
                copy_as_target(alloc, operand, names)
            } else {
                Ok(None)
            }
        }
        Expression::Binary(first, links) => {
            if are_none(links) {
                copy_as_target(alloc, first, names)
            } else {
                Ok(None)
            }
        }
        Expression::Test(first, links) => {
            if are_none(links) {
                copy_as_target(alloc, first, names)
            } else {
                Ok(None)
            }
        }
        Expression::Conditional(choices, last) => {
            if are_none(choices) {
                copy_as_target(alloc, last, names)
            } else {
                Ok(None)
            }
        }
    }
}

/// Targets side by side, where there are such.
fn joined<'a>(targets: Option<Vec<Target<'a>>>) -> Option<Target<'a>>
    ensures { option_map target_of result ≡ option_map joined_list (option_map (λ v. map target_of v.items) targets.entry) }
{
    match targets {
        Some(targets) => Some(Target::Joined(targets)),
        None => None,
    }
}

/// Expressions as targets with their names replaced, where all are targets.
#[cycle(output)]
fn copy_all_as_targets<'a, 's: 'a>(
    alloc: Global,
    parts: &[Expression<'s>],
    names: &Names<'a>,
) -> Result<Option<Vec<Target<'a>>>, AllocError>
    ensures { IfOk result (λ o. option_map (λ v. map target_of v.items) o ≡ all_renamed (new_name names.now) parts.now) }
{
    let mut targets = Vec::new(alloc);
    for part in parts {
        match copy_as_target(alloc, part, names)? {
            Some(target) => targets.push(target)?,
            None => return Ok(None),
        }
    }
    Ok(Some(targets))
}
