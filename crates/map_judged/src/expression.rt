//! An expression of a map with the names in it.

ghost use Rattle.std.specs.Prelude.{◌≡◌, ◌++◌, IfOk, OnOk};
ghost use Rattle.v_instances.specs.Texts.{texts};
ghost use Rattle.map_judged.specs.Asked.{code_names};

use std::alloc::{AllocError, Global};
use v_syntax::tree::Expression;

/// An expression of a map.
#[derive(Drop)]
pub struct MapExpression<'e, 'n> {
    /// Its tree.
    pub tree: &'e Expression<'n>,
    /// The names in it, in their order, each as often as it stands there.
    pub names: Vec<&'n str>,
    /// The number of bits that it must have, where it stands for a value of a state or an input.
    pub width: Option<u32>,
}

/// Adds names.
fn add_names<'n>(names: &[&'n str], all: &mut Vec<&'n str>) -> Result<(), AllocError>
    ensures { OnOk result (texts all.new.items ≡ texts all.old.items ++ texts names.now) }
{
    for name in names {
        all.push(*name)?;
    }
    Ok(())
}

/// The names in all of these expressions, in their order.
pub(crate) fn all_names<'n>(
    alloc: Global,
    expressions: &[MapExpression<'_, 'n>],
) -> Result<Vec<&'n str>, AllocError>
    ensures { IfOk result (λ v. texts v.items ≡ code_names expressions.now) }
{
    let mut all = Vec::new(alloc);
    for expression in expressions {
        add_names(&expression.names, &mut all)?;
    }
    Ok(all)
}
