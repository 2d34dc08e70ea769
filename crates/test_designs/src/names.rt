//! What is refused in the names of a module, by itself.

use std::alloc::{AllocError, Global};
use v_hier::{has_duplicate, has_duplicate_module, has_parts, has_undeclared, top_of};
use v_syntax::module::{Module, Tree};

/// Whether names of the module `t` are undeclared, whether some are declared twice, and whether the source has parameters or instances.
pub fn flaws_of(alloc: Global, tree: &Tree<'_>) -> Result<String, AllocError> {
    let Some(module) = top_of(tree, "t") else {
        return String::from_str(alloc, "names no top");
    };
    let mut text = String::from_str(alloc, "names")?;
    if has_undeclared(alloc, tree, module)? {
        text.push_str(" undeclared")?;
    }
    if is_duplicate(alloc, tree, module)? {
        text.push_str(" duplicate")?;
    }
    if has_parts(tree) {
        text.push_str(" parts")?;
    }
    Ok(text)
}

fn is_duplicate<'s>(
    alloc: Global,
    tree: &Tree<'s>,
    module: &Module<'s>,
) -> Result<bool, AllocError> {
    Ok(has_duplicate_module(alloc, tree)? || has_duplicate(alloc, module)?)
}
