//! The input ports of a module.

use std::alloc::{AllocError, Global};
use v_scopes::ModuleScope;
use v_syntax::module::Direction;
use v_value::scope::Declaration;

/// Whether a name is an input port.
fn is_input(names: &ModuleScope<'_>, name: &str) -> bool {
    match names.find(name) {
        Some(declared) => match declared.direction {
            Some(Direction::Input) => true,
            Some(Direction::Output) => false,
            None => false,
        },
        None => false,
    }
}

/// Those names that are input ports.
pub(crate) fn inputs_among<'s>(
    alloc: Global,
    names: &ModuleScope<'_>,
    declarations: &[Declaration<'s>],
) -> Result<Vec<&'s str>, AllocError> {
    let mut found = Vec::new(alloc);
    for each in declarations {
        if is_input(names, each.name) {
            found.push(each.name)?;
        }
    }
    Ok(found)
}
