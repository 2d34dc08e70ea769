//! Modules by their numbers.

ghost use Rattle.std.specs.Prelude.{◌≡◌, ◌++◌, ◌∷◌, [], map, option_map, length, IfOk, OnOk};
ghost use Rattle.v_syntax.specs.Source.{module_of};
ghost use Rattle.v_standing.specs.Standing.{modules_of, numbered, one_if_any, AreBelow};

use std::alloc::{AllocError, Global};
use v_syntax::module::Module;

/// Puts an element at the end of a list.
fn append<T: Drop>(list: &mut Vec<T>, last: T) -> Result<(), AllocError>
    ensures { OnOk result (list.new.items ≡ list.old.items ++ last ∷ []) }
{
    list.push(last)?;
    Ok(())
}

/// Puts a module at the end of a list, if there is one.
fn add<'t, 's>(
    found: Option<&'t Module<'s>>,
    list: &mut Vec<&'t Module<'s>>,
) -> Result<(), AllocError>
    ensures { OnOk result (modules_of list.new.items ≡ modules_of list.old.items ++ one_if_any (option_map (λ m. module_of m.now) found.entry)) }
{
    match found {
        Some(found) => {
            append(list, found)?;
            Ok(())
        }
        None => Ok(()),
    }
}

/// The modules with these numbers.
pub(crate) fn listed<'t, 's>(
    modules: &'t [Module<'s>],
    numbers: &[usize],
    alloc: Global,
) -> Result<Vec<&'t Module<'s>>, AllocError>
    ensures { IfOk result (λ v. AreBelow (length modules.now) numbers.now → modules_of v.items ≡ numbered (map module_of modules.now) numbers.now) }
{
    let mut list = Vec::new(alloc);
    for number in numbers {
        add(modules.get(*number), &mut list)?;
    }
    Ok(list)
}
