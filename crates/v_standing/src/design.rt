//! All modules that stand in a design.

ghost use Rattle.std.specs.Prelude.{◌≡◌, map, length, IfOk};
ghost use Rattle.wb_values.specs.Value.{Name};
ghost use Rattle.v_syntax.specs.Source.{module_of, source_of};
ghost use Rattle.v_standing.specs.Standing.{modules_of, numbered, AreBelow, AreStanding};

use crate::below::{add_below, add_named};
use crate::listed::listed;
use crate::named::numbers_by_name;
use std::alloc::{AllocError, Global};
use v_syntax::module::{Module, Tree};

/// The numbers of the modules that stand in a design.
fn numbers_standing<'s>(
    modules: &[Module<'s>],
    top: &'s str,
    alloc: Global,
) -> Result<Vec<usize>, AllocError>
    ensures standing { IfOk result (λ v. (clock : Name) → AreStanding (record { source = map module_of modules.now; top = top.now; clock = clock }) (numbered (map module_of modules.now) v.items)) }
    ensures within { IfOk result (λ v. AreBelow (length modules.now) v.items) }
{
    let mut left = numbers_by_name(modules, alloc)?;
    let mut found = Vec::new(alloc);
    add_named(top, &mut left, &mut found)?;
    let mut next = 0;
    while next < found.len() {
        add_below(modules, found[next], &mut left, &mut found)?;
        next += 1;
    }
    Ok(found)
}

/// The modules that stand in a design with these modules, as `standing` gives them.
fn standing_among<'t, 's>(
    modules: &'t [Module<'s>],
    top: &'s str,
    alloc: Global,
) -> Result<Vec<&'t Module<'s>>, AllocError>
    ensures { IfOk result (λ v. (clock : Name) → AreStanding (record { source = map module_of modules.now; top = top.now; clock = clock }) (modules_of v.items)) }
{
    let numbers = numbers_standing(modules, top, alloc)?;
    let list = listed(modules, &numbers, alloc)?;
    Ok(list)
}

/// The modules that stand in a design, each once: its top, if there is one, and then those that stand below a module before. The modules of
/// a source are found in a sorted table, and each is gone through once.
pub fn standing<'t, 's>(
    alloc: Global,
    tree: &'t Tree<'s>,
    top: &'s str,
) -> Result<Vec<&'t Module<'s>>, AllocError>
    ensures { IfOk result (λ v. (clock : Name) → AreStanding (record { source = source_of tree.now; top = top.now; clock = clock }) (modules_of v.items)) }
{
    standing_among(&tree.modules, top, alloc)
}
