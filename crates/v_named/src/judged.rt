//! Whether some module that stands in a design uses an undeclared name, or declares a name twice.
ghost use Rattle.std.specs.Prelude.{◌≡◌, ◌||◌, false, IfOk};
ghost use Rattle.std.specs.List.{list_any};
ghost use Rattle.verilog_trees.specs.Syntax as pure;
ghost use Rattle.verilog_designs.specs.Names.{has_undeclared, has_duplicate, has_duplicate_module};
ghost use Rattle.v_syntax.specs.Source.{module_of, source_of};
ghost use Rattle.v_hier.specs.Instances.{AreModulesOf};
ghost use Rattle.v_standing.specs.Standing.{modules_of};
ghost use Rattle.v_named.specs.Names.{modules_kind};

use crate::kind::NamesKind;
use std::alloc::{AllocError, Global};
use std::collections::BTreeSet;
use v_hier::{declared_modules, has_duplicate, has_duplicate_module, has_undeclared_beside};
use v_syntax::module::{Module, Tree};

/// Whether a name was declared twice before, or is in this module.
fn is_twice(within: &Module<'_>, before: bool, alloc: Global) -> Result<bool, AllocError>
    ensures { IfOk result (λ b. b ≡ (before || has_duplicate (module_of within.now))) }
{
    if before {
        return Ok(true);
    }
    let twice = has_duplicate(alloc, within)?;
    Ok(twice)
}

/// The kind where a name was declared twice, or where none was.
fn twice_kind(twice: bool) -> Option<NamesKind>
    ensures { result ≡ modules_kind false twice }
{
    if twice {
        Some(NamesKind::DuplicateName)
    } else {
        None
    }
}

/// The first of the kinds that one of these modules breaks, where these are the names of all modules, and `shared` says whether two of
/// them share one.
fn kind_among<'t, 's>(
    modules: Vec<&'t Module<'s>>,
    names: &BTreeSet<&str>,
    shared: bool,
    alloc: Global,
) -> Result<Option<NamesKind>, AllocError>
    ensures { IfOk result (λ o. (source : pure.Source) → AreModulesOf names.now source
        → o ≡ modules_kind (list_any (has_undeclared source) (modules_of modules.entry.items)) (shared || list_any has_duplicate (modules_of modules.entry.items))) }
{
    let mut twice = shared;
    for within in modules {
        let unknown = has_undeclared_beside(alloc, within, names)?;
        if unknown {
            return Ok(Some(NamesKind::Undeclared));
        }
        twice = is_twice(within, twice, alloc)?;
    }
    Ok(twice_kind(twice))
}

/// The first of the kinds that one of these modules breaks, if one does: a name is not declared, or declared twice. Two modules of the
/// tree that share a name are of the second kind.
pub(crate) fn modules_kind<'t, 's>(
    modules: Vec<&'t Module<'s>>,
    tree: &'t Tree<'s>,
    alloc: Global,
) -> Result<Option<NamesKind>, AllocError>
    ensures { IfOk result (λ o. o ≡ modules_kind (list_any (has_undeclared (source_of tree.now)) (modules_of modules.entry.items)) (has_duplicate_module (source_of tree.now) || list_any has_duplicate (modules_of modules.entry.items))) }
{
    let names = declared_modules(alloc, tree)?;
    let shared = has_duplicate_module(alloc, tree)?;
    let kind = kind_among(modules, &names, shared, alloc)?;
    Ok(kind)
}
