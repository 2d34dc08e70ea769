//! The kinds on names of a design, one after the other.
ghost use Rattle.std.specs.Prelude.{◌≡◌, None, option_map, IfOk};
ghost use Rattle.verilog_meaning.specs.Hierarchy.{module_named};
ghost use Rattle.verilog_meaning.specs.Settled.{Design};
ghost use Rattle.v_syntax.specs.Source.{module_of, source_of};
ghost use Rattle.v_named.specs.Names.{IsTopOf, IsNamesKind, IsNamed};

use crate::clock::has_no_clock;
use crate::judged::modules_kind;
use crate::kind::{Named, NamesKind};
use std::alloc::{AllocError, Global};
use v_hier::top_of;
use v_places::places;
use v_standing::standing;
use v_syntax::module::{Module, Tree};

/// The first of the kinds before those on the hierarchy that a design with this top breaks, if it breaks one.
fn names_kind<'t, 's>(
    alloc: Global,
    tree: &'t Tree<'s>,
    top: &'t Module<'s>,
    clock: &str,
) -> Result<Option<NamesKind>, AllocError>
    ensures { IfOk result (λ o. (d : Design) → IsTopOf d (source_of tree.now) (module_of top.now) → d.clock ≡ clock.now → IsNamesKind d o) }
{
    let lacking = has_no_clock(alloc, top, clock)?;
    if lacking {
        return Ok(Some(NamesKind::NoTop));
    }
    let modules = standing(alloc, tree, top.name)?;
    let kind = modules_kind(modules, tree, alloc)?;
    Ok(kind)
}

/// All modules that stand in a design with this top, which breaks none of the kinds before those on the hierarchy.
fn listed<'t, 's>(
    alloc: Global,
    tree: &'t Tree<'s>,
    top: &'t Module<'s>,
) -> Result<Named<'t, 's>, AllocError>
    ensures { IfOk result (λ n. (d : Design) → IsTopOf d (source_of tree.now) (module_of top.now) → IsNamesKind d None → IsNamed d n) }
{
    let found = places(alloc, tree, top)?;
    match found {
        Some(list) => Ok(Named::Places(list)),
        None => Ok(Named::Refused(NamesKind::BadHierarchy)),
    }
}

/// The same of a design with this top, whatever it breaks.
fn named_top<'t, 's>(
    alloc: Global,
    tree: &'t Tree<'s>,
    top: &'t Module<'s>,
    clock: &str,
) -> Result<Named<'t, 's>, AllocError>
    ensures { IfOk result (λ n. (d : Design) → IsTopOf d (source_of tree.now) (module_of top.now) → d.clock ≡ clock.now → IsNamed d n) }
{
    let kind = names_kind(alloc, tree, top, clock)?;
    match kind {
        Some(kind) => Ok(Named::Refused(kind)),
        None => {
            let named = listed(alloc, tree, top)?;
            Ok(named)
        }
    }
}

/// The same of a design whose top is this module, if there is one.
fn named_found<'t, 's>(
    alloc: Global,
    tree: &'t Tree<'s>,
    found: Option<&'t Module<'s>>,
    clock: &str,
) -> Result<Named<'t, 's>, AllocError>
    ensures { IfOk result (λ n. (d : Design) → d.source ≡ source_of tree.now → option_map (λ m. module_of m.now) found.entry ≡ module_named d.source d.top
        → d.clock ≡ clock.now → IsNamed d n) }
{
    match found {
        Some(within) => {
            let named = named_top(alloc, tree, within, clock)?;
            Ok(named)
        }
        None => Ok(Named::Refused(NamesKind::NoTop)),
    }
}

/// The first of the kinds on names that a design breaks: no top, an undeclared name, a name that is declared twice, a bad hierarchy. Of a
/// design that breaks none of them all modules that stand in it are listed: the top first, each other one behind the module around it.
pub fn judged_names<'t, 's>(
    alloc: Global,
    tree: &'t Tree<'s>,
    top: &str,
    clock: &str,
) -> Result<Named<'t, 's>, AllocError>
    ensures { IfOk result (IsNamed (record { source = source_of tree.now; top = top.now; clock = clock.now })) }
{
    let named = named_found(alloc, tree, top_of(tree, top), clock)?;
    Ok(named)
}
