//! What is refused in the names of a design: its top, its clock, names that nothing declares, names that are declared twice.
ghost use Rattle.std.specs.Prelude.{◌≡◌, IfOk, option_map};
ghost use Rattle.verilog_meaning.specs.Hierarchy.{module_named};
ghost use Rattle.v_syntax.specs.Source.{module_of, source_of};
ghost use Rattle.v_scopes.specs.Refusals.{IsNamesRefusal, names_kind, top_kind, design_kind};

use crate::clock::lacks_clock;
use std::alloc::{AllocError, Global};
use v_hier::{has_duplicate, has_duplicate_module, has_parts, has_undeclared, top_of};
use v_syntax::module::{Module, Tree};

/// Why the names of a design are refused, in the order in which the kinds are answered.
#[derive(Clone, Copy, PartialEq, Eq, Debug)]
pub enum ScopesKind {
    /// Some module has a parameter or an instance, which is not read yet.
    NotYet,
    /// No module has the name of the top, or the clock is not an input port of it of one bit.
    NoTop,
    /// A net, a variable or a module is not declared.
    Undeclared,
    /// Two modules share a name, or two declarations of one module.
    DuplicateName,
}

/// Why the names of the module that is the top, or those of the source, are refused, if they are.
fn kind_of_names<'s>(
    alloc: Global,
    tree: &Tree<'s>,
    within: &Module<'s>,
    clock: &str,
) -> Result<Option<ScopesKind>, AllocError>
    ensures { IfOk result (λ k. k ≡ names_kind (source_of tree.now) clock.now (module_of within.now)) }
{
    let lacking = lacks_clock(alloc, within, clock);
    if lacking {
        return Ok(Some(ScopesKind::NoTop));
    }
    let unknown = has_undeclared(alloc, tree, within)?;
    if unknown {
        return Ok(Some(ScopesKind::Undeclared));
    }
    let modules = has_duplicate_module(alloc, tree)?;
    if modules {
        return Ok(Some(ScopesKind::DuplicateName));
    }
    let names = has_duplicate(alloc, within)?;
    if names {
        return Ok(Some(ScopesKind::DuplicateName));
    }
    Ok(None)
}

/// The same of a module that may not be there.
fn kind_of_found<'s>(
    alloc: Global,
    tree: &Tree<'s>,
    found: Option<&Module<'s>>,
    clock: &str,
) -> Result<Option<ScopesKind>, AllocError>
    ensures { IfOk result (λ k. k ≡ top_kind (source_of tree.now) clock.now (option_map (λ m. module_of m.now) found.entry)) }
{
    match found {
        Some(within) => {
            let kind = kind_of_names(alloc, tree, within, clock)?;
            Ok(kind)
        }
        None => Ok(Some(ScopesKind::NoTop)),
    }
}

/// The same of the module of this name.
fn kind_of_top(
    alloc: Global,
    tree: &Tree<'_>,
    top: &str,
    clock: &str,
) -> Result<Option<ScopesKind>, AllocError>
    ensures { IfOk result (λ k. k ≡ top_kind (source_of tree.now) clock.now (module_named (source_of tree.now) top.now)) }
{
    let kind = kind_of_found(alloc, tree, top_of(tree, top), clock)?;
    Ok(kind)
}

/// Why the names of a design are refused: the first kind, in their order, whose rule is broken, if one is. Before them a source with a
/// parameter or an instance is `NotYet`.
pub fn names_refusal(
    alloc: Global,
    tree: &Tree<'_>,
    top: &str,
    clock: &str,
) -> Result<Option<ScopesKind>, AllocError>
    ensures { IfOk result (λ k. IsNamesRefusal (record { source = source_of tree.now; top = top.now; clock = clock.now }) k) }
{
    let parts = has_parts(tree);
    if parts {
        return Ok(Some(ScopesKind::NotYet));
    }
    let kind = kind_of_top(alloc, tree, top, clock)?;
    Ok(kind)
}
