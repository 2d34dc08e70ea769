//! The scopes of a design.
ghost use Rattle.std.specs.Prelude.{◌≡◌, [], option_map, IfOk};
ghost use Rattle.verilog_meaning.specs.Hierarchy.{module_named};
ghost use Rattle.verilog_designs.specs.Known.{known_module_scope};
ghost use Rattle.v_syntax.specs.Source.{module_of, source_of};
ghost use Rattle.v_scopes.specs.Scopes.{scope_in, with_top, IsScoping};

use crate::refusal::{ScopesKind, names_refusal};
use crate::scope::module_scope;
use crate::table::ModuleScope;
use std::alloc::{AllocError, Global};
use v_hier::top_of;
use v_syntax::module::{Module, Tree};

/// The scopes of the modules that stand in a design: that of its top alone, as long as instances are not read.
#[derive(Drop)]
pub struct DesignScopes<'s> {
    pub top: ModuleScope<'s>,
}

/// Why the names of a design are refused.
#[derive(Clone, Copy, PartialEq, Eq, Debug)]
pub struct ScopesRefusal {
    pub kind: ScopesKind,
}

/// Why there are no scopes.
#[derive(Clone, Copy, PartialEq, Eq, Debug)]
pub enum ScopesStop {
    Refused(ScopesRefusal),
    NoMemory,
}

/// The scope of a module, if it is there.
fn scope_of_found<'s>(
    alloc: Global,
    found: Option<&Module<'s>>,
) -> Result<Option<ModuleScope<'s>>, AllocError>
    ensures { IfOk result (λ o. option_map scope_in o ≡ option_map (λ m. known_module_scope m []) (option_map (λ m. module_of m.now) found.entry)) }
{
    match found {
        Some(within) => {
            let scope = module_scope(alloc, within)?;
            Ok(Some(scope))
        }
        None => Ok(None),
    }
}

/// The scope of the top, if there is one.
fn top_scope<'s>(
    alloc: Global,
    tree: &Tree<'s>,
    top: &str,
) -> Result<Option<ModuleScope<'s>>, AllocError>
    ensures { IfOk result (λ o. option_map scope_in o ≡ option_map (λ m. known_module_scope m []) (module_named (source_of tree.now) top.now)) }
{
    let scope = scope_of_found(alloc, top_of(tree, top))?;
    Ok(scope)
}

/// The scopes of a design whose names are in order, where this is the scope of its top.
fn with_top(scope: Option<ModuleScope<'_>>) -> Result<DesignScopes<'_>, ScopesStop>
    ensures { result ≡ with_top scope.entry }
{
    match scope {
        Some(top) => Ok(DesignScopes { top }),
        // Such a design has a top.
        None => Err(ScopesStop::Refused(ScopesRefusal {
            kind: ScopesKind::NoTop,
        })),
    }
}

/// The scopes of a design, where none of its names is refused; else the first kind of refusal.
pub fn scopes<'s>(
    alloc: Global,
    tree: &Tree<'s>,
    top: &str,
    clock: &str,
) -> Result<DesignScopes<'s>, ScopesStop>
    ensures { IsScoping (record { source = source_of tree.now; top = top.now; clock = clock.now }) result }
{
    match names_refusal(alloc, tree, top, clock) {
        Err(_) => Err(ScopesStop::NoMemory),
        Ok(Some(kind)) => Err(ScopesStop::Refused(ScopesRefusal { kind })),
        Ok(None) => match top_scope(alloc, tree, top) {
            Err(_) => Err(ScopesStop::NoMemory),
            Ok(scope) => with_top(scope),
        },
    }
}
