//! The rules that the declared names of a module break, and whether one of them stands for no net.
ghost use Rattle.std.specs.Prelude.{◌≡◌, is_some};
ghost use Rattle.verilog_designs.specs.Expressions as designs;
ghost use Rattle.v_value.specs.Scope.{object_of, scope_at};
ghost use Rattle.v_scopes.specs.Rows.{row_of, rows_of};
ghost use Rattle.v_size.specs.Rule.{coded};
ghost use Rattle.v_rules.specs.Judging.{none};
ghost use Rattle.v_modules.specs.Combined.{name_broken, names_from, one_other};

use crate::object::{is_memory, is_net, is_wide};
use v_scopes::Declared;
use v_size::{Broken, also, nothing, width_if};
use v_value::scope::{Object, Scope};

/// Whether the name is declared as a port.
fn is_port(declared: Declared<'_>) -> bool
    ensures { result ≡ is_some (row_of declared.entry).direction }
{
    match declared.direction {
        Some(_) => true,
        None => false,
    }
}

/// The rule on memories, where it is broken.
fn memory_if(broken: bool) -> Broken
    ensures { result ≡ coded (designs.memory_if broken) }
{
    Broken {
        memory_use: broken,
        ..nothing()
    }
}

/// The rules that a declared name breaks.
fn broken_name(object: Object, port: bool) -> Broken
    ensures { result ≡ name_broken (object_of object) port }
{
    also(
        width_if(is_wide(object)),
        memory_if(port && is_memory(object)),
    )
}

/// The rules that declared names break.
pub(crate) fn broken_names(names: &Scope<'_>, declared: &[Declared<'_>]) -> Broken
    ensures { result ≡ names_from (scope_at names.now) none (rows_of declared.now) }
{
    let mut all = nothing();
    for each in declared {
        all = also(all, broken_name(names.object(each.name), is_port(*each)));
    }
    all
}

/// Whether some declared name stands for no net: its range has no value, or a constant has its name.
pub(crate) fn has_other(names: &Scope<'_>, declared: &[Declared<'_>]) -> bool
    ensures { result ≡ one_other (scope_at names.now) (rows_of declared.now) }
{
    for each in declared {
        if !is_net(names.object(each.name)) {
            return true;
        }
    }
    false
}
