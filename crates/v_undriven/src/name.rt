//! Which names need a driver, and which are read from outside.

ghost use Rattle.std.specs.Prelude.{◌≡◌};
ghost use Rattle.v_value.specs.Scope.{scope_at};
ghost use Rattle.v_scopes.specs.Rows.{row_of};
ghost use Rattle.v_scopes.specs.Scopes.{declared_in};
ghost use Rattle.v_assigned.specs.Names.{is_input_row};
ghost use Rattle.verilog_designs.specs.Ports.{is_input};
ghost use Rattle.v_undriven.specs.Names.{is_output, needs_driver, is_output_name};

use v_scopes::{Declared, ModuleScope};
use v_syntax::module::Direction;
use v_value::scope::Scope;

/// Whether a name is declared as an input port.
fn is_input(declared: Declared<'_>) -> bool
    ensures { result ≡ is_input (row_of declared.entry).direction }
{
    match declared.direction {
        Some(Direction::Input) => true,
        Some(Direction::Output) => false,
        None => false,
    }
}

/// Whether a name is declared as an output port.
fn is_output(declared: Declared<'_>) -> bool
    ensures { result ≡ is_output (row_of declared.entry).direction }
{
    match declared.direction {
        Some(Direction::Output) => true,
        Some(Direction::Input) => false,
        None => false,
    }
}

/// Whether a name is an input port.
fn is_input_name(names: &ModuleScope<'_>, name: &str) -> bool
    ensures { result ≡ is_input_row (declared_in names.now name.now) }
{
    match names.find(name) {
        Some(declared) => is_input(declared),
        None => false,
    }
}

/// Whether something within is to drive a name: it is declared, and it is neither the clock nor an input port.
pub(crate) fn needs_driver(
    scope: &Scope<'_>,
    names: &ModuleScope<'_>,
    clock: &str,
    name: &str,
) -> bool
    ensures { result ≡ needs_driver (scope_at scope.now) names.now clock.now name.now }
{
    if clock == name {
        return false;
    }
    if is_input_name(names, name) {
        return false;
    }
    scope.object(name).is_declared
}

/// Whether a name is an output port.
pub(crate) fn is_output_name(names: &ModuleScope<'_>, name: &str) -> bool
    ensures { result ≡ is_output_name names.now name.now }
{
    match names.find(name) {
        Some(declared) => is_output(declared),
        None => false,
    }
}
