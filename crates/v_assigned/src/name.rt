//! Whether a name may be assigned.

ghost use Rattle.std.specs.Prelude.{◌≡◌, ◌||◌, cond, not};
ghost use Rattle.verilog_designs.specs.Ports.{is_input, is_reg};
ghost use Rattle.v_value.specs.Scope.{scope_at};
ghost use Rattle.v_scopes.specs.Rows.{row_of};
ghost use Rattle.v_scopes.specs.Scopes.{declared_in};
ghost use Rattle.v_assigned.specs.Names.{may_not, is_wrong};

use v_scopes::{Declared, ModuleScope};
use v_syntax::module::{Direction, NetKind};
use v_value::scope::Scope;

/// Whether a name is declared as a variable.
fn is_variable(declared: Declared<'_>) -> bool
    ensures { result ≡ is_reg (row_of declared.entry).kind }
{
    match declared.kind {
        Some(NetKind::Reg) => true,
        Some(NetKind::Wire) => false,
        None => false,
    }
}

/// Whether a name is declared as an input port.
fn is_input(declared: Declared<'_>) -> bool
    ensures { result ≡ is_input (row_of declared.entry).direction }
{
    match declared.direction {
        Some(Direction::Input) => true,
        Some(Direction::Output) => false,
        None => false,
    }
}

/// Whether something of this kind may not be assigned there.
fn may_not(in_block: bool, variable: bool, input: bool) -> bool
    ensures { result ≡ (cond in_block (not variable) variable || input) }
{
    if input {
        return true;
    }
    in_block != variable
}

/// Whether a name may not be assigned by what is declared of it.
fn is_declared_wrong(names: &ModuleScope<'_>, in_block: bool, name: &str) -> bool
    ensures { result ≡ may_not in_block (declared_in names.now name.now) }
{
    match names.find(name) {
        Some(declared) => may_not(in_block, is_variable(declared), is_input(declared)),
        None => in_block,
    }
}

/// Whether a name may not be assigned: in a block, or else by a continuous assignment.
pub(crate) fn is_wrong(
    names: &ModuleScope<'_>,
    scope: &Scope<'_>,
    in_block: bool,
    name: &str,
) -> bool
    ensures { result ≡ is_wrong names.now (scope_at scope.now) in_block name.now }
{
    if is_declared_wrong(names, in_block, name) {
        return true;
    }
    scope.object(name).constant.is_some()
}
