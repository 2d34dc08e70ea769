//! The outputs of a module, which are read from outside.

ghost use Rattle.std.specs.Prelude.{◌≡◌, OnOk};
ghost use Rattle.verilog_designs.specs.Reads.{or_in};
ghost use Rattle.v_value.specs.Scope.{scope_at};
ghost use Rattle.v_value.specs.Narrow.{HasNarrowObjects};
ghost use Rattle.v_flow.specs.Spans.{bits_in};
ghost use Rattle.v_scopes.specs.Rows.{row_of, rows_of};
ghost use Rattle.v_undriven.specs.Reads.{output_reads, outputs_read};

use crate::name::is_output_name;
use std::alloc::AllocError;
use v_flow::add_reads;
use v_flow::span::Span;
use v_scopes::{Declared, ModuleScope};
use v_syntax::tree::{Expression, Selects};
use v_value::scope::Scope;

/// Adds all bits of a declared name, where it is an output.
fn add_output<'s, 'm: 's>(
    scope: &Scope<'_>,
    names: &ModuleScope<'_>,
    declared: Declared<'m>,
    found: &mut Vec<Span<'s>>,
) -> Result<(), AllocError>
    requires { HasNarrowObjects (scope_at scope.now) }
    ensures { OnOk result (bits_in found.new.items ≡ or_in (bits_in found.old.items) (output_reads (scope_at scope.now) names.now (row_of declared.entry).of_name)) }
{
    if !is_output_name(names, declared.name) {
        return Ok(());
    }
    let whole = Expression::Name(declared.name, Selects::Whole);
    add_reads(&whole, scope, found)
}

/// Adds all bits of the declared names that are outputs.
pub(crate) fn add_outputs<'s, 'm: 's>(
    scope: &Scope<'_>,
    names: &ModuleScope<'_>,
    declared: &[Declared<'m>],
    found: &mut Vec<Span<'s>>,
) -> Result<(), AllocError>
    requires { HasNarrowObjects (scope_at scope.now) }
    ensures { OnOk result (bits_in found.new.items ≡ or_in (bits_in found.old.items) (outputs_read (scope_at scope.now) names.now (rows_of declared.now))) }
{
    for each in declared {
        add_output(scope, names, *each, found)?;
    }
    Ok(())
}
