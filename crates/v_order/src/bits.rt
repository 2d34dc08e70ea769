//! The bits that a driver may assign, and those that it reads.

ghost use Rattle.std.specs.Prelude.{◌≡◌, IfOk, OnOk};
ghost use Rattle.verilog_trees.specs.Syntax.{whole, place};
ghost use Rattle.verilog_meaning.specs.Register.{may_reach, may_assign, one_may_assign};
ghost use Rattle.verilog_designs.specs.Reads.{or_in};
ghost use Rattle.verilog_designs.specs.Drivers.{statement_reads};
ghost use Rattle.v_value.specs.Scope.{scope_at};
ghost use Rattle.v_value.specs.Narrow.{HasNarrowObjects};
ghost use Rattle.v_flow.specs.Narrow.{IsNarrowFlow};
ghost use Rattle.v_flow.specs.Spans.{bits_in, existing};
ghost use Rattle.v_drivers.specs.Premises.{AreNarrowBlocks};
ghost use Rattle.v_order.specs.Lists.{statement_in, statements_in};

use crate::driver::Driver;
use std::alloc::{AllocError, Global};
use v_flow::span::Span;
use v_flow::{add_assigned, add_reached, add_reads, add_statement_reads, add_target_reads};
use v_syntax::tree::{Selects, Target};
use v_value::scope::Scope;

/// Adds the bits of a net.
fn add_net<'s>(
    scope: &Scope<'_>,
    name: &'s str,
    found: &mut Vec<Span<'s>>,
) -> Result<(), AllocError>
    requires objects { HasNarrowObjects (scope_at scope.now) }
    ensures { OnOk result (bits_in found.new.items ≡ or_in (bits_in found.old.items) (existing (scope_at scope.now) (may_reach (scope_at scope.now) (place name.now whole)))) }
{
    let target = Target::Place(name, Selects::Whole);
    add_reached(&target, scope, found)?;
    Ok(())
}

/// Adds the bits that a driver may assign.
pub fn add_driven<'s>(
    driver: Driver<'_, 's>,
    scope: &Scope<'_>,
    found: &mut Vec<Span<'s>>,
) -> Result<(), AllocError>
    requires objects { HasNarrowObjects (scope_at scope.now) }
    requires narrow { IsNarrowFlow (scope_at scope.now) (statement_in driver) }
    ensures { OnOk result (bits_in found.new.items ≡ or_in (bits_in found.old.items) (existing (scope_at scope.now) (may_assign (scope_at scope.now) (statement_in driver.entry)))) }
{
    match driver {
        Driver::Link(target, _) => {
            add_reached(target, scope, found)?;
            Ok(())
        }
        Driver::Net(name, _) => {
            add_net(scope, name, found)?;
            Ok(())
        }
        Driver::Block(block) => {
            add_assigned(block, scope, found)?;
            Ok(())
        }
    }
}

/// Adds the bits that a driver reads anywhere.
pub fn add_read<'s>(
    driver: Driver<'_, 's>,
    scope: &Scope<'_>,
    found: &mut Vec<Span<'s>>,
) -> Result<(), AllocError>
    requires objects { HasNarrowObjects (scope_at scope.now) }
    requires narrow { IsNarrowFlow (scope_at scope.now) (statement_in driver) }
    ensures { OnOk result (bits_in found.new.items ≡ or_in (bits_in found.old.items) (statement_reads (scope_at scope.now) (statement_in driver.entry))) }
{
    match driver {
        Driver::Link(target, value) => {
            add_reads(value, scope, found)?;
            add_target_reads(target, scope, found)?;
            Ok(())
        }
        Driver::Net(_, value) => {
            add_reads(value, scope, found)?;
            Ok(())
        }
        Driver::Block(block) => {
            add_statement_reads(block, scope, found)?;
            Ok(())
        }
    }
}

/// The bits that drivers may assign.
pub fn all_driven<'t, 's>(
    alloc: Global,
    drivers: &'t [Driver<'t, 's>],
    scope: &Scope<'_>,
) -> Result<Vec<Span<'s>>, AllocError>
    requires objects { HasNarrowObjects (scope_at scope.now) }
    requires narrow { AreNarrowBlocks (scope_at scope.now) (statements_in drivers.now) }
    ensures { IfOk result (λ v. bits_in v.items ≡ existing (scope_at scope.now) (one_may_assign (scope_at scope.now) (statements_in drivers.now))) }
{
    let mut found = Vec::new(alloc);
    for driver in drivers {
        add_driven(*driver, scope, &mut found)?;
    }
    Ok(found)
}
