//! One driver evaluated, where it settles some of its bits.

ghost use Rattle.std.specs.Prelude.{IfOk, OnOk};
ghost use Rattle.verilog_trees.specs.Syntax.{whole, place, blocking};
ghost use Rattle.verilog_settled.specs.Locality.{HasNoConstantMemory};
ghost use Rattle.v_syntax.specs.Tree.{tree_of, target_of};
ghost use Rattle.v_value.specs.Scope.{scope_at};
ghost use Rattle.v_value.specs.Narrow.{HasNarrowObjects};
ghost use Rattle.v_operators.specs.Meaning.{Grows};
ghost use Rattle.v_lower.specs.Lowered.{HasImages};
ghost use Rattle.v_lower.specs.Table.{images_at};
ghost use Rattle.v_masks.specs.Masks.{masked};
ghost use Rattle.v_depend.specs.Running.{IsFit};
ghost use Rattle.v_order.specs.Lists.{driving_in, statement_in};
ghost use Rattle.v_settle.specs.Turns.{state_of, IsOpen, IsVisited};
ghost use Rattle.v_settle.specs.Drivers.{IsSoundLink, IsSoundDriving, IsLinkLowered, IsDriverLowered};

use crate::NoMemory;
use crate::reading::assigned;
use crate::width::target_width;
use crate::writing::write_bits;
use std::alloc::Global;
use std::collections::BTreeMap;
use v_depend::meets;
use v_loops::{remove, settled_by};
use v_lower::NamedTerms;
use v_order::driver::Driver;
use v_syntax::tree::{Expression, Selects, Target};
use v_value::scope::Scope;
use v_write::lower_statement;
use wb_terms::Terms;

/// Writes the value of an expression to a target.
fn lower_link<'s>(
    target: &Target<'s>,
    value: &Expression<'s>,
    scope: &Scope<'_>,
    table: &mut NamedTerms<'s>,
    terms: &mut Terms,
) -> Result<(), NoMemory>
    requires objects { HasNarrowObjects (scope_at scope.now) }
    requires parameters { HasNoConstantMemory (scope_at scope.now) }
    requires known { HasImages (scope_at scope.now) (images_at table.old) terms.old }
    requires sound { IsSoundLink (scope_at scope.now) (target_of target.now) (tree_of value.now) }
    requires fit { IsFit (scope_at scope.now) (blocking (target_of target.now) (tree_of value.now)) }
    ensures grows { Grows terms.old terms.new }
    ensures lowered { OnOk result (IsLinkLowered (scope_at scope.now) (images_at table.old) terms.old (target_of target.now) (tree_of value.now) (images_at table.new) terms.new) }
{
    let width = target_width(target, scope);
    let number = assigned(value, scope, table, terms, width)?;
    write_bits(target, scope, table, terms, number, width, 0)?;
    Ok(())
}

/// Writes the value that a declaration gives a net.
fn lower_net<'s>(
    value: &Expression<'s>,
    name: &'s str,
    scope: &Scope<'_>,
    table: &mut NamedTerms<'s>,
    terms: &mut Terms,
) -> Result<(), NoMemory>
    requires objects { HasNarrowObjects (scope_at scope.now) }
    requires parameters { HasNoConstantMemory (scope_at scope.now) }
    requires known { HasImages (scope_at scope.now) (images_at table.old) terms.old }
    requires sound { IsSoundLink (scope_at scope.now) (place name.now whole) (tree_of value.now) }
    requires fit { IsFit (scope_at scope.now) (blocking (place name.now whole) (tree_of value.now)) }
    ensures grows { Grows terms.old terms.new }
    ensures lowered { OnOk result (IsLinkLowered (scope_at scope.now) (images_at table.old) terms.old (place name.now whole) (tree_of value.now) (images_at table.new) terms.new) }
{
    let target = Target::Place(name, Selects::Whole);
    lower_link(&target, value, scope, table, terms)?;
    Ok(())
}

/// Gives the names that a driver assigns the terms of what they hold after it.
fn lower_driver<'s>(
    alloc: Global,
    driver: Driver<'_, 's>,
    scope: &Scope<'_>,
    table: &mut NamedTerms<'s>,
    spare: &mut NamedTerms<'s>,
    terms: &mut Terms,
) -> Result<(), NoMemory>
    requires objects { HasNarrowObjects (scope_at scope.now) }
    requires parameters { HasNoConstantMemory (scope_at scope.now) }
    requires known { HasImages (scope_at scope.now) (images_at table.old) terms.old }
    requires known_spare { HasImages (scope_at scope.now) (images_at spare.old) terms.old }
    requires sound { IsSoundDriving (scope_at scope.now) (driving_in driver) }
    requires fit { IsFit (scope_at scope.now) (statement_in driver) }
    ensures grows { Grows terms.old terms.new }
    ensures lowered { OnOk result (IsDriverLowered (scope_at scope.now) (images_at table.old) (images_at spare.old) terms.old (statement_in driver.entry)
        (images_at table.new) (images_at spare.new) terms.new) }
{
    match driver {
        Driver::Link(target, value) => {
            lower_link(target, value, scope, table, terms)?;
            Ok(())
        }
        Driver::Net(name, value) => {
            lower_net(value, name, scope, table, terms)?;
            Ok(())
        }
        Driver::Block(block) => {
            lower_statement(alloc, block, scope, table, spare, terms)?;
            Ok(())
        }
    }
}

/// Comes to a driver: evaluates it where it settles a bit. Answers whether it does.
pub(crate) fn visit<'s>(
    alloc: Global,
    driver: Driver<'_, 's>,
    scope: &Scope<'_>,
    unsettled: &mut BTreeMap<&'s str, u128>,
    table: &mut NamedTerms<'s>,
    spare: &mut NamedTerms<'s>,
    terms: &mut Terms,
) -> Result<bool, NoMemory>
    requires objects { HasNarrowObjects (scope_at scope.now) }
    requires parameters { HasNoConstantMemory (scope_at scope.now) }
    requires opens { IsOpen (scope_at scope.now) (state_of (images_at table.old) (images_at spare.old) terms.old (masked unsettled.old)) }
    requires sound { IsSoundDriving (scope_at scope.now) (driving_in driver) }
    requires fit { IsFit (scope_at scope.now) (statement_in driver) }
    ensures grows { Grows terms.old terms.new }
    ensures visited { IfOk result (λ r. IsVisited (scope_at scope.now) (statement_in driver.entry)
        (state_of (images_at table.old) (images_at spare.old) terms.old (masked unsettled.old))
        (state_of (images_at table.new) (images_at spare.new) terms.new (masked unsettled.new))) }
{
    let settled = settled_by(alloc, driver, scope, unsettled)?;
    let some = meets(&settled, unsettled);
    if !some {
        return Ok(false);
    }
    remove(&settled, unsettled)?;
    lower_driver(alloc, driver, scope, table, spare, terms)?;
    Ok(true)
}
