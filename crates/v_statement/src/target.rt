//! The places that the targets of assignments mean.
ghost use Rattle.std.specs.Prelude.{◌≡◌, ◌≤◌, ◌++◌, [], ◌∷◌, OnOk};
ghost use Rattle.verilog_meaning.specs.Expression.{no_values, select_index, select_bits, selects_width};
ghost use Rattle.verilog_meaning.specs.Statement.{named_place, places, all_places, places_width, target_width, targets_width};
ghost use Rattle.v_value.specs.Scope.{object_of, scope_at, valuation_at};
ghost use Rattle.v_syntax.specs.Tree.{selects_of, select_of, target_of};
ghost use Rattle.v_value.specs.Index.{integer_at};
ghost use Rattle.v_statement.specs.Places.{bits_of, place_of, places_of};
ghost use Rattle.v_statement.specs.Statements.{IsReadyFor, IsNarrowSelect, AreNarrowSelects, HasNarrowSelects, HaveNarrowSelects, target_list};

use crate::evaluation::constant_of;
use crate::place::{Bits, Cell, Place};
use crate::select::{
    all_bits, bit_at, bits_between, bits_downward, bits_upward, count_of, indexed_cell,
};
use std::alloc::AllocError;
use v_syntax::tree::{Select, Selects, Target};
use v_value::scope::{Entry, Object, Scope};
use v_value::select::Integer;
use v_value::taken::integer_of;

/// The number of an index by its own sign; of a part select, which is no index, one that is out of range.
fn select_index(select: &Select<'_>, scope: &Scope<'_>, values: &[Entry<'_>]) -> Integer
    requires ready { IsReadyFor (scope_at scope.now) (valuation_at values.now) }
    requires narrow { IsNarrowSelect (scope_at scope.now) (select_of select.now) }
    ensures { integer_at result ≡ select_index (scope_at scope.now) (valuation_at values.now) (select_of select.now) }
{
    match select {
        Select::Index(index) => integer_of(index, scope, values),
        Select::Part(_, _) | Select::PartUp(_, _) | Select::PartDown(_, _) => Integer {
            negative: true,
            magnitude: 0,
        },
    }
}

/// The bits that a select takes.
fn select_bits(select: &Select<'_>, scope: &Scope<'_>, values: &[Entry<'_>], object: Object) -> Bits
    requires ready { IsReadyFor (scope_at scope.now) (valuation_at values.now) }
    requires narrow { IsNarrowSelect (scope_at scope.now) (select_of select.now) }
    requires at_most_128 { (select_bits (scope_at scope.now) no_values (object_of object) (select_of select.now)).count ≤ 128 }
    ensures { bits_of result
        ≡ select_bits (scope_at scope.now) (valuation_at values.now) (object_of object) (select_of select.now) }
{
    match select {
        Select::Index(index) => bit_at(object, integer_of(index, scope, values)),
        Select::Part(left, right) => bits_between(
            object,
            constant_of(left, scope),
            constant_of(right, scope),
        ),
        Select::PartUp(base, width) => bits_upward(
            object,
            integer_of(base, scope, values),
            count_of(constant_of(width, scope)),
        ),
        Select::PartDown(base, width) => bits_downward(
            object,
            integer_of(base, scope, values),
            count_of(constant_of(width, scope)),
        ),
    }
}

/// The place that a name with selects means, its indexes read in the values.
fn place_of<'s>(
    selects: &Selects<'s>,
    scope: &Scope<'_>,
    values: &[Entry<'_>],
    name: &'s str,
) -> Place<'s>
    requires ready { IsReadyFor (scope_at scope.now) (valuation_at values.now) }
    requires narrow { AreNarrowSelects (scope_at scope.now) (selects_of selects.now) }
    requires at_most_128 { selects_width (scope_at scope.now) (scope_at scope.now name.now) (selects_of selects.now) ≤ 128 }
    ensures { place_of result
        ≡ named_place (scope_at scope.now) (valuation_at values.now) name.now (selects_of selects.now) }
{
    let object = scope.object(name);
    let (cell, bits) = match selects {
        Selects::Whole => (Cell::Variable, all_bits(object)),
        Selects::One(select) if object.addresses.is_some() => {
            (
                indexed_cell(object, select_index(select, scope, values)),
                all_bits(object),
            )
        }
        Selects::One(select) => (Cell::Variable, select_bits(select, scope, values, object)),
        Selects::Two(index, select) => (
            indexed_cell(object, select_index(index, scope, values)),
            select_bits(select, scope, values, object),
        ),
    };
    Place { name, cell, bits }
}

/// Adds the places of a target, the leftmost first.
#[cycle(places)]
pub(crate) fn add_places<'s>(
    target: &Target<'s>,
    scope: &Scope<'_>,
    values: &[Entry<'_>],
    found: &mut Vec<Place<'s>>,
) -> Result<(), AllocError>
    requires ready { IsReadyFor (scope_at scope.now) (valuation_at values.now) }
    requires narrow { HasNarrowSelects (scope_at scope.now) (target_of target.now) }
    requires at_most_128 { target_width (scope_at scope.now) (target_of target.now) ≤ 128 }
    ensures { OnOk result (places_of found.new.items
        ≡ places_of found.old.items ++ places (scope_at scope.now) (valuation_at values.now) (target_of target.now)) }
{
    match target {
        Target::Place(name, selects) => add_place(selects, scope, values, name, found),
        Target::Joined(targets) => add_all_places(targets, scope, values, found),
    }
}

/// Adds the place of a name with selects.
fn add_place<'s>(
    selects: &Selects<'s>,
    scope: &Scope<'_>,
    values: &[Entry<'_>],
    name: &'s str,
    found: &mut Vec<Place<'s>>,
) -> Result<(), AllocError>
    requires ready { IsReadyFor (scope_at scope.now) (valuation_at values.now) }
    requires narrow { AreNarrowSelects (scope_at scope.now) (selects_of selects.now) }
    requires at_most_128 { selects_width (scope_at scope.now) (scope_at scope.now name.now) (selects_of selects.now) ≤ 128 }
    ensures { OnOk result (places_of found.new.items
        ≡ places_of found.old.items ++ named_place (scope_at scope.now) (valuation_at values.now) name.now (selects_of selects.now) ∷ []) }
{
    found.push(place_of(selects, scope, values, name))?;
    Ok(())
}

/// Adds the places of targets, the leftmost first.
#[cycle(places)]
fn add_all_places<'s>(
    targets: &[Target<'s>],
    scope: &Scope<'_>,
    values: &[Entry<'_>],
    found: &mut Vec<Place<'s>>,
) -> Result<(), AllocError>
    requires ready { IsReadyFor (scope_at scope.now) (valuation_at values.now) }
    requires narrow { HaveNarrowSelects (scope_at scope.now) (target_list targets.now) }
    requires at_most_128 { targets_width (scope_at scope.now) (target_list targets.now) ≤ 128 }
    ensures { OnOk result (places_of found.new.items
        ≡ places_of found.old.items ++ all_places (scope_at scope.now) (valuation_at values.now) (target_list targets.now)) }
{
    for target in targets {
        add_places(target, scope, values, found)?;
    }
    Ok(())
}

/// How many bits the places take together.
pub(crate) fn places_width(places: &[Place<'_>]) -> u32
    requires { places_width (places_of places.now) ≤ 128 }
    ensures { result ≡ places_width (places_of places.now) }
{
    let mut width = 0;
    for place in places {
        width += place.bits.count;
    }
    width
}
