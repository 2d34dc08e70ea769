//! From the places of a design to the bits that come from inputs of its top.

ghost use Rattle.std.specs.Prelude.{◌≡◌, true, length, map, IfOk};
ghost use Rattle.verilog_meaning.specs.Settled.{Design};
ghost use Rattle.v_syntax.specs.Source.{item_of};
ghost use Rattle.v_masks.specs.Masks.{masked};
ghost use Rattle.v_places.specs.Views.{spots_of};
ghost use Rattle.v_flat.specs.Numbered.{numbered};
ghost use Rattle.v_flat.specs.Views.{names_in};
ghost use Rattle.v_flat.specs.Whole.{IsPlacing, AreCalled};
ghost use Rattle.map_uses.specs.Table.{new_name_in, StandsWith, TellsInputs};

use crate::inputs::top_inputs;
use crate::table::InputTable;
use flat_designs::laws::dotted_names_are_a_naming;
use map_inputs::comes_from_inputs;
use map_paths::Instances;
use map_paths::laws::located_names_are_dotted_names;
use place_kinds::laws::{flat_kinds_are_kinds_of_the_design, places_are_placed};
use std::alloc::{AllocError, Global};
use v_flat::{DottedNames, FlatDesign, flat_design, tables_of};
use v_instances::interface::Interfaces;
use v_places::Place;
use v_syntax::module::Item;

/// The items of a design in one scope.
fn items_of<'x, 'a>(flat: &'x FlatDesign<'a>) -> &'x [Item<'a>]
    ensures { result.now ≡ flat.now.items.items }
{
    &flat.items
}

/// The table of the design that stands at these places, where its names are called by the numbers of their modules.
pub(crate) fn table_of<'t, 'a, 's: 'a>(
    places: &'t [Place<'t, 's>],
    names: &'a DottedNames<'a>,
    interfaces: &Interfaces<'s>,
    alloc: Global,
) -> Result<InputTable<'a, 's>, AllocError>
    requires count { length names.now.places.items ≡ length places.now }
    requires called { (d : Design) → IsPlacing d (spots_of places.now)
        → AreCalled d (numbered true (spots_of places.now)) (spots_of places.now) (map names_in names.now.places.items) }
    requires stands { (d : Design) × StandsWith interfaces.now (spots_of places.now) d }
    ensures { IfOk result (λ t. (d : Design) → StandsWith interfaces.now (spots_of places.now) d → TellsInputs d (new_name_in t) (masked t.marked)) }
{
    places_are_placed();
    flat_kinds_are_kinds_of_the_design();
    located_names_are_dotted_names();
    dotted_names_are_a_naming();
    let flat = flat_design(alloc, places, names, interfaces)?;
    let inputs = top_inputs(places, &names.places, alloc)?;
    let marked = comes_from_inputs(alloc, items_of(&flat), &flat.scope, &inputs)?;
    let own = tables_of(alloc, &names.places)?;
    let instances = Instances::of(alloc, places)?;
    Ok(InputTable {
        names: own,
        instances,
        marked,
    })
}
