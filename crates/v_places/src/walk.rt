//! All places of a design, breadth first.
ghost use Rattle.std.specs.Prelude.{◌≡◌, ◌∷◌, [], length, map, option_map, IfOk, Some};
ghost use Rattle.verilog_trees.specs.Syntax as pure;
ghost use Rattle.verilog_meaning.specs.Hierarchy.{module_named};
ghost use Rattle.verilog_meaning.specs.Settled.{Design};
ghost use Rattle.verilog_designs.specs.Accepted.{HasDuplicateName};
ghost use Rattle.v_syntax.specs.Source.{item_of, module_of, source_of};
ghost use Rattle.v_value.specs.Scope.{objects_of};
ghost use Rattle.v_places.specs.Added.{IsAdded};
ghost use Rattle.v_places.specs.Below.{Spot, top_spot, all_instances, below_by};
ghost use Rattle.v_places.specs.Walk.{IsWalk};
ghost use Rattle.v_places.specs.Views.{spots_of, module_in};
ghost use Rattle.v_places.specs.Whole.{Knows, AreAllPlaces};

use crate::below::add_items;
use crate::modules::numbers_of;
use crate::place::Place;
use crate::queue::{add_place, append};
use std::alloc::{AllocError, Global};
use std::collections::{BTreeMap, VecDeque};
use v_scopes::Constants;
use v_syntax::module::{Module, Tree};

/// Adds what stands below a place with this module and these constants, of this number.
fn add_below<'t, 's>(
    alloc: Global,
    within: &'t Module<'s>,
    modules: &'t [Module<'s>],
    numbers: &BTreeMap<&str, usize>,
    around: Constants<'_, '_>,
    number: usize,
    count: usize,
    queue: &mut VecDeque<Place<'t, 's>>,
) -> Result<Option<usize>, AllocError>
    ensures { IfOk result (λ o. (x : Spot) → x.of_module.items ≡ map item_of within.now.items.items → x.constants ≡ objects_of around.entry.scope.now.declarations.items
        → IsAdded count o (spots_of queue.new.items) (spots_of queue.old.items) (below_by (module_in modules.now numbers.now) number x (all_instances x.of_module.items))) }
{
    let more = add_items(
        alloc,
        &within.items,
        modules,
        numbers,
        around,
        number,
        count,
        queue,
    )?;
    Ok(more)
}

/// Takes each place of the queue to the end of the list, and puts into the queue what stands below it, if there is room.
fn add_all<'t, 's>(
    alloc: Global,
    modules: &'t [Module<'s>],
    numbers: &BTreeMap<&str, usize>,
    queue: &mut VecDeque<Place<'t, 's>>,
    list: &mut Vec<Place<'t, 's>>,
) -> Result<bool, AllocError>
    requires { (length queue.now.items ≡ 1) × (list.now.items ≡ []) }
    ensures { IfOk result (λ b. (source : pure.Source) (top : pure.Module) → Knows modules.now numbers.now source → spots_of queue.old.items ≡ top_spot top ∷ []
        → IsWalk source top b (spots_of list.new.items)) }
{
    let mut number = 0;
    let mut count = 1;
    while let Some(place) = queue.pop_front() {
        let around = Constants {
            scope: &place.constants,
        };
        let more = add_below(
            alloc,
            place.within,
            modules,
            numbers,
            around,
            number,
            count,
            queue,
        )?;
        match more {
            Some(more) => {
                count = more;
                append(list, place)?;
                number += 1;
            }
            None => return Ok(false),
        }
    }
    Ok(true)
}

/// The places of a design with these modules and this top, as `places` gives them.
fn places_of<'t, 's>(
    alloc: Global,
    modules: &'t [Module<'s>],
    top: &'t Module<'s>,
) -> Result<Option<Vec<Place<'t, 's>>>, AllocError>
    ensures { IfOk result (λ o. (d : Design) → d.source ≡ map module_of modules.now → module_named d.source d.top ≡ Some (module_of top.now)
        → ¬ HasDuplicateName d → AreAllPlaces d (option_map (λ v. spots_of v.items) o)) }
{
    let mut queue = VecDeque::new(alloc);
    add_place(alloc, top, None, &[], 0, &mut queue)?;
    let numbers = numbers_of(modules, alloc)?;
    let mut list = Vec::new(alloc);
    let whole = add_all(alloc, modules, &numbers, &mut queue, &mut list)?;
    if whole { Ok(Some(list)) } else { Ok(None) }
}

/// The places of a design whose top this is: the top, then breadth first what stands below, each below its parent in the order of the
/// text. There is none where the hierarchy is bad: where more than 65,536 instances stand below the top, or a module stands below itself.
/// It is said of designs without duplicate names.
pub fn places<'t, 's>(
    alloc: Global,
    tree: &'t Tree<'s>,
    top: &'t Module<'s>,
) -> Result<Option<Vec<Place<'t, 's>>>, AllocError>
    ensures { IfOk result (λ o. (d : Design) → d.source ≡ source_of tree.now → module_named d.source d.top ≡ Some (module_of top.now)
        → ¬ HasDuplicateName d → AreAllPlaces d (option_map (λ v. spots_of v.items) o)) }
{
    places_of(alloc, &tree.modules, top)
}
