//! The places below a place: one for each instance, in the order of the text. They wait at the end of a queue.
ghost use Rattle.std.specs.Prelude.{◌≡◌, ◌∷◌, [], Some, map, option_map, IfOk};
ghost use Rattle.wb_values.specs.Value.{Name};
ghost use Rattle.verilog_trees.specs.Syntax as pure;
ghost use Rattle.verilog_designs.specs.Known.{known_constants, known_module_scope, known_overrides};
ghost use Rattle.v_syntax.specs.Source.{connections_of, item_of, module_of};
ghost use Rattle.v_value.specs.Scope.{objects_of};
ghost use Rattle.v_constants.specs.Given.{given_of};
ghost use Rattle.v_places.specs.Below.{Spot, all_instances, item_instances, each_spot, below_by};
ghost use Rattle.v_places.specs.Views.{spots_of, each_if_any, module_in};
ghost use Rattle.v_places.specs.Added.{IsAdded};

use crate::modules::named;
use crate::place::Place;
use crate::queue::add_place;
use std::alloc::{AllocError, Global};
use std::collections::{BTreeMap, VecDeque};
use v_constants::{Override, overrides_of};
use v_scopes::Constants;
use v_syntax::module::{Connections, Instance, Item, Module};

/// How many instances may stand below the top.
const MOST_INSTANCES: usize = 65_536;

/// Adds the place of an instance of a module, where there are so many places already. It gives how many there are then, if there is room.
fn add_one<'t, 's>(
    alloc: Global,
    below: &'t Module<'s>,
    instance: &'t Instance<'s>,
    given: &[Override<'s>],
    parent: usize,
    count: usize,
    queue: &mut VecDeque<Place<'t, 's>>,
) -> Result<Option<usize>, AllocError>
    ensures { IfOk result (λ o. IsAdded count o (spots_of queue.new.items) (spots_of queue.old.items)
        (record { of_module = module_of below.now; instance = instance.now.name.now; parent = parent; connections = connections_of instance.now.connections; constants = known_constants (module_of below.now) (given_of given.now) } ∷ [])) }
{
    if count > MOST_INSTANCES {
        return Ok(None);
    }
    add_place(alloc, below, Some(instance), given, parent, queue)?;
    Ok(Some(count + 1))
}

/// Adds the places of these instances of a module, which are given these.
fn add_each<'t, 's>(
    alloc: Global,
    instances: &'t [Instance<'s>],
    below: &'t Module<'s>,
    given: &[Override<'s>],
    parent: usize,
    count: usize,
    queue: &mut VecDeque<Place<'t, 's>>,
) -> Result<Option<usize>, AllocError>
    ensures { IfOk result (λ o. IsAdded count o (spots_of queue.new.items) (spots_of queue.old.items)
        (each_spot parent (module_of below.now) (given_of given.now) (map (λ i. (i.name.now, connections_of i.connections)) instances.now))) }
{
    let mut sum = count;
    for instance in instances {
        let more = add_one(alloc, below, instance, given, parent, sum, queue)?;
        match more {
            Some(more) => sum = more,
            None => return Ok(None),
        }
    }
    Ok(Some(sum))
}

/// Adds the places of these instances of a module. One that the source lacks stands nowhere.
fn add_if_any<'t, 's>(
    alloc: Global,
    instances: &'t [Instance<'s>],
    below: Option<&'t Module<'s>>,
    given: &[Override<'s>],
    parent: usize,
    count: usize,
    queue: &mut VecDeque<Place<'t, 's>>,
) -> Result<Option<usize>, AllocError>
    ensures { IfOk result (λ o. IsAdded count o (spots_of queue.new.items) (spots_of queue.old.items)
        (each_if_any parent (option_map (λ m. module_of m.now) below.entry) (given_of given.now) (map (λ i. (i.name.now, connections_of i.connections)) instances.now))) }
{
    match below {
        Some(below) => {
            let more = add_each(alloc, instances, below, given, parent, count, queue)?;
            Ok(more)
        }
        None => Ok(Some(count)),
    }
}

/// What these connections override in a module, if there is one, where the constants around are these.
fn given_below<'s>(
    alloc: Global,
    given: &Connections<'s>,
    below: Option<&Module<'s>>,
    around: Constants<'_, '_>,
) -> Result<Vec<Override<'s>>, AllocError>
    ensures { IfOk result (λ v. (x d : pure.Module) → option_map (λ m. module_of m.now) below.entry ≡ Some d → (n : Name)
        → given_of v.items n ≡ known_overrides (known_module_scope x (objects_of around.entry.scope.now.declarations.items)) (connections_of given.now) d n) }
{
    match below {
        Some(below) => {
            let list = overrides_of(alloc, given, below, around)?;
            Ok(list)
        }
        None => Ok(Vec::new(alloc)),
    }
}

/// Adds the places of the instances of an item, where the constants around are these.
fn add_item<'t, 's>(
    alloc: Global,
    item: &'t Item<'s>,
    modules: &'t [Module<'s>],
    numbers: &BTreeMap<&str, usize>,
    around: Constants<'_, '_>,
    parent: usize,
    count: usize,
    queue: &mut VecDeque<Place<'t, 's>>,
) -> Result<Option<usize>, AllocError>
    ensures { IfOk result (λ o. (x : Spot) → x.constants ≡ objects_of around.entry.scope.now.declarations.items
        → IsAdded count o (spots_of queue.new.items) (spots_of queue.old.items) (below_by (module_in modules.now numbers.now) parent x (item_instances (item_of item.now)))) }
{
    match item {
        Item::Instances(name, given, instances) => {
            let below = named(modules, numbers, *name);
            let given = given_below(alloc, given, below, around)?;
            let more = add_if_any(alloc, instances, below, &given, parent, count, queue)?;
            Ok(more)
        }
        Item::Port(_) => Ok(Some(count)),
        Item::Parameter(_) => Ok(Some(count)),
        Item::Wires(_, _, _) => Ok(Some(count)),
        Item::Variables(_, _, _) => Ok(Some(count)),
        Item::Assign(_) => Ok(Some(count)),
        Item::Always(_, _) => Ok(Some(count)),
    }
}

/// Adds the places of the instances of items, where the constants around are these.
pub(crate) fn add_items<'t, 's>(
    alloc: Global,
    items: &'t [Item<'s>],
    modules: &'t [Module<'s>],
    numbers: &BTreeMap<&str, usize>,
    around: Constants<'_, '_>,
    parent: usize,
    count: usize,
    queue: &mut VecDeque<Place<'t, 's>>,
) -> Result<Option<usize>, AllocError>
    ensures { IfOk result (λ o. (x : Spot) → x.constants ≡ objects_of around.entry.scope.now.declarations.items
        → IsAdded count o (spots_of queue.new.items) (spots_of queue.old.items) (below_by (module_in modules.now numbers.now) parent x (all_instances (map item_of items.now)))) }
{
    let mut sum = count;
    for item in items {
        let more = add_item(alloc, item, modules, numbers, around, parent, sum, queue)?;
        match more {
            Some(more) => sum = more,
            None => return Ok(None),
        }
    }
    Ok(Some(sum))
}
