//! Places that wait in a queue.
ghost use Rattle.std.specs.Prelude.{◌≡◌, ◌++◌, ◌∷◌, [], OnOk};
ghost use Rattle.verilog_designs.specs.Known.{known_constants};
ghost use Rattle.v_syntax.specs.Source.{module_of};
ghost use Rattle.v_constants.specs.Given.{given_of};
ghost use Rattle.v_places.specs.Views.{name_of, connected_to, spots_of};

use crate::place::Place;
use std::alloc::{AllocError, Global};
use std::collections::VecDeque;
use v_constants::{Override, constants_of};
use v_syntax::module::{Instance, Module};

/// Puts an element at the end of a list.
pub(crate) fn append<T: Drop>(list: &mut Vec<T>, last: T) -> Result<(), AllocError>
    ensures { OnOk result (list.new.items ≡ list.old.items ++ last ∷ []) }
{
    list.push(last)?;
    Ok(())
}

/// Puts an element at the end of a queue.
fn put_back<T: Drop>(queue: &mut VecDeque<T>, last: T) -> Result<(), AllocError>
    ensures { OnOk result (queue.new.items ≡ queue.old.items ++ last ∷ []) }
{
    queue.push_back(last)?;
    Ok(())
}

/// Puts the place of a module into the queue, whose parameters are given these.
pub(crate) fn add_place<'t, 's>(
    alloc: Global,
    within: &'t Module<'s>,
    instance: Option<&'t Instance<'s>>,
    given: &[Override<'s>],
    parent: usize,
    queue: &mut VecDeque<Place<'t, 's>>,
) -> Result<(), AllocError>
    ensures { OnOk result (spots_of queue.new.items
        ≡ spots_of queue.old.items ++ record { of_module = module_of within.now; instance = name_of instance.entry; parent = parent; connections = connected_to instance.entry; constants = known_constants (module_of within.now) (given_of given.now) } ∷ []) }
{
    let constants = constants_of(alloc, within, given)?;
    let place = Place {
        within,
        instance,
        parent,
        constants,
    };
    put_back(queue, place)?;
    Ok(())
}
