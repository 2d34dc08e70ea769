//! Registers, nets and continuous assignments.

ghost use Rattle.std.specs.Prelude.{◌≡◌, ◌++◌, ◌∷◌, [], map, IfOk, IsTrue};
ghost use Rattle.model_meaning.specs.Model.{states_of};
ghost use Rattle.model_meaning.specs.Term.{is_sort};
ghost use Rattle.wb_terms.specs.Sort.{as_sort};
ghost use Rattle.v_syntax.specs.Tree.{tree_of};
ghost use Rattle.v_syntax.specs.Source.{item_of};
ghost use Rattle.ila_model.specs.Model.{model_of};
ghost use Rattle.emitted_modules.specs.Rtl as rtl;
ghost use Rattle.emitted_trees.specs.Items.{wire_named, register_named, assigned};

use crate::NoMemory;
use crate::lists::{one, with};
use crate::ports::{addresses_of_sort, range_of_sort};
use ila_model::IlaModel;
use std::alloc::Global;
use v_syntax::module::{Assignment, Item, Variable, Wire};
use v_syntax::tree::{Expression, Selects, Target};
use wb_terms::Sort;

/// Items with one more behind them.
pub(crate) fn with_item<'n>(items: Vec<Item<'n>>, item: Item<'n>) -> Result<Vec<Item<'n>>, NoMemory>
    ensures { IfOk result (λ v. map item_of v.items ≡ map item_of items.entry.items ++ item_of item.entry ∷ []) }
{
    let all = with(items, item)?;
    Ok(all)
}

/// A register of a sort.
fn register<'n>(alloc: Global, name: &'n str, sort: Sort) -> Result<Item<'n>, NoMemory>
    requires { IsTrue (is_sort (as_sort sort)) }
    ensures { IfOk result (λ i. item_of i ≡ register_named name.now (as_sort sort)) }
{
    let range = range_of_sort(alloc, sort)?;
    let addresses = addresses_of_sort(alloc, sort)?;
    let variables = one(alloc, Variable { name, addresses })?;
    Ok(Item::Variables(false, range, variables))
}

/// The registers of the model's states.
pub(crate) fn registers<'n>(alloc: Global, model: &'n IlaModel) -> Result<Vec<Item<'n>>, NoMemory>
    ensures { IfOk result (λ v. map item_of v.items ≡ map rtl.register_item (states_of (model_of model.now).top)) }
{
    let mut items = Vec::new(alloc);
    for place in 0..model.state_count() {
        let item = register(alloc, model.state_name(place), model.state_sort(place))?;
        items = with_item(items, item)?;
    }
    Ok(items)
}

/// A net of a sort with what is assigned to it.
pub(crate) fn net<'n>(
    alloc: Global,
    name: &'n str,
    sort: Sort,
    value: Expression<'n>,
) -> Result<Item<'n>, NoMemory>
    ensures { IfOk result (λ i. item_of i ≡ wire_named name.now (as_sort sort) (tree_of value.entry)) }
{
    let value = Box::new(alloc, value)?;
    let range = range_of_sort(alloc, sort)?;
    let wire = Wire {
        name,
        value: Some(value),
    };
    let wires = one(alloc, wire)?;
    Ok(Item::Wires(false, range, wires))
}

/// A continuous assignment to a name.
pub(crate) fn assign_item<'n>(
    alloc: Global,
    name: &'n str,
    value: Expression<'n>,
) -> Result<Item<'n>, NoMemory>
    ensures { IfOk result (λ i. item_of i ≡ assigned name.now (tree_of value.entry)) }
{
    let target = Target::Place(name, Selects::Whole);
    let assignments = one(alloc, Assignment { target, value })?;
    Ok(Item::Assign(assignments))
}
