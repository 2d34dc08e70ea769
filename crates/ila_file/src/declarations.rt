//! States, inputs, definitions and updates of a model file.

ghost use Rattle.std.specs.Prelude.{◌≡◌, codes, cond, Some, None, option_map, option_and_then};
ghost use Rattle.serde_json.specs.Data.{array};
ghost use Rattle.serde_json.specs.Find.{as_str};
ghost use Rattle.serde_json.specs.View.{view, items_view, members_view};
ghost use Rattle.model_files.specs.Shape.{all_in, sort_in, term_in, input_in, definition_in, entry_named, entries_in};
ghost use Rattle.model_places.specs.ShapePlaces.{under};
ghost use Rattle.ila_file.specs.Parts.{initial_of, state_of, state_under, input_under};
ghost use Rattle.ila_file.specs.Reading.{IsReading};
ghost use Rattle.ila_file.specs.View.{initial_view, sort_view, state_view, input_view, definition_view, update_view, states_view, inputs_view, definitions_view, updates_view};

use crate::scalars::{number_in, sort_in, stated_number, stated_truth};
use crate::stop::Stop;
use crate::terms::read_term;
use crate::written::{
    Definition, WrittenInput, WrittenSort, WrittenState, WrittenUpdate, WrittenValue,
};
use serde_json::{Map, Value};
use std::alloc::Global;

/// The states of a list, private ones or others.
pub(crate) fn states_in<'v>(
    alloc: Global,
    items: &'v [Value],
    is_private: bool,
) -> Result<Vec<WrittenState<'v>>, Stop>
    ensures { IsReading states_view result (all_in (state_of is_private) (items_view items.now)) }
{
    let mut states = Vec::new(alloc);
    for item in items {
        let state = state_in(item, is_private).ok_or(Stop::Refused)?;
        states.push(state)?;
    }
    Ok(states)
}

/// A state, private or not.
pub(crate) fn state_in<'v>(value: &'v Value, is_private: bool) -> Option<WrittenState<'v>>
    ensures { option_map state_view result ≡ state_of is_private (view value.now) }
{
    state_under(value, is_private)
}

fn state_under<'v>(value: &'v Value, is_private: bool) -> Option<WrittenState<'v>>
    ensures { option_map state_view result ≡ state_under is_private (view value.now) }
{
    let name = text_under(value, "name")?;
    let sort = sort_under(value)?;
    let initial = initial_of(is_private, sort, value.get("init"))?;
    Some(WrittenState {
        name,
        sort,
        initial,
    })
}

/// The text under a key.
pub(crate) fn text_under<'v>(value: &'v Value, key: &str) -> Option<&'v str>
    ensures { option_map (λ s. s.now) result ≡ under as_str key.now (view value.now) }
{
    let found = value.get(key)?;
    found.as_str()
}

/// The sort of a declaration.
pub(crate) fn sort_under(value: &Value) -> Option<WrittenSort>
    ensures { option_map sort_view result ≡ under sort_in (codes "sort") (view value.now) }
{
    let found = value.get("sort")?;
    sort_in(found)
}

fn initial_of(
    is_private: bool,
    sort: WrittenSort,
    value: Option<&Value>,
) -> Option<Option<WrittenValue>>
    ensures { option_map initial_view result ≡ initial_of is_private (sort_view sort) (option_map (λ v. view v.now) value.entry) }
{
    match (sort, value) {
        (WrittenSort::Truth, Some(value)) => stated_truth(value.as_bool()),
        (WrittenSort::Word(_), Some(value)) => stated_number(number_in(value)),
        _ => unstated(is_private),
    }
}

/// A private state has to state an initial value.
fn unstated(is_private: bool) -> Option<Option<WrittenValue>>
    ensures { result ≡ cond is_private None (Some None) }
{
    if is_private { None } else { Some(None) }
}

/// The inputs of a list.
pub(crate) fn inputs_in<'v>(
    alloc: Global,
    items: &'v [Value],
) -> Result<Vec<WrittenInput<'v>>, Stop>
    ensures { IsReading inputs_view result (all_in input_in (items_view items.now)) }
{
    let mut inputs = Vec::new(alloc);
    for item in items {
        let input = input_in(item).ok_or(Stop::Refused)?;
        inputs.push(input)?;
    }
    Ok(inputs)
}

/// An input: a truth value or a word.
pub(crate) fn input_in<'v>(value: &'v Value) -> Option<WrittenInput<'v>>
    ensures { option_map input_view result ≡ input_in (view value.now) }
{
    input_under(value)
}

fn input_under<'v>(value: &'v Value) -> Option<WrittenInput<'v>>
    ensures { option_map input_view result ≡ input_under (view value.now) }
{
    let name = text_under(value, "name")?;
    let sort = sort_under(value)?;
    match sort {
        WrittenSort::Truth | WrittenSort::Word(_) => Some(WrittenInput { name, sort }),
        WrittenSort::Memory(_, _) => None,
    }
}

/// The definitions of a list.
pub(crate) fn definitions_in<'v>(
    alloc: Global,
    items: &'v [Value],
) -> Result<Vec<Definition<'v>>, Stop>
    ensures { IsReading definitions_view result (all_in definition_in (items_view items.now)) }
{
    let mut definitions = Vec::new(alloc);
    for item in items {
        let definition = definition_in(alloc, item)?;
        definitions.push(definition)?;
    }
    Ok(definitions)
}

/// A definition: the list of its name and its term.
pub(crate) fn definition_in<'v>(alloc: Global, value: &'v Value) -> Result<Definition<'v>, Stop>
    ensures { IsReading definition_view result (definition_in (view value.now)) }
{
    match value {
        Value::Array(items) => {
            let definition = pair_in(alloc, items)?;
            Ok(definition)
        }
        _ => Err(Stop::Refused),
    }
}

fn pair_in<'v>(alloc: Global, items: &'v [Value]) -> Result<Definition<'v>, Stop>
    ensures { IsReading definition_view result (definition_in (array (items_view items.now))) }
{
    match items {
        [name, term] => {
            let definition = named_term(alloc, name.as_str(), term)?;
            Ok(definition)
        }
        _ => Err(Stop::Refused),
    }
}

fn named_term<'v>(
    alloc: Global,
    name: Option<&'v str>,
    value: &'v Value,
) -> Result<Definition<'v>, Stop>
    ensures { IsReading definition_view result
        (option_and_then (λ n. entry_named n (term_in (view value.now))) (option_map (λ s. s.now) name.entry)) }
{
    let name = name.ok_or(Stop::Refused)?;
    let term = read_term(alloc, value)?;
    Ok(Definition { name, term })
}

/// The updates of an object, by its keys in ascending order.
pub(crate) fn updates_in<'v>(
    alloc: Global,
    members: &'v Map<String, Value>,
) -> Result<Vec<WrittenUpdate<'v>>, Stop>
    ensures { IsReading updates_view result (entries_in (members_view members.now.entries)) }
{
    let mut updates = Vec::new(alloc);
    for (state, found) in members.iter() {
        let update = update_in(alloc, state.as_str(), found)?;
        updates.push(update)?;
    }
    Ok(updates)
}

fn update_in<'v>(alloc: Global, state: &'v str, value: &'v Value) -> Result<WrittenUpdate<'v>, Stop>
    ensures { IsReading update_view result (entry_named state.now (term_in (view value.now))) }
{
    let term = read_term(alloc, value)?;
    Ok(WrittenUpdate { state, term })
}
