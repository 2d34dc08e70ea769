//! Where the expressions of a map stand in it.

use ila_file::Spot;
use map_trees::{EntryTokens, InstructionTokens, MapTokens, StateTokens};
use std::alloc::{AllocError, Global};

/// Adds the items of a list under a key.
fn add_items<'t>(key: &'t str, count: usize, spots: &mut Vec<Spot<'t>>) -> Result<(), AllocError> {
    for index in 0..count {
        spots.push(Spot::item(key, index, None))?;
    }
    Ok(())
}

/// Adds the states that are no memories.
fn add_states<'t, 'w: 't>(
    states: &'t [StateTokens<'w>],
    spots: &mut Vec<Spot<'t>>,
) -> Result<(), AllocError> {
    for state in states {
        if state.tokens.is_some() {
            spots.push(Spot::key("states").part(state.entry.name.as_str()))?;
        }
    }
    Ok(())
}

/// Adds the inputs.
fn add_inputs<'t, 'w: 't>(
    inputs: &'t [EntryTokens<'w>],
    spots: &mut Vec<Spot<'t>>,
) -> Result<(), AllocError> {
    for input in inputs {
        spots.push(Spot::key("inputs").part(input.entry.name.as_str()))?;
    }
    Ok(())
}

/// Adds the conditions of commits.
fn add_commits<'t, 'w: 't>(
    instructions: &'t [InstructionTokens<'w>],
    spots: &mut Vec<Spot<'t>>,
) -> Result<(), AllocError> {
    for (index, each) in instructions.iter().enumerate() {
        let name = each.entry.name.as_str();
        spots.push(Spot::item("instructions", index, Some(name)).part("commit"))?;
    }
    Ok(())
}

/// The places of all expressions of a map, in the order of its keys: each but the paths of memories.
pub(crate) fn places_of<'t, 'w: 't>(
    alloc: Global,
    tokens: &'t MapTokens<'w>,
) -> Result<Vec<Spot<'t>>, AllocError> {
    let mut spots = Vec::new(alloc);
    add_items("assume", tokens.assume.len(), &mut spots)?;
    add_items("invariants", tokens.invariants.len(), &mut spots)?;
    spots.push(Spot::key("start"))?;
    add_states(&tokens.states, &mut spots)?;
    add_inputs(&tokens.inputs, &mut spots)?;
    add_commits(&tokens.instructions, &mut spots)?;
    Ok(spots)
}

/// The place of the expression with a number.
pub(crate) fn place_at<'t>(spots: &[Spot<'t>], index: usize) -> Spot<'t> {
    match spots.get(index) {
        Some(spot) => *spot,
        None => Spot::key("start"),
    }
}
