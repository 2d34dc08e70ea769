//! The names in a map, by the tokens of its texts.

ghost use Rattle.std.specs.Prelude.{◌≡◌, IfOk, OnOk};
ghost use Rattle.map_files.specs.Written as written;
ghost use Rattle.map_rules.specs.Accepted.{StandsForMap};
ghost use Rattle.map_trees.specs.Tokens.{AreMapTokens};
ghost use Rattle.model_meaning.specs.Model.{Model};
ghost use Rattle.read_cases.specs.Named.{AreNamesInAll, AreNamesInCommit, AreNamesInInput, AreNamesInState, AreNamesInText, HasAdded, names_of_texts};
ghost use Rattle.ready_maps.specs.Names.{names_in_map};
ghost use Rattle.refinement.specs.Map.{Map};

use crate::NoMemory;
use map_trees::{EntryTokens, InstructionTokens, MapTokens, StateTokens, TextTokens};
use std::alloc::Global;

/// Adds names.
fn add_names<'t>(more: &[&'t str], names: &mut Vec<&'t str>) -> Result<(), NoMemory>
    ensures { OnOk result (HasAdded (λ own. own ≡ names_of_texts more.now) names.old.items names.new.items) }
{
    for name in more {
        names.push(*name)?;
    }
    Ok(())
}

/// Adds the names in a text.
fn add_text<'t>(
    alloc: Global,
    text: &'t TextTokens,
    names: &mut Vec<&'t str>,
) -> Result<(), NoMemory>
    ensures { OnOk result (HasAdded (AreNamesInText text.now) names.old.items names.new.items) }
{
    match text {
        TextTokens::Tokens(tokens) => {
            let more = tokens.names(alloc)?;
            add_names(&more, names)?;
            Ok(())
        }
        TextTokens::Refused(_) => Ok(()),
    }
}

/// Adds the names in texts.
fn add_texts<'t>(
    alloc: Global,
    texts: &'t [TextTokens],
    names: &mut Vec<&'t str>,
) -> Result<(), NoMemory>
    ensures { OnOk result (HasAdded (AreNamesInAll AreNamesInText texts.now) names.old.items names.new.items) }
{
    for text in texts {
        add_text(alloc, text, names)?;
    }
    Ok(())
}

/// Adds the names in what a state is mapped to. The text of a memory is its path, which is one name.
fn add_state<'t, 'w: 't>(
    alloc: Global,
    state: &'t StateTokens<'w>,
    names: &mut Vec<&'t str>,
) -> Result<(), NoMemory>
    ensures { OnOk result (HasAdded (AreNamesInState state.now) names.old.items names.new.items) }
{
    match &state.tokens {
        Some(text) => {
            add_text(alloc, text, names)?;
            Ok(())
        }
        None => {
            names.push(state.entry.expression.as_str())?;
            Ok(())
        }
    }
}

/// Adds the names in what the states are mapped to.
fn add_states<'t, 'w: 't>(
    alloc: Global,
    states: &'t [StateTokens<'w>],
    names: &mut Vec<&'t str>,
) -> Result<(), NoMemory>
    ensures { OnOk result (HasAdded (AreNamesInAll AreNamesInState states.now) names.old.items names.new.items) }
{
    for state in states {
        add_state(alloc, state, names)?;
    }
    Ok(())
}

/// Adds the names in what the inputs are mapped to.
fn add_inputs<'t, 'w: 't>(
    alloc: Global,
    inputs: &'t [EntryTokens<'w>],
    names: &mut Vec<&'t str>,
) -> Result<(), NoMemory>
    ensures { OnOk result (HasAdded (AreNamesInAll AreNamesInInput inputs.now) names.old.items names.new.items) }
{
    for input in inputs {
        add_text(alloc, &input.tokens, names)?;
    }
    Ok(())
}

/// Adds the names in the conditions of the instructions' commits.
fn add_commits<'t, 'w: 't>(
    alloc: Global,
    instructions: &'t [InstructionTokens<'w>],
    names: &mut Vec<&'t str>,
) -> Result<(), NoMemory>
    ensures { OnOk result (HasAdded (AreNamesInAll AreNamesInCommit instructions.now) names.old.items names.new.items) }
{
    for instruction in instructions {
        add_text(alloc, &instruction.tokens, names)?;
    }
    Ok(())
}

/// The names in all expressions of a map, and the paths of its memories, in their order. A name stands there as often as it is used.
pub(crate) fn names_of<'t, 'w: 't>(
    alloc: Global,
    tokens: &'t MapTokens<'w>,
) -> Result<Vec<&'t str>, NoMemory>
    ensures { IfOk result (λ v. (m : Model) (w : written.WrittenMap) (p : Map) → AreMapTokens m w tokens.now → StandsForMap m w p
        → names_of_texts v.items ≡ names_in_map p) }
{
    let mut names = Vec::new(alloc);
    add_texts(alloc, &tokens.assume, &mut names)?;
    add_texts(alloc, &tokens.invariants, &mut names)?;
    add_text(alloc, &tokens.start, &mut names)?;
    add_states(alloc, &tokens.states, &mut names)?;
    add_inputs(alloc, &tokens.inputs, &mut names)?;
    add_commits(alloc, &tokens.instructions, &mut names)?;
    Ok(names)
}
