//! Into which expressions of a map no input may come: its invariants, and what its states are mapped to that are no memories.

ghost use Rattle.std.specs.Prelude.{◌≡◌, ◌++◌, ◌∷◌, [], IfOk, OnOk, replicate};
ghost use Rattle.model_meaning.specs.Model.{Model};
ghost use Rattle.refinement.specs.Map.{Map};
ghost use Rattle.map_files.specs.Written as pure;
ghost use Rattle.map_rules.specs.Accepted.{StandsForMap};
ghost use Rattle.map_trees.specs.Tokens.{AreMapTokens};
ghost use Rattle.map_uses.specs.Whole.{asked_flags};
ghost use Rattle.map_reading.specs.Flags.{value_flags};

use map_trees::{MapTokens, StateTokens};
use std::alloc::{AllocError, Global};

/// Adds a flag so many times.
fn add_flags(flag: bool, count: usize, flags: &mut Vec<bool>) -> Result<(), AllocError>
    ensures { OnOk result (flags.new.items ≡ flags.old.items ++ replicate count flag) }
{
    for _turn in 0..count {
        flags.push(flag)?;
    }
    Ok(())
}

/// Adds the flag of what a state is mapped to, where it is no memory.
fn add_value_flag(state: &StateTokens<'_>, flags: &mut Vec<bool>) -> Result<(), AllocError>
    ensures { OnOk result (flags.new.items ≡ flags.old.items ++ value_flags (state.now ∷ [])) }
{
    match &state.tokens {
        Some(_) => {
            flags.push(true)?;
            Ok(())
        }
        None => Ok(()),
    }
}

/// Adds the flags of what the states are mapped to that are no memories.
fn add_value_flags(states: &[StateTokens<'_>], flags: &mut Vec<bool>) -> Result<(), AllocError>
    ensures { OnOk result (flags.new.items ≡ flags.old.items ++ value_flags states.now) }
{
    for state in states {
        add_value_flag(state, flags)?;
    }
    Ok(())
}

/// For each expression of a map, in the order of its keys, whether it is one into which no input may come.
pub(crate) fn flags_of(alloc: Global, tokens: &MapTokens<'_>) -> Result<Vec<bool>, AllocError>
    ensures { IfOk result (λ v. (m : Model) (w : pure.WrittenMap) (p : Map) → AreMapTokens m w tokens.now → StandsForMap m w p → v.items ≡ asked_flags m p) }
{
    let mut flags = Vec::new(alloc);
    add_flags(false, tokens.assume.len(), &mut flags)?;
    add_flags(true, tokens.invariants.len(), &mut flags)?;
    flags.push(false)?;
    add_value_flags(&tokens.states, &mut flags)?;
    add_flags(false, tokens.inputs.len(), &mut flags)?;
    add_flags(false, tokens.instructions.len(), &mut flags)?;
    Ok(flags)
}
