//! The texts of a map's expressions with their tokens.

ghost use Rattle.std.specs.Prelude.{◌≡◌, IfOk, map};
ghost use Rattle.std.specs.String.{string_bytes};
ghost use Rattle.ila_model.specs.Model.{model_of};
ghost use Rattle.map_file.specs.View.{entry_view, map_view, mapped_view};
ghost use Rattle.map_trees.specs.Tokens.{AreEntryTokens, AreInstructionTokens, AreMapTokens, AreStateTokens, AreTokens, IsStateTokens, IsTokens, is_memory_in};

use ila_model::IlaModel;
use map_expressions::{TextStop, TokenText};
use map_file::{InstructionEntry, Mapped, WrittenMap};
use map_sorts::ModelSorts;
use std::alloc::{AllocError, Global};
use v_lex::Note;
use wb_terms::Sort;

/// The text of an expression with its tokens, or the place at which it has none.
#[derive(Drop)]
pub enum TextTokens {
    Tokens(TokenText),
    Refused(Note),
}

/// A state's entry with the tokens of its expression. The text of a memory is a path and no expression.
#[derive(Drop)]
pub struct StateTokens<'w> {
    pub entry: &'w Mapped,
    pub tokens: Option<TextTokens>,
}

/// An input's entry with the tokens of its expression.
#[derive(Drop)]
pub struct EntryTokens<'w> {
    pub entry: &'w Mapped,
    pub tokens: TextTokens,
}

/// An instruction's entry with the tokens of the condition of its commit.
#[derive(Drop)]
pub struct InstructionTokens<'w> {
    pub entry: &'w InstructionEntry,
    pub tokens: TextTokens,
}

/// A written map with the tokens of all its expressions, from which its trees borrow.
#[derive(Drop)]
pub struct MapTokens<'w> {
    pub map: &'w WrittenMap,
    pub assume: Vec<TextTokens>,
    pub invariants: Vec<TextTokens>,
    pub start: TextTokens,
    pub states: Vec<StateTokens<'w>>,
    pub inputs: Vec<EntryTokens<'w>>,
    pub instructions: Vec<InstructionTokens<'w>>,
}

/// The tokens of a text.
fn text_tokens(alloc: Global, text: &str) -> Result<TextTokens, AllocError>
    ensures { IfOk result (λ x. IsTokens x text.now) }
{
    match TokenText::new(alloc, text) {
        Ok(tokens) => Ok(TextTokens::Tokens(tokens)),
        Err(TextStop::Refused(note)) => Ok(TextTokens::Refused(note)),
        Err(TextStop::NoMemory) => Err(AllocError),
    }
}

/// The tokens of each of these texts.
fn all_tokens(alloc: Global, texts: &[String]) -> Result<Vec<TextTokens>, AllocError>
    ensures { IfOk result (λ v. AreTokens v.items (map string_bytes texts.now)) }
{
    let mut list = Vec::new(alloc);
    for text in texts {
        let tokens = text_tokens(alloc, text.as_str())?;
        list.push(tokens)?;
    }
    Ok(list)
}

/// Whether the state of this name is a memory.
fn is_memory(sorts: &ModelSorts<'_>, name: &str) -> bool
    ensures { result ≡ is_memory_in sorts.now name.now }
{
    matches!(sorts.state(name), Some(Sort::Memory(_, _)))
}

/// The tokens of a state's entry, where the state is no memory.
fn value_tokens(
    alloc: Global,
    sorts: &ModelSorts<'_>,
    entry: &Mapped,
) -> Result<Option<TextTokens>, AllocError>
    ensures { IfOk result (λ o. IsStateTokens (is_memory_in sorts.now (mapped_view entry.now).0) o (mapped_view entry.now).1) }
{
    if is_memory(sorts, entry.name.as_str()) {
        return Ok(None);
    }
    let tokens = text_tokens(alloc, entry.expression.as_str())?;
    Ok(Some(tokens))
}

/// The states' entries with their tokens.
fn state_tokens<'w>(
    alloc: Global,
    sorts: &ModelSorts<'_>,
    entries: &'w [Mapped],
) -> Result<Vec<StateTokens<'w>>, AllocError>
    ensures { IfOk result (λ v. AreStateTokens (is_memory_in sorts.now) v.items (map mapped_view entries.now)) }
{
    let mut list = Vec::new(alloc);
    for entry in entries {
        let tokens = value_tokens(alloc, sorts, entry)?;
        list.push(StateTokens { entry, tokens })?;
    }
    Ok(list)
}

/// The inputs' entries with their tokens.
fn entry_tokens<'w>(
    alloc: Global,
    entries: &'w [Mapped],
) -> Result<Vec<EntryTokens<'w>>, AllocError>
    ensures { IfOk result (λ v. AreEntryTokens v.items (map mapped_view entries.now)) }
{
    let mut list = Vec::new(alloc);
    for entry in entries {
        let tokens = text_tokens(alloc, entry.expression.as_str())?;
        list.push(EntryTokens { entry, tokens })?;
    }
    Ok(list)
}

/// The instructions' entries with their tokens.
fn instruction_tokens<'w>(
    alloc: Global,
    entries: &'w [InstructionEntry],
) -> Result<Vec<InstructionTokens<'w>>, AllocError>
    ensures { IfOk result (λ v. AreInstructionTokens v.items (map entry_view entries.now)) }
{
    let mut list = Vec::new(alloc);
    for entry in entries {
        let tokens = text_tokens(alloc, entry.commit.as_str())?;
        list.push(InstructionTokens { entry, tokens })?;
    }
    Ok(list)
}

/// A written map with the tokens of all its expressions, for a model that says which states are memories.
pub fn map_tokens<'w>(
    alloc: Global,
    map: &'w WrittenMap,
    model: &IlaModel,
) -> Result<MapTokens<'w>, AllocError>
    ensures { IfOk result (λ x. AreMapTokens (model_of model.now) (map_view map.now) x) }
{
    let sorts = ModelSorts::of(alloc, model)?;
    let assume = all_tokens(alloc, &map.assume)?;
    let invariants = all_tokens(alloc, &map.invariants)?;
    let start = text_tokens(alloc, map.start.as_str())?;
    let states = state_tokens(alloc, &sorts, &map.states)?;
    let inputs = entry_tokens(alloc, &map.inputs)?;
    let instructions = instruction_tokens(alloc, &map.instructions)?;
    Ok(MapTokens {
        map,
        assume,
        invariants,
        start,
        states,
        inputs,
        instructions,
    })
}
