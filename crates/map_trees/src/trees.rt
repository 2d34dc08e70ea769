//! The trees of a map's expressions.

ghost use Rattle.std.specs.Prelude.{◌≡◌, Bool, List};
ghost use Rattle.wb_values.specs.Value.{Name, Entries};
ghost use Rattle.model_meaning.specs.Model.{Model};
ghost use Rattle.map_file.specs.View.{mapped_view};
ghost use Rattle.map_files.specs.Written as written;
ghost use Rattle.map_files.specs.Written.{Text};
ghost use Rattle.map_rules.specs.Case.{is_memory_named};
ghost use Rattle.map_trees.specs.Tokens.{AreEntryTokens, AreInstructionTokens, AreMapTokens, AreStateTokens, AreTokens, IsStateTokens, IsTokens};
ghost use Rattle.map_trees.specs.Trees.{AreEntryTrees, AreInstructionTrees, AreStateTrees, AreTrees, AreMapTrees, IsBad, IsMapRead, IsStateTree, IsTree};

use crate::stop::Stop;
use crate::tokens::{EntryTokens, InstructionTokens, MapTokens, StateTokens, TextTokens};
use ila_file::{NoMemory, Note as PlaceNote, Place, Spot};
use map_expressions::TextStop;
use map_file::{MapRefusal, MapRule, MapStop, WrittenMap};
use std::alloc::Global;
use v_lex::Note;
use v_syntax::tree::{Expression, Selects};

/// A name of the model with the tree of its expression. A memory's is the path to which it is mapped, as a name.
#[derive(Drop)]
pub struct MappedTree<'t> {
    pub name: &'t str,
    pub tree: Expression<'t>,
}

/// How an instruction of the model ends.
#[derive(Drop)]
pub struct InstructionTree<'t> {
    pub name: &'t str,
    pub commit: Expression<'t>,
    pub bound: u64,
}

/// A map with the trees of its expressions. What is no expression stands as it is written.
#[derive(Drop)]
pub struct RefinementMap<'t> {
    pub written: &'t WrittenMap,
    pub assume: Vec<Expression<'t>>,
    pub invariants: Vec<Expression<'t>>,
    pub start: Expression<'t>,
    pub states: Vec<MappedTree<'t>>,
    pub inputs: Vec<MappedTree<'t>>,
    pub instructions: Vec<InstructionTree<'t>>,
}

/// The note of a place of the map, and in the text there, as `assume[0]: line 1 column 3: +`.
fn noted(alloc: Global, spot: Spot<'_>, note: &Note) -> Result<PlaceNote, NoMemory> {
    let place = Place::top(alloc).note(spot)?;
    let mut text = Vec::new(alloc);
    text.extend_from_slice(place.as_bytes())?;
    text.extend_from_slice(b": ")?;
    text.extend_from_slice(note.as_bytes())?;
    PlaceNote::new(alloc, &text)
}

/// The refusal of a text that is no expression.
fn unread(alloc: Global, spot: Spot<'_>, note: &Note) -> Stop
    ensures { IsBad result }
{
    match noted(alloc, spot, note) {
        Ok(note) => Stop::Unread(MapRefusal {
            rule: MapRule::BadExpression,
            note,
        }),
        Err(_) => Stop::NoMemory,
    }
}

/// The expression that a text is read as.
fn tree_of<'t>(
    alloc: Global,
    spot: Spot<'_>,
    tokens: &'t TextTokens,
) -> Result<Expression<'t>, Stop>
    ensures { (t : Text) → IsTokens tokens.now t → IsTree result t }
{
    match tokens {
        TextTokens::Tokens(text) => match text.expression(alloc) {
            Ok(tree) => Ok(tree),
            Err(TextStop::Refused(note)) => Err(unread(alloc, spot, &note)),
            Err(TextStop::NoMemory) => Err(Stop::NoMemory),
        },
        TextTokens::Refused(note) => Err(unread(alloc, spot, note)),
    }
}

/// The expressions of a list under a key of the map.
fn trees_of<'t>(
    alloc: Global,
    key: &str,
    tokens: &'t [TextTokens],
) -> Result<Vec<Expression<'t>>, Stop>
    ensures { (ts : List Text) → AreTokens tokens.now ts → AreTrees result ts }
{
    let mut list = Vec::new(alloc);
    for (index, each) in tokens.iter().enumerate() {
        let tree = tree_of(alloc, Spot::item(key, index, None), each)?;
        list.push(tree)?;
    }
    Ok(list)
}

/// What a state is mapped to: the path of a memory as a name, else the expression of its text.
fn state_tree<'t, 'w: 't>(alloc: Global, state: &'t StateTokens<'w>) -> Result<MappedTree<'t>, Stop>
    ensures { (is_memory : Bool) (e : Name × Text) → (mapped_view state.now.entry.now ≡ e) → IsStateTokens is_memory state.now.tokens e.1 → IsStateTree is_memory e result }
{
    let name = state.entry.name.as_str();
    match &state.tokens {
        Some(tokens) => {
            let tree = tree_of(alloc, Spot::key("states").part(name), tokens)?;
            Ok(MappedTree { name, tree })
        }
        None => {
            let tree = Expression::Name(state.entry.expression.as_str(), Selects::Whole);
            Ok(MappedTree { name, tree })
        }
    }
}

/// What the states are mapped to.
fn state_trees<'t, 'w: 't>(
    alloc: Global,
    states: &'t [StateTokens<'w>],
) -> Result<Vec<MappedTree<'t>>, Stop>
    ensures { (m : Model) (es : Entries Text) → AreStateTokens (is_memory_named m) states.now es → AreStateTrees m es result }
{
    let mut list = Vec::new(alloc);
    for state in states {
        let tree = state_tree(alloc, state)?;
        list.push(tree)?;
    }
    Ok(list)
}

/// What the inputs are mapped to.
fn input_trees<'t, 'w: 't>(
    alloc: Global,
    inputs: &'t [EntryTokens<'w>],
) -> Result<Vec<MappedTree<'t>>, Stop>
    ensures { (es : Entries Text) → AreEntryTokens inputs.now es → AreEntryTrees es result }
{
    let mut list = Vec::new(alloc);
    for input in inputs {
        let name = input.entry.name.as_str();
        let tree = tree_of(alloc, Spot::key("inputs").part(name), &input.tokens)?;
        list.push(MappedTree { name, tree })?;
    }
    Ok(list)
}

/// How the instructions end.
fn instruction_trees<'t, 'w: 't>(
    alloc: Global,
    instructions: &'t [InstructionTokens<'w>],
) -> Result<Vec<InstructionTree<'t>>, Stop>
    ensures { (es : List written.InstructionEntry) → AreInstructionTokens instructions.now es → AreInstructionTrees es result }
{
    let mut list = Vec::new(alloc);
    for (index, each) in instructions.iter().enumerate() {
        let name = each.entry.name.as_str();
        let spot = Spot::item("instructions", index, Some(name)).part("commit");
        let commit = tree_of(alloc, spot, &each.tokens)?;
        let bound = each.entry.bound;
        list.push(InstructionTree {
            name,
            commit,
            bound,
        })?;
    }
    Ok(list)
}

/// The same as what is told outside.
fn told<'t>(read: Result<RefinementMap<'t>, Stop>) -> Result<RefinementMap<'t>, MapStop>
    ensures { (m : Model) (w : written.WrittenMap) → AreMapTrees m w read.entry → IsMapRead m w result }
{
    match read {
        Ok(map) => Ok(map),
        Err(Stop::Unread(refusal)) => Err(MapStop::Refused(refusal)),
        Err(Stop::NoMemory) => Err(MapStop::NoMemory),
    }
}

/// The map with the trees of its expressions, one list after the other.
fn all_trees<'t, 'w: 't>(
    alloc: Global,
    tokens: &'t MapTokens<'w>,
) -> Result<RefinementMap<'t>, Stop>
    ensures { (m : Model) (w : written.WrittenMap) → AreMapTokens m w tokens.now → AreMapTrees m w result }
{
    let assume = trees_of(alloc, "assume", &tokens.assume)?;
    let invariants = trees_of(alloc, "invariants", &tokens.invariants)?;
    let start = tree_of(alloc, Spot::key("start"), &tokens.start)?;
    let states = state_trees(alloc, &tokens.states)?;
    let inputs = input_trees(alloc, &tokens.inputs)?;
    let instructions = instruction_trees(alloc, &tokens.instructions)?;
    Ok(RefinementMap {
        written: tokens.map,
        assume,
        invariants,
        start,
        states,
        inputs,
        instructions,
    })
}

/// The map with the trees of its expressions; or the refusal `BadExpression`, where one of its texts is read as none. The note of a
/// refusal leads to the first such text, in the order in which a map is gone through, and to the token there with which no expression
/// goes on.
pub fn map_trees<'t, 'w: 't>(
    alloc: Global,
    tokens: &'t MapTokens<'w>,
) -> Result<RefinementMap<'t>, MapStop>
    ensures { (m : Model) (w : written.WrittenMap) → AreMapTokens m w tokens.now → IsMapRead m w result }
{
    told(all_trees(alloc, tokens))
}
