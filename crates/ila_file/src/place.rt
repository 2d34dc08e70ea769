//! Where in a model file a walk is, and the notes that lead there.

ghost use Rattle.std.specs.Prelude.{◌≡◌, IfOk, OnOk, ◌-◌, ◌++◌, ◌∷◌, [], None, Some, codes, length, take, option_map};
ghost use Rattle.model_places.specs.Sites.{into, key_spot, item_spot, part_spot, member_spot, item_text, head_text, after_mark, way_text, spot_text};
ghost use Rattle.model_places.specs.Notes.{note_at};
ghost use Rattle.ila_file.specs.Places.{spot_view, way_of, note_text};

use crate::{NoMemory, Note};
use itoa::Buffer;
use std::alloc::Global;

/// The way to a machine of a model file: the places of the instructions through whose children it leads, the outermost first.
#[derive(Drop)]
pub struct Place {
    alloc: Global,
    instructions: Vec<usize>,
}

/// What a note tells of, within the machine that its place leads to.
#[derive(Clone, Copy)]
pub struct Spot<'e> {
    /// A key of the machine's object.
    key: &'e str,
    /// The place of an item in the list under the key, from 0.
    index: Option<usize>,
    /// The item's name.
    name: Option<&'e str>,
    /// A key of the item's object.
    part: Option<&'e str>,
    /// A key of the object under that.
    member: Option<&'e str>,
}

impl<'e> Spot<'e> {
    /// What stands under a key of the machine's object, as `valid`.
    pub fn key(key: &'e str) -> Spot<'e>
        ensures { spot_view result ≡ key_spot key.now }
    {
        Spot {
            key,
            index: None,
            name: None,
            part: None,
            member: None,
        }
    }

    /// An item of the list under a key, as `states[0] i`.
    pub fn item(key: &'e str, index: usize, name: Option<&'e str>) -> Spot<'e>
        ensures { spot_view result ≡ item_spot key.now index (option_map (λ n. n.now) name.entry) }
    {
        Spot {
            key,
            index: Some(index),
            name,
            part: None,
            member: None,
        }
    }

    /// What stands under a key of the item's object, as `states[0] i: init`.
    pub fn part(self, part: &'e str) -> Spot<'e>
        ensures { spot_view result ≡ part_spot (spot_view self.entry) part.now }
    {
        Spot {
            part: Some(part),
            ..self
        }
    }

    /// What stands under a key of the object under that, as `instructions[1] ADD: update q`.
    pub fn member(self, member: &'e str) -> Spot<'e>
        ensures { spot_view result ≡ member_spot (spot_view self.entry) member.now }
    {
        Spot {
            member: Some(member),
            ..self
        }
    }
}

impl Place {
    /// The machine of the model itself.
    pub fn top(alloc: Global) -> Place
        ensures { way_of result ≡ [] }
    {
        Place {
            alloc,
            instructions: Vec::new(alloc),
        }
    }

    /// Goes to the machine of the child of an instruction, by its place in the list, from 0.
    pub fn enter(&mut self, instruction: usize) -> Result<(), NoMemory>
        ensures { OnOk result (way_of self.new ≡ into (way_of self.old) instruction) }
    {
        self.instructions.push(instruction)?;
        Ok(())
    }

    /// Goes back to the machine around it.
    pub fn leave(&mut self)
        ensures { way_of self.new ≡ take (length (way_of self.old) - 1) (way_of self.old) }
    {
        self.instructions.pop();
    }

    /// The note of a spot of the machine, as `instructions[1].child.states[0] i: init`.
    pub fn note(&self, spot: Spot<'_>) -> Result<Note, NoMemory>
        ensures { IfOk result (λ n. note_text n ≡ note_at (way_of self.now) (spot_view spot.entry)) }
    {
        let mut text = Vec::new(self.alloc);
        append_way(&mut text, &self.instructions)?;
        append_spot(&mut text, spot)?;
        Note::new(self.alloc, &text)
    }
}

/// Appends the children of the instructions, one within the other, as `instructions[1].child.`.
fn append_way(text: &mut Vec<u8>, instructions: &[usize]) -> Result<(), NoMemory>
    ensures { OnOk result (text.new.items ≡ text.old.items ++ way_text instructions.now) }
{
    for instruction in instructions {
        append_item(text, "instructions", *instruction)?;
        text.extend_from_slice(b".child.")?;
    }
    Ok(())
}

fn append_spot(text: &mut Vec<u8>, spot: Spot<'_>) -> Result<(), NoMemory>
    ensures { OnOk result (text.new.items ≡ text.old.items ++ spot_text (spot_view spot.entry)) }
{
    append_head(text, spot.key, spot.index)?;
    append_after(text, " ", spot.name)?;
    append_after(text, ": ", spot.part)?;
    append_after(text, " ", spot.member)
}

/// Appends the key, or an item of the list under it.
fn append_head(text: &mut Vec<u8>, key: &str, index: Option<usize>) -> Result<(), NoMemory>
    ensures { OnOk result (text.new.items ≡ text.old.items ++ head_text key.now index) }
{
    match index {
        Some(index) => append_item(text, key, index),
        None => text.extend_from_slice(key.as_bytes()),
    }
}

/// Appends a mark and a word, where there is a word.
fn append_after(text: &mut Vec<u8>, mark: &str, word: Option<&str>) -> Result<(), NoMemory>
    ensures { OnOk result (text.new.items ≡ text.old.items ++ after_mark mark.now (option_map (λ w. w.now) word.entry)) }
{
    match word {
        Some(word) => {
            text.extend_from_slice(mark.as_bytes())?;
            text.extend_from_slice(word.as_bytes())
        }
        None => Ok(()),
    }
}

/// Appends an item of the list under a key, as `states[0]`.
fn append_item(text: &mut Vec<u8>, key: &str, index: usize) -> Result<(), NoMemory>
    ensures { OnOk result (text.new.items ≡ text.old.items ++ item_text key.now index) }
{
    let mut buffer = Buffer::new();
    text.extend_from_slice(key.as_bytes())?;
    text.extend_from_slice(b"[")?;
    text.extend_from_slice(buffer.format(index).as_bytes())?;
    text.extend_from_slice(b"]")
}
