//! The rules that refuse a map file, and a refusal.

ghost use Rattle.std.specs.Prelude.{◌≡◌};
ghost use Rattle.model_places.specs.Sites as pure;
ghost use Rattle.ila_file.specs.Places.{spot_view};
ghost use Rattle.map_file.specs.Rule.{rule_view, rule_name};
ghost use Rattle.map_file.specs.Reading.{IsRefusalAt};

use crate::MapStop;
use ila_file::{Note, Place, Spot};
use std::alloc::Global;

/// The rules that refuse a map file, in the order in which they are judged: each over the whole file before the next. The first three
/// ask for the file alone, the others for a model and a design besides.
#[derive(Clone, Copy, PartialEq, Eq, Debug)]
pub enum MapRule {
    /// The bytes are not a JSON document.
    BadJson,
    /// Something has another shape than it must have, or a key is missing.
    BadShape,
    /// An object has a key that objects of its kind do not have.
    UnknownKey,
    /// A mapped state is none of the model's.
    UnknownState,
    /// A state of the model is not mapped.
    StateUnmapped,
    /// A mapped input is none of the model's.
    UnknownInput,
    /// An input of the model is not mapped.
    InputUnmapped,
    /// A text is no expression, or one that has no meaning over the design; or the reset is no one-bit input port of the top.
    BadExpression,
    /// A mapped word or truth value has another width.
    WidthMismatch,
    /// A mapped state or an invariant depends on an input port of the top.
    MapUsesInput,
    /// A memory is not mapped to a memory of its shape.
    MemoryMismatch,
    /// An entry names no instruction of the model, or one that was named before.
    UnknownInstruction,
    /// An instruction of the model has no entry.
    BoundMissing,
    /// A bound, or the number of reset cycles, is out of its range.
    BadBound,
}

impl MapRule {
    /// The name that is printed for the rule.
    pub fn name(self) -> &'static str
        ensures { result.now ≡ rule_name (rule_view self) }
    {
        match self {
            MapRule::BadJson => "P1 BadJson",
            MapRule::BadShape => "P2 BadShape",
            MapRule::UnknownKey => "P3 UnknownKey",
            MapRule::UnknownState => "P4 UnknownState",
            MapRule::StateUnmapped => "P5 StateUnmapped",
            MapRule::UnknownInput => "P6 UnknownInput",
            MapRule::InputUnmapped => "P7 InputUnmapped",
            MapRule::BadExpression => "P8 BadExpression",
            MapRule::WidthMismatch => "P9 WidthMismatch",
            MapRule::MapUsesInput => "P10 MapUsesInput",
            MapRule::MemoryMismatch => "P11 MemoryMismatch",
            MapRule::UnknownInstruction => "P12 UnknownInstruction",
            MapRule::BoundMissing => "P13 BoundMissing",
            MapRule::BadBound => "P14 BadBound",
        }
    }
}

/// Why a map file is refused: the first rule that it breaks, and where.
#[derive(Drop)]
pub struct MapRefusal {
    pub rule: MapRule,
    /// The first place, in the order in which a map is gone through, at which the rule is broken.
    pub note: Note,
}

/// The refusal by a rule, with the note of a spot of the map.
pub(crate) fn refused_at(alloc: Global, rule: MapRule, spot: Spot<'_>) -> MapStop
    ensures { IsRefusalAt (rule_view rule) (spot_view spot.entry) result }
{
    match Place::top(alloc).note(spot) {
        Ok(note) => MapStop::Refused(MapRefusal { rule, note }),
        Err(_) => MapStop::NoMemory,
    }
}
