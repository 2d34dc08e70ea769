//! Which instructions of a machine decode.

ghost use Rattle.std.specs.Prelude.{◌≡◌, true, length, IfOk};
ghost use Rattle.wb_terms.specs.Environment.{AreOfSorts};
ghost use Rattle.term_evaluation.specs.Links.{valuation_at};
ghost use Rattle.term_evaluation.specs.Points.{IsPointOf};
ghost use Rattle.ila_child.specs.Decoding.{decodes, are_conditions, AreDecoded};

use crate::evaluation::holds_at;
use ila_model::Instruction;
use term_evaluation::Point;
use wb_terms::{NoMemory, Terms};

/// The instructions that decode, as far as a step asks, by their places in the machine's order.
#[derive(Clone, Copy)]
pub(crate) enum Decoded {
    /// None decodes.
    Nothing,
    /// This one does, and no other.
    One(usize),
    /// These are the first two that do.
    Several(usize, usize),
}

/// Looks for the first two instructions whose decode conditions hold.
pub(crate) fn find_decoded(
    terms: &Terms,
    point: &mut Point,
    instructions: &[Instruction],
) -> Result<Decoded, NoMemory>
    requires conditions { are_conditions terms.now instructions.now ≡ true }
    requires point { IsPointOf terms.now point.old }
    requires fits { AreOfSorts terms.now.names point.old.values }
    ensures decoded { IfOk result (AreDecoded (decodes terms.now (valuation_at terms.now point.old.values) instructions.now) (length instructions.now)) }
    ensures values { point.new.values ≡ point.old.values }
    ensures aside { point.new.aside ≡ point.old.aside }
    ensures point { IsPointOf terms.now point.new }
{
    let mut found = None;
    for (place, instruction) in instructions.iter().enumerate() {
        if holds_at(terms, point, instruction.decode)? {
            match found {
                Some(first) => return Ok(Decoded::Several(first, place)),
                None => found = Some(place),
            }
        }
    }
    match found {
        Some(place) => Ok(Decoded::One(place)),
        None => Ok(Decoded::Nothing),
    }
}
