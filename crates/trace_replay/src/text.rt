//! The line that tells what a replay found.

ghost use Rattle.std.specs.Prelude.{◌≡◌, ◌++◌, [], ◌∷◌, IfOk, codes, decimal, string_bytes};
ghost use Rattle.trace_files.specs.Replay.{replay_line};
ghost use Rattle.trace_replay.specs.Replayed.{replayed_view};

use crate::replaying::Replayed;
use itoa::Buffer;
use std::alloc::Global;
use wb_terms::NoMemory;

/// A name and what comes after it.
fn line(alloc: Global, name: &str, rest: &str) -> Result<String, NoMemory>
    ensures { IfOk result (λ t. string_bytes t ≡ name.now ++ rest.now) }
{
    let mut text = String::from_str(alloc, name)?;
    text.push_str(rest)?;
    Ok(text)
}

/// The line of a hypothesis that fails.
fn hypothesis_line(alloc: Global, name: &str, number: u64) -> Result<String, NoMemory>
    ensures { IfOk result (λ t. string_bytes t ≡ name.now ++ codes " hypothesis " ++ decimal number ++ 10 ∷ []) }
{
    let mut text = line(alloc, name, " hypothesis ")?;
    let mut buffer = Buffer::new();
    text.push_str(buffer.format(number))?;
    text.push_str("\n")?;
    Ok(text)
}

/// The line: the obligation's name, and what its replay tells.
pub fn replay_text(alloc: Global, name: &str, replayed: &Replayed) -> Result<String, NoMemory>
    ensures { IfOk result (λ t. string_bytes t ≡ replay_line name.now (replayed_view replayed.now)) }
{
    match replayed {
        Replayed::Falsifies => line(alloc, name, " falsifies\n"),
        Replayed::HypothesisFails(place) => hypothesis_line(alloc, name, *place as u64),
        Replayed::Holds => line(alloc, name, " holds\n"),
    }
}
