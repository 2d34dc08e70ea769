//! The line that tells what is said of a watched run.

ghost use Rattle.std.specs.Prelude.{◌≡◌, ◌++◌, ◌∷◌, [], ℕ, IfOk, OnOk, codes, decimal, string_bytes};
ghost use Rattle.refinement.specs.Map.{Setting};
ghost use Rattle.refinement.specs.Run.{Run};
ghost use Rattle.watched_runs.specs.Watched.{IsWatched, IsWatchedLine, premise_text};
ghost use Rattle.ila_model.specs.Model.{model_of};
ghost use Rattle.run_watch.specs.View.{premise_of, disagreement_of, watched_of};
ghost use Rattle.run_watch.specs.Texts.{name_of_state, name_of_instruction, disagreement_text, line_of_cycle, line_of};

use crate::answers::{Disagreement, Premise, Watched};
use ila_model::IlaModel;
use itoa::Buffer;
use std::alloc::Global;
use wb_terms::NoMemory;

/// Appends a number in decimal.
fn append_number(text: &mut String, number: u64) -> Result<(), NoMemory>
    ensures { OnOk result (string_bytes text.new ≡ string_bytes text.old ++ decimal number) }
{
    let mut buffer = Buffer::new();
    text.push_str(buffer.format(number))?;
    Ok(())
}

/// Appends the name of a state, if there is one of this number.
fn append_state(text: &mut String, model: &IlaModel, place: usize) -> Result<(), NoMemory>
    ensures { OnOk result (string_bytes text.new ≡ string_bytes text.old ++ name_of_state (model_of model.now) place) }
{
    if place < model.state_count() {
        text.push_str(model.state_name(place))?;
    }
    Ok(())
}

/// Appends the name of an instruction, if there is one of this number.
fn append_instruction(text: &mut String, model: &IlaModel, place: usize) -> Result<(), NoMemory>
    ensures { OnOk result (string_bytes text.new ≡ string_bytes text.old ++ name_of_instruction (model_of model.now) place) }
{
    if place < model.parts.instructions.len() {
        text.push_str(model.parts.instructions[place].name.as_str())?;
    }
    Ok(())
}

/// Appends the words of a premise.
fn append_premise(text: &mut String, premise: Premise) -> Result<(), NoMemory>
    ensures { OnOk result (string_bytes text.new ≡ string_bytes text.old ++ premise_text (premise_of premise)) }
{
    match premise {
        Premise::Reset => text.push_str("reset")?,
        Premise::Assume(k) => {
            text.push_str("assume ")?;
            append_number(text, k as u64)?;
        }
        Premise::Flight => text.push_str("flight")?,
    }
    Ok(())
}

/// Appends the words of a disagreement.
fn append_disagreement(
    text: &mut String,
    model: &IlaModel,
    which: Disagreement,
) -> Result<(), NoMemory>
    ensures { OnOk result (string_bytes text.new ≡ string_bytes text.old ++ disagreement_text (model_of model.now) (disagreement_of which)) }
{
    match which {
        Disagreement::InitialValue(k) => {
            text.push_str("init ")?;
            append_state(text, model, k)?;
        }
        Disagreement::NoStep => text.push_str("step")?,
        Disagreement::PastBound(j) => {
            text.push_str("bound ")?;
            append_instruction(text, model, j)?;
        }
        Disagreement::OtherState(k) => {
            text.push_str("state ")?;
            append_state(text, model, k)?;
        }
    }
    Ok(())
}

/// The line of a run that agrees.
fn agreeing_line(alloc: Global, count: u64) -> Result<String, NoMemory>
    ensures { IfOk result (λ t. string_bytes t ≡ codes "agrees " ++ decimal count ++ 10 ∷ []) }
{
    let mut text = String::from_str(alloc, "agrees ")?;
    append_number(&mut text, count)?;
    text.push_str("\n")?;
    Ok(text)
}

/// The line of a run that leaves the premises.
fn leaving_line(alloc: Global, t: u64, premise: Premise) -> Result<String, NoMemory>
    ensures { IfOk result (λ l. string_bytes l ≡ line_of_cycle (codes "outside ") t (premise_text (premise_of premise))) }
{
    let mut text = String::from_str(alloc, "outside ")?;
    append_number(&mut text, t)?;
    text.push_str(" ")?;
    append_premise(&mut text, premise)?;
    text.push_str("\n")?;
    Ok(text)
}

/// The line of a run that disagrees.
fn disagreeing_line(
    alloc: Global,
    model: &IlaModel,
    t: u64,
    which: Disagreement,
) -> Result<String, NoMemory>
    ensures { IfOk result (λ l. string_bytes l ≡ line_of_cycle (codes "disagrees ") t (disagreement_text (model_of model.now) (disagreement_of which))) }
{
    let mut text = String::from_str(alloc, "disagrees ")?;
    append_number(&mut text, t)?;
    text.push_str(" ")?;
    append_disagreement(&mut text, model, which)?;
    text.push_str("\n")?;
    Ok(text)
}

/// The line that tells an answer.
pub fn watched_text(alloc: Global, model: &IlaModel, watched: &Watched) -> Result<String, NoMemory>
    ensures text { IfOk result (λ t. string_bytes t ≡ line_of (model_of model.now) (watched_of watched.now)) }
    ensures line { IfOk result (λ t. (s : Setting) (run : Run) (cycles : ℕ) → s.model ≡ model_of model.now → IsWatched s run cycles (watched_of watched.now)
        → IsWatchedLine s (watched_of watched.now) (string_bytes t)) }
{
    match *watched {
        Watched::Agrees(count) => {
            let line = agreeing_line(alloc, count)?;
            Ok(line)
        }
        Watched::Outside(t, premise) => {
            let line = leaving_line(alloc, t, premise)?;
            Ok(line)
        }
        Watched::Disagrees(t, which) => {
            let line = disagreeing_line(alloc, model, t, which)?;
            Ok(line)
        }
    }
}
