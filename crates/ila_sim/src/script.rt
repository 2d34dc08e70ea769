//! Scripts, read line by line.

ghost use Rattle.std.specs.Prelude.{◌≡◌, map, length, IsTrue, IfOk};
ghost use Rattle.std.specs.List.{list_all};
ghost use Rattle.scripts.specs.Script.{line_in, inputs_in, script_in, without_skipped, lines_of};
ghost use Rattle.ila_sim.specs.Cuts.{lines_left};
ghost use Rattle.ila_sim.specs.Reading.{IsReading};
ghost use Rattle.ila_sim.specs.Lines.{found_view, line_view, sets_view, input_of, is_line_within};
ghost use Rattle.ila_sim.specs.Sets.{are_right};
ghost use Rattle.ila_sim.specs.Scripts.{script_view, IsScriptWithin};

use crate::cuts::{has_return, next_kept, next_word};
use crate::line::{Found, Line};
use crate::set::Set;
use crate::sets::sets_in;
use crate::stop::Stop;
use std::alloc::Global;

/// What is set at the beginning, and the inputs of each step.
#[derive(Drop)]
pub struct Script {
    pub state: Vec<Set>,
    pub inputs: Vec<Vec<Set>>,
}

/// A line that is not skipped.
pub(crate) fn line_in<'a>(alloc: Global, names: &Found<'a>, line: &'a [u8]) -> Result<Line, Stop>
    ensures line { IsReading (line_view (found_view names.now)) result (line_in (found_view names.now) line.now) }
    ensures places { IfOk result (λ l. IsTrue (is_line_within (found_view names.now) l)) }
{
    if has_return(line) {
        return Err(Stop::Refused);
    }
    match next_word(line) {
        None => Err(Stop::Refused),
        Some((word, rest)) => {
            if word == b"state".as_slice() {
                let sets = sets_in(alloc, &names.states, rest)?;
                return Ok(Line::State(sets));
            }
            if word == b"in".as_slice() {
                let sets = sets_in(alloc, &names.inputs, rest)?;
                return Ok(Line::Input(sets));
            }
            Err(Stop::Refused)
        }
    }
}

/// A line that sets inputs.
fn input_in<'a>(alloc: Global, names: &Found<'a>, line: &'a [u8]) -> Result<Vec<Set>, Stop>
    ensures sets { IsReading (λ s. sets_view (found_view names.now).inputs s.items) result (input_of (line_in (found_view names.now) line.now)) }
    ensures places { IfOk result (λ s. IsTrue (are_right (found_view names.now).inputs s.items)) }
{
    match line_in(alloc, names, line)? {
        Line::Input(sets) => Ok(sets),
        Line::State(_) => Err(Stop::Refused),
    }
}

/// The lines that are left, each of which must set inputs.
fn inputs_in<'a>(
    alloc: Global,
    names: &Found<'a>,
    left: Option<&'a [u8]>,
) -> Result<Vec<Vec<Set>>, Stop>
    ensures inputs { IsReading (λ v. map (λ s. sets_view (found_view names.now).inputs s.items) v.items) result (inputs_in (found_view names.now) (without_skipped (lines_left left.entry))) }
    ensures places { IfOk result (λ v. IsTrue (list_all (λ s. are_right (found_view names.now).inputs s.items) v.items)) }
{
    let mut inputs = Vec::new(alloc);
    let mut rest = left;
    while let Some((line, next)) = next_kept(rest) {
        let sets = input_in(alloc, names, line)?;
        inputs.push(sets)?;
        rest = next;
    }
    Ok(inputs)
}

/// The script of a text: a state line may stand first.
pub(crate) fn script_in<'a>(
    alloc: Global,
    names: &Found<'a>,
    text: &'a [u8],
) -> Result<Script, Stop>
    ensures script { IsReading (script_view (found_view names.now)) result (script_in (found_view names.now) (without_skipped (lines_of text.now))) }
    ensures places { IfOk result (λ s. IsScriptWithin (found_view names.now) s) }
{
    match next_kept(Some(text)) {
        None => Ok(Script {
            state: Vec::new(alloc),
            inputs: Vec::new(alloc),
        }),
        Some((line, rest)) => match line_in(alloc, names, line)? {
            Line::State(state) => {
                let inputs = inputs_in(alloc, names, rest)?;
                Ok(Script { state, inputs })
            }
            Line::Input(_) => {
                let inputs = inputs_in(alloc, names, Some(text))?;
                Ok(Script {
                    state: Vec::new(alloc),
                    inputs,
                })
            }
        },
    }
}
