//! What the words of a command ask for.

ghost use Rattle.std.specs.Prelude.{◌≡◌, ◌∷◌, [], None, false, IfOk, map, option_map, string_bytes};
ghost use Rattle.clap.specs.Words.{takes};
ghost use Rattle.wb_words.specs.Application.{workbench_app};
ghost use Rattle.wb_words.specs.View.{request_view};
ghost use Rattle.wb_top.specs.Words.{command_for, command_of};
ghost use Rattle.wb_top.specs.Wanted.{command_view};

use crate::stop::NoMemory;
use crate::verb::{Top, Verb};
use crate::wanted::Wanted;
use std::alloc::{AllocError, Global};
use wb_words::{
    Check, Emit, Replay, Request, Simulate, SimulateBoth, SimulateRtl, WordsStop, request,
};

/// What the words ask for, if it is a command.
pub(crate) fn wanted(alloc: Global, words: &[String]) -> Result<Option<Wanted>, NoMemory>
    ensures wanted { IfOk result (λ o. option_map command_view o ≡ command_of (map string_bytes words.now)) }
    ensures refused { IfOk result (λ o. o ≡ None → takes workbench_app (map string_bytes words.now) ≡ false) }
{
    match request(alloc, words) {
        Ok(request) => {
            let wanted = wanted_by(alloc, &request)?;
            Ok(Some(wanted))
        }
        Err(WordsStop::Usage) => Ok(None),
        Err(WordsStop::NoMemory) => Err(AllocError),
    }
}

fn wanted_by(alloc: Global, request: &Request<'_>) -> Result<Wanted, NoMemory>
    ensures { IfOk result (λ w. command_view w ≡ command_for (request_view request.now)) }
{
    match request {
        Request::Check(check) => {
            let files = files_of_check(alloc, check)?;
            Ok(Wanted {
                verb: Verb::Check(check.budget),
                files,
            })
        }
        Request::Simulate(simulate) => {
            let files = files_of_simulation(alloc, simulate)?;
            Ok(Wanted {
                verb: Verb::Simulate,
                files,
            })
        }
        Request::SimulateRtl(simulate) => {
            let files = files_of_rtl(alloc, simulate)?;
            let design = top_of(alloc, simulate)?;
            Ok(Wanted {
                verb: Verb::SimulateRtl(design),
                files,
            })
        }
        Request::Replay(replay) => {
            let files = files_of_replay(alloc, replay)?;
            Ok(Wanted {
                verb: Verb::Replay,
                files,
            })
        }
        Request::SimulateBoth(simulate) => {
            let files = files_of_both(alloc, simulate)?;
            Ok(Wanted {
                verb: Verb::SimulateBoth,
                files,
            })
        }
        Request::Emit(emit) => {
            let files = files_of_emission(alloc, emit)?;
            Ok(Wanted {
                verb: Verb::Emit(emit.map_only),
                files,
            })
        }
    }
}

/// The names of the files that a check reads: of the model, of the map, of each design.
fn files_of_check(alloc: Global, check: &Check<'_>) -> Result<Vec<String>, NoMemory>
    ensures { IfOk result (λ names. map string_bytes names.items ≡ check.now.model.now ∷ check.now.map.now ∷ map (λ s. s.now) check.now.designs.items) }
{
    let mut names = Vec::new(alloc);
    names.push(String::from_str(alloc, check.model)?)?;
    names.push(String::from_str(alloc, check.map)?)?;
    for design in &check.designs {
        names.push(String::from_str(alloc, design)?)?;
    }
    Ok(names)
}

/// The names of the files that a simulation reads: of the model, of the script.
fn files_of_simulation(alloc: Global, simulate: &Simulate<'_>) -> Result<Vec<String>, NoMemory>
    ensures { IfOk result (λ names. map string_bytes names.items ≡ simulate.now.model.now ∷ simulate.now.script.now ∷ []) }
{
    let mut names = Vec::with_capacity(alloc, 2)?;
    names.push(String::from_str(alloc, simulate.model)?)?;
    names.push(String::from_str(alloc, simulate.script)?)?;
    Ok(names)
}

/// The names of the files that a simulation of a design reads: of the script, of each Verilog file.
fn files_of_rtl(alloc: Global, simulate: &SimulateRtl<'_>) -> Result<Vec<String>, NoMemory>
    ensures { IfOk result (λ names. map string_bytes names.items ≡ simulate.now.script.now ∷ map (λ s. s.now) simulate.now.designs.items) }
{
    let mut names = Vec::new(alloc);
    names.push(String::from_str(alloc, simulate.script)?)?;
    for design in &simulate.designs {
        names.push(String::from_str(alloc, design)?)?;
    }
    Ok(names)
}

/// The names of the files that a replay reads: of the model, of the map, of the trace, of each Verilog file.
fn files_of_replay(alloc: Global, replay: &Replay<'_>) -> Result<Vec<String>, NoMemory>
    ensures { IfOk result (λ names. map string_bytes names.items ≡ replay.now.model.now ∷ replay.now.map.now ∷ replay.now.trace.now ∷ map (λ s. s.now) replay.now.designs.items) }
{
    let mut names = Vec::new(alloc);
    names.push(String::from_str(alloc, replay.model)?)?;
    names.push(String::from_str(alloc, replay.map)?)?;
    names.push(String::from_str(alloc, replay.trace)?)?;
    for design in &replay.designs {
        names.push(String::from_str(alloc, design)?)?;
    }
    Ok(names)
}

/// The names of the files that a simulation side by side reads: of the model, of the map, of the script, of each Verilog file.
fn files_of_both(alloc: Global, simulate: &SimulateBoth<'_>) -> Result<Vec<String>, NoMemory>
    ensures { IfOk result (λ names. map string_bytes names.items ≡ simulate.now.model.now ∷ simulate.now.map.now ∷ simulate.now.script.now ∷ map (λ s. s.now) simulate.now.designs.items) }
{
    let mut names = Vec::new(alloc);
    names.push(String::from_str(alloc, simulate.model)?)?;
    names.push(String::from_str(alloc, simulate.map)?)?;
    names.push(String::from_str(alloc, simulate.script)?)?;
    for design in &simulate.designs {
        names.push(String::from_str(alloc, design)?)?;
    }
    Ok(names)
}

/// The names of the files that an emission reads: of the model alone.
fn files_of_emission(alloc: Global, emit: &Emit<'_>) -> Result<Vec<String>, NoMemory>
    ensures { IfOk result (λ names. map string_bytes names.items ≡ emit.now.model.now ∷ []) }
{
    let mut names = Vec::with_capacity(alloc, 1)?;
    names.push(String::from_str(alloc, emit.model)?)?;
    Ok(names)
}

/// The design that is simulated.
fn top_of(alloc: Global, simulate: &SimulateRtl<'_>) -> Result<Top, NoMemory>
    ensures top { IfOk result (λ d. string_bytes d.top ≡ simulate.now.top.now) }
    ensures clock { IfOk result (λ d. string_bytes d.clock ≡ simulate.now.clock.now) }
{
    let top = String::from_str(alloc, simulate.top)?;
    let clock = String::from_str(alloc, simulate.clock)?;
    Ok(Top { top, clock })
}
