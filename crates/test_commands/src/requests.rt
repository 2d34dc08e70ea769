//! What the words of command lines ask for, as the Rust crate `clap` reads them.

use crate::sheet::Sheet;
use std::alloc::Global;
use wb_words::{Emit, Replay, Request, SimulateBoth, SimulateRtl, WordsStop, request};

/// The words of a line. One for which no memory is left is wanting.
fn words_of(alloc: Global, line: &str) -> Vec<String> {
    let mut words = Vec::new(alloc);
    if line.is_empty() {
        return words;
    }
    for word in line.split(' ') {
        if let Ok(word) = String::from_str(alloc, word) {
            let _kept = words.push(word).is_ok();
        }
    }
    words
}

/// Adds a request as a line.
fn add_request(request: &Request<'_>, alloc: Global, out: &mut Sheet) {
    match request {
        Request::Check(check) => {
            out.add("check ");
            out.add(check.model);
            out.add(" ");
            out.add(check.map);
            out.add_number(alloc, " ", u128::from(check.budget));
            for design in check.designs.iter() {
                out.add(" ");
                out.add(design);
            }
        }
        Request::Simulate(files) => {
            out.add("simulate ");
            out.add(files.model);
            out.add(" ");
            out.add(files.script);
        }
        Request::SimulateRtl(design) => add_design(design, out),
        Request::Replay(replay) => add_replay(replay, out),
        Request::SimulateBoth(both) => add_both(both, out),
        Request::Emit(emit) => add_emission(emit, out),
    }
}

/// Adds an emission as a line.
fn add_emission(emit: &Emit<'_>, out: &mut Sheet) {
    out.add("emit ");
    out.add(emit.model);
    if emit.map_only {
        out.add(" map-only");
    }
}

/// Adds a replay of a trace as a line.
fn add_replay(replay: &Replay<'_>, out: &mut Sheet) {
    out.add("replay ");
    out.add(replay.model);
    out.add(" ");
    out.add(replay.map);
    out.add(" ");
    out.add(replay.trace);
    for file in replay.designs.iter() {
        out.add(" ");
        out.add(file);
    }
}

/// Adds a simulation of a model and a design side by side as a line.
fn add_both(both: &SimulateBoth<'_>, out: &mut Sheet) {
    out.add("simulate-both ");
    out.add(both.model);
    out.add(" ");
    out.add(both.map);
    out.add(" ");
    out.add(both.script);
    for file in both.designs.iter() {
        out.add(" ");
        out.add(file);
    }
}

/// Adds a simulation of a design as a line.
fn add_design(design: &SimulateRtl<'_>, out: &mut Sheet) {
    out.add("simulate-rtl ");
    out.add(design.top);
    out.add(" ");
    out.add(design.clock);
    out.add(" ");
    out.add(design.script);
    for file in design.designs.iter() {
        out.add(" ");
        out.add(file);
    }
}

/// Adds what the words of a line are answered with, as a line. An empty line has none.
pub fn add_answer(alloc: Global, line: &str, out: &mut Sheet) {
    match request(alloc, &words_of(alloc, line)) {
        Ok(request) => add_request(&request, alloc, out),
        Err(WordsStop::Usage) => out.add("Usage"),
        Err(WordsStop::NoMemory) => out.add("NoMemory"),
    }
}
