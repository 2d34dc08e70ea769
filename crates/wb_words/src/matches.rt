//! Requests from what `clap` found.

ghost use Rattle.std.specs.Prelude.{◌≡◌, ◌≤◌, IfOk, IfSome, codes, length, map, option_and_then};
ghost use Rattle.clap.specs.Words.{all_of, first_of, found_of, one_of, rows_of, subcommand_rows_of};
ghost use Rattle.wb_words.specs.Requests.{budget_in, check_of, designs_in, emit_of, is_set, replay_of, request_in, simulate_both_of, simulate_of, simulate_rtl_of};
ghost use Rattle.wb_words.specs.View.{IsAnswer, request_view};

use crate::requests::{Check, Emit, Replay, Request, Simulate, SimulateBoth, SimulateRtl};
use crate::stop::WordsStop;
use clap::ArgMatches;
use std::alloc::Global;

/// What the subcommand asks for that was found.
pub(crate) fn entered<'a>(alloc: Global, matches: &ArgMatches<'a>) -> Result<Request<'a>, WordsStop>
    ensures { IsAnswer request_view result (option_and_then (λ p. request_in p.0 p.1) (subcommand_rows_of matches.now)) }
{
    match matches.subcommand() {
        Some((name, found)) => named(alloc, name, found),
        None => Err(WordsStop::Usage),
    }
}

fn named<'a>(alloc: Global, name: &str, matches: &ArgMatches<'a>) -> Result<Request<'a>, WordsStop>
    ensures { IsAnswer request_view result (request_in name.now (rows_of (found_of matches.now))) }
{
    if name == "check" {
        return check(alloc, matches);
    }
    if name == "simulate" {
        return simulate(matches);
    }
    if name == "simulate-rtl" {
        return simulate_rtl(alloc, matches);
    }
    if name == "replay" {
        return replay(alloc, matches);
    }
    if name == "simulate-both" {
        return simulate_both(alloc, matches);
    }
    if name == "emit" {
        return emit(matches);
    }
    Err(WordsStop::Usage)
}

/// A check of the files that were named.
fn check<'a>(alloc: Global, matches: &ArgMatches<'a>) -> Result<Request<'a>, WordsStop>
    ensures { IsAnswer request_view result (check_of
        (first_of (codes "model") (rows_of (found_of matches.now)))
        (first_of (codes "map") (rows_of (found_of matches.now)))
        (option_and_then budget_in (one_of (codes "budget") (rows_of (found_of matches.now))))
        (option_and_then designs_in (all_of (codes "designs") (rows_of (found_of matches.now))))) }
{
    let model = value(matches, "model")?;
    let map = value(matches, "map")?;
    let budget = budget(matches).ok_or(WordsStop::Usage)?;
    let designs = designs(alloc, matches)?;
    Ok(Request::Check(Check {
        model,
        map,
        budget,
        designs,
    }))
}

/// A simulation of the files that were named.
fn simulate<'a>(matches: &ArgMatches<'a>) -> Result<Request<'a>, WordsStop>
    ensures { IsAnswer request_view result (simulate_of
        (first_of (codes "model") (rows_of (found_of matches.now)))
        (first_of (codes "script") (rows_of (found_of matches.now)))) }
{
    let model = value(matches, "model")?;
    let script = value(matches, "script")?;
    Ok(Request::Simulate(Simulate { model, script }))
}

/// A simulation of the design that was named.
fn simulate_rtl<'a>(alloc: Global, matches: &ArgMatches<'a>) -> Result<Request<'a>, WordsStop>
    ensures { IsAnswer request_view result (simulate_rtl_of
        (first_of (codes "top") (rows_of (found_of matches.now)))
        (first_of (codes "clock") (rows_of (found_of matches.now)))
        (first_of (codes "script") (rows_of (found_of matches.now)))
        (option_and_then designs_in (all_of (codes "designs") (rows_of (found_of matches.now))))) }
{
    let top = value(matches, "top")?;
    let clock = value(matches, "clock")?;
    let script = value(matches, "script")?;
    let designs = designs(alloc, matches)?;
    Ok(Request::SimulateRtl(SimulateRtl {
        top,
        clock,
        script,
        designs,
    }))
}

/// A replay of the trace that was named.
fn replay<'a>(alloc: Global, matches: &ArgMatches<'a>) -> Result<Request<'a>, WordsStop>
    ensures { IsAnswer request_view result (replay_of
        (first_of (codes "model") (rows_of (found_of matches.now)))
        (first_of (codes "map") (rows_of (found_of matches.now)))
        (first_of (codes "trace") (rows_of (found_of matches.now)))
        (option_and_then designs_in (all_of (codes "designs") (rows_of (found_of matches.now))))) }
{
    let model = value(matches, "model")?;
    let map = value(matches, "map")?;
    let trace = value(matches, "trace")?;
    let designs = designs(alloc, matches)?;
    Ok(Request::Replay(Replay {
        model,
        map,
        trace,
        designs,
    }))
}

/// A simulation of the model and the design side by side, of the files that were named.
fn simulate_both<'a>(alloc: Global, matches: &ArgMatches<'a>) -> Result<Request<'a>, WordsStop>
    ensures { IsAnswer request_view result (simulate_both_of
        (first_of (codes "model") (rows_of (found_of matches.now)))
        (first_of (codes "map") (rows_of (found_of matches.now)))
        (first_of (codes "script") (rows_of (found_of matches.now)))
        (option_and_then designs_in (all_of (codes "designs") (rows_of (found_of matches.now))))) }
{
    let model = value(matches, "model")?;
    let map = value(matches, "map")?;
    let script = value(matches, "script")?;
    let designs = designs(alloc, matches)?;
    Ok(Request::SimulateBoth(SimulateBoth {
        model,
        map,
        script,
        designs,
    }))
}

/// What is to be emitted of the model file that was named.
fn emit<'a>(matches: &ArgMatches<'a>) -> Result<Request<'a>, WordsStop>
    ensures { IsAnswer request_view result (emit_of
        (first_of (codes "model") (rows_of (found_of matches.now)))
        (is_set (first_of (codes "map-only") (rows_of (found_of matches.now))))) }
{
    let model = value(matches, "model")?;
    let map_only = is_set(matches, "map-only");
    Ok(Request::Emit(Emit { model, map_only }))
}

/// The value of an option.
fn value<'a>(matches: &ArgMatches<'a>, option: &str) -> Result<&'a str, WordsStop>
    ensures { IsAnswer (λ v. v.now) result (first_of option.now (rows_of (found_of matches.now))) }
{
    match matches.get_str(option) {
        Some(value) => Ok(value),
        None => Err(WordsStop::Usage),
    }
}

/// Whether a flag is set.
fn is_set(matches: &ArgMatches<'_>, flag: &str) -> bool
    ensures { result ≡ is_set (first_of flag.now (rows_of (found_of matches.now))) }
{
    match matches.get_str(flag) {
        Some(value) => value == "true",
        None => false,
    }
}

/// The number of steps that `--budget` allows.
fn budget(matches: &ArgMatches<'_>) -> Option<u64>
    ensures value { result ≡ option_and_then budget_in (one_of (codes "budget") (rows_of (found_of matches.now))) }
    ensures range { IfSome result (λ n. (1 ≤ n) × (n ≤ 1000000000)) }
{
    let budget = matches.get_one::<u64>("budget")?;
    if 1 <= budget && budget <= 1_000_000_000 {
        Some(budget)
    } else {
        None
    }
}

/// The names of the designs.
fn designs<'a>(alloc: Global, matches: &ArgMatches<'a>) -> Result<Vec<&'a str>, WordsStop>
    ensures some { IfOk result (λ ds. 1 ≤ length ds.items) }
    ensures names { IsAnswer (λ ds. map (λ s. s.now) ds.items) result (option_and_then designs_in (all_of (codes "designs") (rows_of (found_of matches.now)))) }
{
    match matches.get_strs("designs") {
        Some(names) => some_names(alloc, names),
        None => Err(WordsStop::Usage),
    }
}

/// The names, of which there is one or more.
fn some_names<'a>(alloc: Global, names: &[&'a str]) -> Result<Vec<&'a str>, WordsStop>
    ensures some { IfOk result (λ ds. 1 ≤ length ds.items) }
    ensures names { IsAnswer (λ ds. map (λ s. s.now) ds.items) result (designs_in (map (λ s. s.now) names.now)) }
{
    if names.is_empty() {
        return Err(WordsStop::Usage);
    }
    Ok(names.to_vec(alloc)?)
}
