//! The commands that there are, as `clap` takes them.

ghost use Rattle.std.specs.Prelude.{◌≡◌, false, IfOk};
ghost use Rattle.clap.specs.Words.{app_of, rule_of};
ghost use Rattle.clap.specs.declared.builder.command.Command.TheViews.{out-Command};
ghost use Rattle.wb_words.specs.Application.{budget_option, check_command, designs_argument, emit_command, flag, replay_command, simulate_both_command, simulate_command, simulate_rtl_command, required_option, workbench_app};

use clap::{Arg, ArgAction, Command, value_parser};
use std::alloc::{AllocError, Global};

/// The program, with its commands.
pub(crate) fn workbench<'a>(alloc: Global) -> Result<Command<'a>, AllocError>
    ensures { IfOk result (λ c. app_of c ≡ workbench_app) }
{
    let check = check_command(alloc)?;
    let simulate = simulate_command(alloc)?;
    let simulate_rtl = simulate_rtl_command(alloc)?;
    let replay = replay_command(alloc)?;
    let simulate_both = simulate_both_command(alloc)?;
    let emit = emit_command(alloc)?;
    Command::new(alloc, "wb")
        .subcommand_required(true)
        .disable_help_subcommand(true)
        .subcommand(check)?
        .subcommand(simulate)?
        .subcommand(simulate_rtl)?
        .subcommand(replay)?
        .subcommand(simulate_both)?
        .subcommand(emit)
}

fn check_command<'a>(alloc: Global) -> Result<Command<'a>, AllocError>
    ensures app { IfOk result (λ c. (app_of c).top ≡ check_command) }
    ensures local { IfOk result (λ c. (out-Command c).has_globals ≡ false) }
{
    Command::new(alloc, "check")
        .arg(required_option(alloc, "model"))?
        .arg(required_option(alloc, "map"))?
        .arg(budget_option(alloc))?
        .arg(designs_argument(alloc))
}

fn simulate_command<'a>(alloc: Global) -> Result<Command<'a>, AllocError>
    ensures app { IfOk result (λ c. (app_of c).top ≡ simulate_command) }
    ensures local { IfOk result (λ c. (out-Command c).has_globals ≡ false) }
{
    Command::new(alloc, "simulate")
        .arg(required_option(alloc, "model"))?
        .arg(required_option(alloc, "script"))
}

fn simulate_rtl_command<'a>(alloc: Global) -> Result<Command<'a>, AllocError>
    ensures app { IfOk result (λ c. (app_of c).top ≡ simulate_rtl_command) }
    ensures local { IfOk result (λ c. (out-Command c).has_globals ≡ false) }
{
    Command::new(alloc, "simulate-rtl")
        .arg(required_option(alloc, "top"))?
        .arg(required_option(alloc, "clock"))?
        .arg(required_option(alloc, "script"))?
        .arg(designs_argument(alloc))
}

fn replay_command<'a>(alloc: Global) -> Result<Command<'a>, AllocError>
    ensures app { IfOk result (λ c. (app_of c).top ≡ replay_command) }
    ensures local { IfOk result (λ c. (out-Command c).has_globals ≡ false) }
{
    Command::new(alloc, "replay")
        .arg(required_option(alloc, "model"))?
        .arg(required_option(alloc, "map"))?
        .arg(required_option(alloc, "trace"))?
        .arg(designs_argument(alloc))
}

fn simulate_both_command<'a>(alloc: Global) -> Result<Command<'a>, AllocError>
    ensures app { IfOk result (λ c. (app_of c).top ≡ simulate_both_command) }
    ensures local { IfOk result (λ c. (out-Command c).has_globals ≡ false) }
{
    Command::new(alloc, "simulate-both")
        .arg(required_option(alloc, "model"))?
        .arg(required_option(alloc, "map"))?
        .arg(required_option(alloc, "script"))?
        .arg(designs_argument(alloc))
}

fn emit_command<'a>(alloc: Global) -> Result<Command<'a>, AllocError>
    ensures app { IfOk result (λ c. (app_of c).top ≡ emit_command) }
    ensures local { IfOk result (λ c. (out-Command c).has_globals ≡ false) }
{
    Command::new(alloc, "emit")
        .arg(required_option(alloc, "model"))?
        .arg(flag(alloc, "map-only"))
}

fn required_option<'a>(alloc: Global, name: &'a str) -> Arg<'a>
    ensures rule { rule_of result ≡ required_option name.entry.now }
    ensures local { result.global ≡ false }
{
    Arg::new(alloc, name).long(name).required(true)
}

fn flag<'a>(alloc: Global, name: &'a str) -> Arg<'a>
    ensures rule { rule_of result ≡ flag name.entry.now }
    ensures local { result.global ≡ false }
{
    Arg::new(alloc, name).long(name).action(ArgAction::SetTrue)
}

fn budget_option<'a>(alloc: Global) -> Arg<'a>
    ensures rule { rule_of result ≡ budget_option }
    ensures local { result.global ≡ false }
{
    Arg::new(alloc, "budget")
        .long("budget")
        .value_parser(value_parser!(u64).range(1..=1_000_000_000))
        .default_value("100000")
}

fn designs_argument<'a>(alloc: Global) -> Arg<'a>
    ensures rule { rule_of result ≡ designs_argument }
    ensures local { result.global ≡ false }
{
    Arg::new(alloc, "designs").required(true).num_args(1..)
}
