//! The laws, each the contract of a function without code.
ghost use Rattle.mapped_runs.specs.Breaking.{ObligationsAreWithin, BreakingRestsOnItsCycles, FalsifyingRunsBreak};
ghost use Rattle.mapped_runs.specs.Commands.{CommandRestsOnItsBound, WholeCommandsAreShown};
ghost use Rattle.mapped_runs.specs.Decided.{BreakingValuesFalsify, ValuesDecide, CommandsAreWhole};
ghost use Rattle.mapped_runs.specs.Existing.{ValuesHaveRuns};
ghost use Rattle.mapped_runs.specs.Sound.{SortedTermsKeepSorts};
ghost use Rattle.mapped_runs.specs.Valued.{RunsShow, LaterInputsDoNotMatter, RunsHaveValues};

/// Where the registers' terms are of their sorts, the clock's edge keeps sorts.
pub fn sorted_terms_keep_sorts()
    ensures { SortedTermsKeepSorts }
{}

/// A fact within the cycles of a run holds of it exactly where its values show it.
pub fn runs_show()
    ensures { RunsShow }
{}

/// Values that agree on the first registers and on the inputs of so many cycles show the same facts within these.
pub fn later_inputs_do_not_matter()
    ensures { LaterInputsDoNotMatter }
{}

/// Every run has values, of the design's sorts, and 0 in what does not count.
pub fn runs_have_values()
    ensures { RunsHaveValues }
{}

/// Values of the design's sorts, 0 in what does not count, are those of a run of every length.
pub fn values_have_runs()
    ensures { ValuesHaveRuns }
{}

/// Each obligation of a map speaks of its own cycles alone.
pub fn obligations_are_within()
    ensures { ObligationsAreWithin }
{}

/// Whether values break an obligation does not rest on inputs of later cycles.
pub fn breaking_rests_on_its_cycles()
    ensures { BreakingRestsOnItsCycles }
{}

/// The values of a run that falsifies an obligation break it.
pub fn falsifying_runs_break()
    ensures { FalsifyingRunsBreak }
{}

/// Values that break an obligation are those of a run that falsifies it.
pub fn breaking_values_falsify()
    ensures { BreakingValuesFalsify }
{}

/// An obligation holds exactly where no values of the design break it.
pub fn values_decide()
    ensures { ValuesDecide }
{}

/// Whether values are a whole command of an instruction does not rest on inputs past its bound.
pub fn command_rests_on_its_bound()
    ensures { CommandRestsOnItsBound }
{}

/// A run that is a whole command of an instruction has values that are one.
pub fn whole_commands_are_shown()
    ensures { WholeCommandsAreShown }
{}

/// Values that are a whole command of an instruction are those of a run that is one.
pub fn commands_are_whole()
    ensures { CommandsAreWhole }
{}
