//! The laws, each the contract of a function without code.
ghost use Rattle.watch_laws.specs.Laws.{AgreeingRunsRefine, PremisesEnd, WatchesEnd};

/// A run that disagrees with the model nowhere refines it.
pub fn agreeing_runs_refine()
    ensures { AgreeingRunsRefine }
{}

/// A run has a first cycle at which a premise fails, or none fails.
pub fn premises_end()
    ensures { PremisesEnd }
{}

/// A watch that comes to the end of a run inside a command answers how many have ended.
pub fn watches_end()
    ensures { WatchesEnd }
{}
