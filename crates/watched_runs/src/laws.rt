//! The laws on disagreements and answers, the contracts of functions without code.
ghost use Rattle.watched_runs.specs.Laws.{RefiningRunsDoNotDisagree, RunsHaveOneAnswer};

/// A run that refines the model disagrees with it nowhere.
pub fn refining_runs_do_not_disagree()
    ensures { RefiningRunsDoNotDisagree }
{}

/// A run has at most one answer.
pub fn runs_have_one_answer()
    ensures { RunsHaveOneAnswer }
{}
