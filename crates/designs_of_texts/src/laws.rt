//! The laws, each the contract of a function without code.
ghost use Rattle.designs_of_texts.specs.Texts.{TextHasRuns, TextSettlesInOneWay, TreesAreOfTexts};

/// The tree of files is one of a text: numbers fit their widths, parts have bits, and names have no dots.
pub fn trees_are_of_texts()
    ensures { TreesAreOfTexts }
{}

/// An accepted design that is read from files has exactly one settled valuation, as far as declared names go.
pub fn an_accepted_text_settles_in_one_way()
    ensures { TextSettlesInOneWay }
{}

/// It has a run of every length, from any first registers and for any inputs of their widths.
pub fn an_accepted_text_has_runs()
    ensures { TextHasRuns }
{}
