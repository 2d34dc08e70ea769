//! The laws, each the contract of a function without code.
ghost use Rattle.verilog_exists.specs.Exists.{RangesExist, SettledValuationExists};
ghost use Rattle.verilog_exists.specs.One.{OneSettledValuation};
ghost use Rattle.verilog_exists.specs.Runs.{NextRegistersExist, RunExists};

/// Each net, variable and memory of an accepted design that is shapely has a range with a value.
pub fn ranges_of_an_accepted_design_have_values()
    ensures { RangesExist }
{}

/// An accepted design, whose tree is that of a text, has a settled valuation for any registers and any inputs of their widths.
pub fn an_accepted_design_has_a_settled_valuation()
    ensures { SettledValuationExists }
{}

/// It has exactly one, as far as declared names go.
pub fn an_accepted_design_settles_in_one_way()
    ensures { OneSettledValuation }
{}

/// An accepted design has next registers after an edge of the clock at any valuation.
pub fn an_accepted_design_has_next_registers()
    ensures { NextRegistersExist }
{}

/// An accepted design has a run of every length, from any first registers and for any inputs of their widths.
pub fn an_accepted_design_has_a_run_of_every_length()
    ensures { RunExists }
{}
