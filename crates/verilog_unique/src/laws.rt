//! The laws, each the contract of a function without code.
ghost use Rattle.verilog_unique.specs.Finite.{PathsAreShort, BitsAreFinite, ChainsAreShort};
ghost use Rattle.verilog_unique.specs.Unique.{NextRegistersAreUnique, OneValueWhereLocal, SettledValuationIsUnique};

/// In a design that breaks no rule on the hierarchy paths are short, and all bits of declared names stand in a list.
pub fn a_design_is_finite()
    ensures paths { PathsAreShort }
    ensures bits { BitsAreFinite }
{}

/// In a design without a combinational loop a chain of bits, each of which depends on the next, has each bit once.
pub fn chains_of_dependence_are_short()
    ensures { ChainsAreShort }
{}

/// Two settled valuations of an accepted design have one value under each declared name, given that drivers determine what they
/// drive.
pub fn values_are_one_where_drivers_are_local()
    ensures { OneValueWhereLocal }
{}

/// An accepted design, whose numbers fit, has at most one settled valuation for the same registers and inputs.
pub fn a_settled_valuation_is_unique()
    ensures { SettledValuationIsUnique }
{}

/// For one valuation the registers after the clock's edge have one value under each declared name.
pub fn the_next_registers_are_unique()
    ensures { NextRegistersAreUnique }
{}
