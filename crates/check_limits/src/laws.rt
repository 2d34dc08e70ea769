//! Laws on limits: the memory bits of a design's registers are those that its source declares, and a limit is one.

ghost use Rattle.std.specs.Prelude.{◌≡◌, ℕ, Some, slice_get};
ghost use Rattle.wb_values.specs.Value.{Name, Sort};
ghost use Rattle.verilog_meaning.specs.Settled.{Design};
ghost use Rattle.v_design.specs.Registers.{CountedBits};
ghost use Rattle.v_design.specs.Parts.{Parts, registers_of};
ghost use Rattle.v_design.specs.Design.{IsDesignOf};
ghost use Rattle.check_limits.specs.Limits.{register_bits_of};
ghost use Rattle.check_limits.specs.Sources.{DeclaresBits};
ghost use Rattle.check_limits.specs.Unique.{OneLimit};

use design_cycles::laws::{an_accepted_design_has_cycles, registers_stand_in_one_order};

/// Each register of a design counts with the memory bits that its source declares. (Each memory of the source is a register.)
pub fn registers_count_as_declared()
    ensures { (d : Design) (e : Parts) (k : ℕ) (n : Name) (s : Sort) (c : CountedBits) → IsDesignOf d e → slice_get (registers_of e) k ≡ Some (n, s)
        → slice_get e.bits k ≡ Some c → DeclaresBits d n (register_bits_of s c) }
{}

/// A model has one limit with a design, whichever parts stand for the design.
pub fn a_design_has_one_limit()
    ensures { OneLimit }
{
    an_accepted_design_has_cycles();
    registers_stand_in_one_order();
}
