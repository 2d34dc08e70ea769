//! What holds of designs of one module, as a law without code.

ghost use Rattle.std.specs.Prelude.{◌≡◌, [], false, Some, IsTrue};
ghost use Rattle.verilog_meaning.specs.Hierarchy.{Placed};
ghost use Rattle.verilog_meaning.specs.Settled.{Design, at_path};
ghost use Rattle.verilog_designs.specs.Names.{is_among};
ghost use Rattle.verilog_designs.specs.Clocks.{names_in_module, HasClockAsData};
ghost use Rattle.v_hier.specs.Instances.{has_parts};

/// A clock stands as data where it is a name of the top, and in a design without instances nowhere else.
pub fn the_clock_of_one_module()
    ensures found { (d : Design) (p : Placed) → at_path d [] ≡ Some p → IsTrue (is_among (names_in_module p.of_module) d.clock) → HasClockAsData d }
    ensures alone { (d : Design) (p : Placed) → has_parts d.source ≡ false → at_path d [] ≡ Some p → HasClockAsData d → IsTrue (is_among (names_in_module p.of_module) d.clock) }
{}
