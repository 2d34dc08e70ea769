//! What the answer means for a design, as a law without code.

ghost use Rattle.std.specs.Prelude.{◌≡◌, ◌↔◌, []};
ghost use Rattle.verilog_meaning.specs.Hierarchy.{Placed, placed_scope};
ghost use Rattle.verilog_meaning.specs.Settled.{Design, port_connections};
ghost use Rattle.verilog_designs.specs.Drivers.{HasTwoDrivers};
ghost use Rattle.v_drivers.specs.Sets.{drivers, TwoMeet};

/// Within a module that has no instances, a bit or a memory has two drivers exactly where two sets of the list of its drivers meet.
pub fn two_drivers_of_one_module()
    ensures { (d : Design) (p : Placed) → port_connections p.of_module.items ≡ []
        → HasTwoDrivers d p ↔ TwoMeet (placed_scope p) (drivers (placed_scope p) p.of_module.items) }
{}
