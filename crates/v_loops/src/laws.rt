//! What the answer means for a design of one module, as a law without code.

ghost use Rattle.std.specs.Prelude.{◌≡◌, ◌↔◌, [], Some, false};
ghost use Rattle.verilog_trees.specs.Syntax.{Module};
ghost use Rattle.verilog_meaning.specs.Hierarchy.{placed_scope};
ghost use Rattle.verilog_meaning.specs.Settled.{Design, at_path};
ghost use Rattle.verilog_designs.specs.Dependence.{HasLoop};
ghost use Rattle.v_hier.specs.Instances.{has_parts, module_has_parts};
ghost use Rattle.v_scopes.specs.Ports.{alone};
ghost use Rattle.v_loops.specs.OneModule.{HasLoopIn};

/// Where no module has a parameter or an instance, the design has a combinational loop exactly where its top has one.
pub fn loops_of_one_module()
    ensures { (d : Design) (m : Module) → has_parts d.source ≡ false → module_has_parts m ≡ false → at_path d [] ≡ Some (alone m)
        → HasLoop d ↔ HasLoopIn (placed_scope (alone m)) m.items }
{}
