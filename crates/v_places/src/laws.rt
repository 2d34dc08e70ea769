//! What holds of the modules that stand in a design, as a law without code.
ghost use Rattle.std.specs.Prelude.{◌≡◌, List, option_map};
ghost use Rattle.wb_values.specs.Value.{Name};
ghost use Rattle.verilog_trees.specs.Syntax.{Source};
ghost use Rattle.verilog_meaning.specs.Hierarchy.{PathStep, Placed, placed_at};
ghost use Rattle.verilog_designs.specs.Known.{known_at};

/// The module at a path is the same whether all parameters have their values or those alone that are known, and it is there in both cases
/// or in neither.
pub fn modules_rest_on_no_parameter()
    ensures { (source : Source) (top : Name) (path : List PathStep)
        → option_map (λ (p : Placed). p.of_module) (known_at source top path) ≡ option_map (λ (p : Placed). p.of_module) (placed_at source top path) }
{}
