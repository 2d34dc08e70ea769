//! What the answers on drivers mean for a module, and for a design of one module, as laws without code.

ghost use Rattle.std.specs.Prelude.{◌≡◌, ◌↔◌, ◌⊎◌, List, [], Some, false, IsTrue};
ghost use Rattle.verilog_trees.specs.Syntax.{Item, Module};
ghost use Rattle.verilog_meaning.specs.Hierarchy.{Placed, placed_scope};
ghost use Rattle.verilog_meaning.specs.Settled.{Design, at_path};
ghost use Rattle.verilog_designs.specs.Drivers.{HasBadDriver};
ghost use Rattle.v_hier.specs.Instances.{has_parts, module_has_parts};
ghost use Rattle.v_scopes.specs.declared.table.ModuleScope.{ModuleScope};
ghost use Rattle.v_scopes.specs.Ports.{alone};
ghost use Rattle.v_drivers.specs.Sets.{drivers, TwoMeet};
ghost use Rattle.v_assigned.specs.Names.{HasNamesOf};
ghost use Rattle.v_assigned.specs.Assigned.{names_are_bad};
ghost use Rattle.v_assigned.specs.Rule.{AssignsBadName};

/// Items of a module, whichever its parameters have as values, assign a name that is found wrong exactly where they assign one that they
/// may not.
pub fn bad_names_of_a_module()
    ensures { (p : Placed) (names : ModuleScope) (items : List Item) → HasNamesOf names p.of_module
        → (IsTrue (names_are_bad names (placed_scope p) items) ↔ AssignsBadName p items) }
{}

/// Where no module has a parameter or an instance, the design breaks the rule on drivers exactly where two drivers of its top meet, or a
/// name is assigned where it may not be.
pub fn bad_drivers_of_one_module()
    ensures { (d : Design) (m : Module) (names : ModuleScope) → has_parts d.source ≡ false → module_has_parts m ≡ false → at_path d [] ≡ Some (alone m)
        → HasNamesOf names m
        → (HasBadDriver d ↔ (TwoMeet (placed_scope (alone m)) (drivers (placed_scope (alone m)) m.items) ⊎ IsTrue (names_are_bad names (placed_scope (alone m)) m.items))) }
{}
