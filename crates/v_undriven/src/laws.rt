//! What the answer means for a design of one module, as a law without code.

ghost use Rattle.std.specs.Prelude.{◌≡◌, ◌↔◌, [], Some, false};
ghost use Rattle.verilog_trees.specs.Syntax.{Module};
ghost use Rattle.verilog_meaning.specs.Hierarchy.{placed_scope};
ghost use Rattle.verilog_meaning.specs.Settled.{Design, at_path};
ghost use Rattle.verilog_designs.specs.Drivers.{HasUndriven};
ghost use Rattle.v_hier.specs.Instances.{has_parts, module_has_parts};
ghost use Rattle.v_scopes.specs.declared.table.ModuleScope.{ModuleScope};
ghost use Rattle.v_scopes.specs.Ports.{alone};
ghost use Rattle.v_assigned.specs.Names.{HasNamesOf};
ghost use Rattle.v_undriven.specs.Undriven.{HasUndrivenBit};

/// Where no module has a parameter or an instance, the design breaks the rule on bits without drivers exactly where its top has such a bit.
pub fn undriven_bits_of_one_module()
    ensures { (d : Design) (m : Module) (names : ModuleScope) → has_parts d.source ≡ false → module_has_parts m ≡ false → at_path d [] ≡ Some (alone m)
        → HasNamesOf names m → (HasUndriven d ↔ HasUndrivenBit (placed_scope (alone m)) names d.clock m.items) }
{}
