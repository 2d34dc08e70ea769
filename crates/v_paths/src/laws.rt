//! What the conditions of the calls ask for, and what the answers on a module mean for a design that is this module alone, as laws without
//! code.

ghost use Rattle.std.specs.Prelude.{◌≡◌, ◌↔◌, Bool, false, Some, [], Contains};
ghost use Rattle.wb_values.specs.Value.{Name, same_name};
ghost use Rattle.verilog_trees.specs.Syntax.{Statement, Events, Module};
ghost use Rattle.verilog_meaning.specs.Expression.{Scope, is_memory};
ghost use Rattle.verilog_meaning.specs.Hierarchy.{module_named, module_scope};
ghost use Rattle.verilog_meaning.specs.Settled.{Design};
ghost use Rattle.verilog_designs.specs.Drivers.{assigned_names};
ghost use Rattle.verilog_designs.specs.Paths.{IsEventList, HasBadEventList, HasLatch};
ghost use Rattle.v_hier.specs.Instances.{has_parts};
ghost use Rattle.v_scopes.specs.Ports.{alone};
ghost use Rattle.v_paths.specs.Premises.{AssignsNoMemory};
ghost use Rattle.v_paths.specs.Events.{IsEventListIn};
ghost use Rattle.v_paths.specs.Modules.{HasLatchIn, HasBadEventListIn};

/// A statement assigns no bit of a memory where none of the names that it assigns is one.
pub fn memories_by_names()
    ensures { (s : Scope) (x : Statement) → ((n : Name) → Contains (assigned_names x) n → is_memory (s n) ≡ false) → AssignsNoMemory s x }
{}

/// In a design in which no module of the source has a parameter or an instance, and whose top is the module m of the source: a block of m
/// may have the lists of events that a block of the design may have at its top, where the design's clock is the one clock, in the scope
/// of m.
pub fn event_lists_of_one_module()
    ensures { (d : Design) (m : Module) (is_clock_net : Name → Bool) (x : Statement) (es : Events) → ((n : Name) → is_clock_net n ≡ same_name d.clock n)
        → has_parts d.source ≡ false → module_named d.source d.top ≡ Some m
        → (IsEventListIn (module_scope m []) is_clock_net x es ↔ IsEventList d (alone m) x es) }
{}

/// In a design in which no module of the source has a parameter or an instance, and whose top is the module m of the source: the design
/// has a latch exactly where some combinational block among the items of m has one, in the scope of m.
pub fn latches_of_one_module()
    ensures { (d : Design) (m : Module) → has_parts d.source ≡ false → module_named d.source d.top ≡ Some m
        → (HasLatchIn (module_scope m []) m.items ↔ HasLatch d) }
{}

/// In a design in which no module of the source has a parameter or an instance, and whose top is the module m of the source: the design
/// has a block with a list of events that it may not have exactly where one stands among the items of m, in the scope of m and with the
/// design's clock as the one clock.
pub fn bad_event_lists_of_one_module()
    ensures { (d : Design) (m : Module) (is_clock_net : Name → Bool) → ((n : Name) → is_clock_net n ≡ same_name d.clock n) → has_parts d.source ≡ false
        → module_named d.source d.top ≡ Some m
        → (HasBadEventListIn (module_scope m []) is_clock_net m.items ↔ HasBadEventList d) }
{}
