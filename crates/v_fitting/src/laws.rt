//! What is asked of modules holds of those that break none of the rules, as laws without code.
ghost use Rattle.std.specs.Prelude.{◌≡◌, true, false, [], List};
ghost use Rattle.verilog_trees.specs.Syntax.{Item, Module, Source};
ghost use Rattle.verilog_meaning.specs.Expression.{Scope};
ghost use Rattle.verilog_meaning.specs.Hierarchy.{Placed};
ghost use Rattle.verilog_rules.specs.Expression.{is_unbroken};
ghost use Rattle.verilog_designs.specs.Known.{known_module_scope, known_scope};
ghost use Rattle.verilog_designs.specs.Names.{has_duplicate};
ghost use Rattle.verilog_designs.specs.Expressions.{broken_module_items, broken_module};
ghost use Rattle.v_value.specs.Narrow.{HasNarrowObjects};
ghost use Rattle.v_drivers.specs.Premises.{AreNarrowItems};
ghost use Rattle.v_paths.specs.Modules.{AreFitItems};
ghost use Rattle.v_undriven.specs.Premises.{AreNarrowReads};
ghost use Rattle.v_loops.specs.Turns.{IsRunnable};
ghost use Rattle.v_fitting.specs.Wires.{HavePlainWires};

/// Targets and blocks of items that break none of the rules fit words of 128 bits: drivers may be looked for.
pub fn narrow_items()
    ensures { (source : Source) (s : Scope) (items : List Item) → HasNarrowObjects s
        → is_unbroken (broken_module_items source s items) ≡ true
        → AreNarrowItems s items }
{}

/// So do the values that they read: bits without drivers may be looked for.
pub fn narrow_reads()
    ensures { (source : Source) (s : Scope) (items : List Item) → HasNarrowObjects s
        → is_unbroken (broken_module_items source s items) ≡ true
        → AreNarrowReads s items }
{}

/// Their blocks fit words, and those that are not clocked assign no memory: latches and lists of events may be looked for.
pub fn fit_items()
    ensures { (source : Source) (s : Scope) (items : List Item) → HasNarrowObjects s
        → is_unbroken (broken_module_items source s items) ≡ true
        → AreFitItems s items }
{}

/// Where no wire is a memory as well, their drivers assign no memory, and the targets of continuous assignments have constant selects:
/// loops may be looked for.
pub fn runnable_items()
    ensures { (source : Source) (s : Scope) (items : List Item) → HasNarrowObjects s
        → HavePlainWires s items
        → is_unbroken (broken_module_items source s items) ≡ true
        → IsRunnable s items }
{}

/// In a module without parameters that declares no name twice no wire is a memory as well.
pub fn plain_wires()
    ensures { (m : Module)
        → has_duplicate m ≡ false
        → HavePlainWires (known_module_scope m []) m.items }
{}

/// Drivers and bits without drivers may be looked for in a module without parameters that breaks none of the rules.
pub fn narrow_modules()
    ensures { (source : Source) (p : Placed)
        → p.constants ≡ []
        → is_unbroken (broken_module source p) ≡ true
        → AreNarrowItems (known_scope p) p.of_module.items × AreNarrowReads (known_scope p) p.of_module.items }
{}

/// And loops, where it declares no name twice.
pub fn runnable_modules()
    ensures { (source : Source) (p : Placed)
        → p.constants ≡ []
        → has_duplicate p.of_module ≡ false
        → is_unbroken (broken_module source p) ≡ true
        → IsRunnable (known_scope p) p.of_module.items }
{}
