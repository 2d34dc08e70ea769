//! What holds of a module that breaks none of the rules, as laws without code.
ghost use Rattle.std.specs.Prelude.{◌≡◌, ◌≤◌, ◌||◌, Bool, true, false, [], List, Contains};
ghost use Rattle.std.specs.List.{list_any};
ghost use Rattle.wb_values.specs.Value.{Name};
ghost use Rattle.verilog_trees.specs.Syntax.{Expression, Target, Statement, Item, Source};
ghost use Rattle.verilog_meaning.specs.Expression.{Scope};
ghost use Rattle.verilog_meaning.specs.Statement.{target_width};
ghost use Rattle.verilog_meaning.specs.Hierarchy.{Placed};
ghost use Rattle.verilog_rules.specs.Expression.{Position, anywhere, broken, is_unbroken};
ghost use Rattle.verilog_designs.specs.Constants.{constant_names_in_module_items};
ghost use Rattle.verilog_designs.specs.Known.{known_scope};
ghost use Rattle.verilog_designs.specs.Expressions.{by_constants, broken_target, broken_net_target, broken_statement, broken_assignments, broken_module_item, broken_module_items, broken_module};
ghost use Rattle.v_value.specs.Narrow.{IsNarrow, HasNarrowObjects};
ghost use Rattle.v_flow.specs.Narrow.{HasNarrowParts, IsNarrowFlow};
ghost use Rattle.v_sound.specs.Alike.{IsNet, AreAlike, five};

/// All names of a module without parameters have at most 128 bits.
pub fn narrow_objects()
    ensures { (source : Source) (p : Placed) → p.constants ≡ [] → is_unbroken (broken_module source p) ≡ true → HasNarrowObjects (known_scope p) }
{}

/// None of the items of a module breaks a rule.
pub fn unbroken_items()
    ensures { (source : Source) (p : Placed) (i : Item) → is_unbroken (broken_module source p) ≡ true → Contains p.of_module.items i
        → is_unbroken (broken_module_item source (known_scope p) i) ≡ true }
{}

/// None of continuous assignments breaks a rule, its target and its value.
pub fn unbroken_assignments()
    ensures { (s : Scope) (xs : List (Target × Expression)) (x : Target × Expression) → is_unbroken (broken_assignments s xs) ≡ true → Contains xs x
        → (is_unbroken (broken_net_target s by_constants x.0) ≡ true) × (is_unbroken (broken s anywhere x.1) ≡ true) }
{}

/// An expression fits words of 128 bits.
pub fn narrow_expressions()
    ensures { (s : Scope) (e : Expression) → HasNarrowObjects s → is_unbroken (broken s anywhere e) ≡ true → IsNarrow s e }
{}

/// A target has 1 to 128 bits, and so has each part of it.
pub fn narrow_targets()
    ensures { (s : Scope) (p : Position) (t : Target) → HasNarrowObjects s → is_unbroken (broken_target s p t) ≡ true
        → HasNarrowParts s t × (1 ≤ target_width s t) × (target_width s t ≤ 128) }
{}

/// The same of a target outside clocked blocks.
pub fn narrow_net_targets()
    ensures { (s : Scope) (p : Position) (t : Target) → HasNarrowObjects s → is_unbroken (broken_net_target s p t) ≡ true
        → HasNarrowParts s t × (1 ≤ target_width s t) × (target_width s t ≤ 128) }
{}

/// The expressions and the targets of a statement fit words of 128 bits.
pub fn narrow_statements()
    ensures { (s : Scope) (clocked : Bool) (x : Statement) → HasNarrowObjects s → is_unbroken (broken_statement s clocked x) ≡ true → IsNarrowFlow s x }
{}

/// Where some nets have other bits, items break the same rules, but for those on widths. So a scope with wide names can be judged by
/// one in which they are narrow.
pub fn rules_but_widths()
    ensures { (s t : Scope) (other : Name → Bool) → ((n : Name) → other n ≡ false → s n ≡ t n) → ((n : Name) → other n ≡ true → IsNet (s n)) → ((n : Name) → other n ≡ true → IsNet (t n))
        → ((n : Name) → AreAlike (s n) (t n)) → (source : Source) (items : List Item)
        → five (broken_module_items source s items) ≡ five (broken_module_items source t items) }
{}

/// Where some names are nets in a second scope, that one of them stands where a constant must is told by the rule on constants in
/// both. So it is found without a walk of its own, also of names that are not declared in the first, since their ranges have no values.
pub fn nets_as_constants()
    ensures { (s t : Scope) (net : Name → Bool) → ((n : Name) → net n ≡ false → s n ≡ t n) → ((n : Name) → net n ≡ true → IsNet (t n)) → (source : Source) (items : List Item)
        → ((broken_module_items source s items).bad_constant || (broken_module_items source t items).bad_constant)
        ≡ ((broken_module_items source s items).bad_constant || list_any net (constant_names_in_module_items source items)) }
{}
