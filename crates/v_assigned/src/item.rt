//! Whether an item of a module assigns a wrong name.

ghost use Rattle.std.specs.Prelude.{◌≡◌, ◌∷◌, [], false, true, map};
ghost use Rattle.v_syntax.specs.Tree.{target_of, tree_of};
ghost use Rattle.v_syntax.specs.Source.{boxed_tree_of, item_of};
ghost use Rattle.verilog_meaning.specs.Settled.{wire_assignments};
ghost use Rattle.v_value.specs.Scope.{scope_at};
ghost use Rattle.v_assigned.specs.Names.{is_wrong};
ghost use Rattle.v_assigned.specs.Assigned.{one_link_assigns, names_are_bad};

use crate::name::is_wrong;
use crate::statement::has_wrong;
use crate::target::assigns_wrong;
use v_scopes::ModuleScope;
use v_syntax::module::{Assignment, Item, Wire};
use v_value::scope::Scope;

/// Whether one of continuous assignments assigns a wrong name.
fn one_link_is_wrong(
    assignments: &[Assignment<'_>],
    names: &ModuleScope<'_>,
    scope: &Scope<'_>,
) -> bool
    ensures { result ≡ one_link_assigns (is_wrong names.now (scope_at scope.now) false) (map (λ a. (target_of a.target, tree_of a.value)) assignments.now) }
{
    for assignment in assignments {
        if assigns_wrong(&assignment.target, names, scope, false) {
            return true;
        }
    }
    false
}

/// Whether a net that its declaration gives a value may not be assigned.
fn wire_is_wrong(wire: &Wire<'_>, names: &ModuleScope<'_>, scope: &Scope<'_>) -> bool
    ensures { result ≡ one_link_assigns (is_wrong names.now (scope_at scope.now) false) (wire_assignments ((wire.now.name.now, boxed_tree_of wire.now.value) ∷ [])) }
{
    if wire.value.is_none() {
        return false;
    }
    is_wrong(names, scope, false, wire.name)
}

/// Whether one of the nets of a declaration is wrong.
fn one_wire_is_wrong(wires: &[Wire<'_>], names: &ModuleScope<'_>, scope: &Scope<'_>) -> bool
    ensures { result ≡ one_link_assigns (is_wrong names.now (scope_at scope.now) false) (wire_assignments (map (λ w. (w.name.now, boxed_tree_of w.value)) wires.now)) }
{
    for wire in wires {
        if wire_is_wrong(wire, names, scope) {
            return true;
        }
    }
    false
}

/// Whether an item assigns a wrong name.
fn item_is_wrong(item: &Item<'_>, names: &ModuleScope<'_>, scope: &Scope<'_>) -> bool
    ensures { result ≡ names_are_bad names.now (scope_at scope.now) (item_of item.now ∷ []) }
{
    match item {
        Item::Wires(_, _, wires) => one_wire_is_wrong(wires, names, scope),
        Item::Assign(assignments) => one_link_is_wrong(assignments, names, scope),
        Item::Always(_, block) => has_wrong(block, names, scope),
        Item::Port(_) | Item::Parameter(_) | Item::Variables(_, _, _) | Item::Instances(_, _, _) =>
            false,
    }
}

/// Whether one of a module's items assigns a name that it may not assign (1364-2005, 6.1, 9.2, 12.3.3): a block a wire, a continuous
/// assignment a variable, or either an input port or a parameter. These are the names that the module declares, and its scope.
pub fn has_bad_name(items: &[Item<'_>], names: &ModuleScope<'_>, scope: &Scope<'_>) -> bool
    ensures { result ≡ names_are_bad names.now (scope_at scope.now) (map item_of items.now) }
{
    for item in items {
        if item_is_wrong(item, names, scope) {
            return true;
        }
    }
    false
}
