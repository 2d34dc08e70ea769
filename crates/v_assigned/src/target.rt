//! Whether a target assigns a wrong name.

ghost use Rattle.std.specs.Prelude.{◌≡◌};
ghost use Rattle.std.specs.List.{list_any};
ghost use Rattle.verilog_designs.specs.Drivers.{target_names, targets_names};
ghost use Rattle.v_syntax.specs.Tree.{target_of};
ghost use Rattle.v_statement.specs.Statements.{target_list};
ghost use Rattle.v_value.specs.Scope.{scope_at};
ghost use Rattle.v_assigned.specs.Names.{is_wrong};

use crate::name::is_wrong;
use v_scopes::ModuleScope;
use v_syntax::tree::Target;
use v_value::scope::Scope;

/// Whether a target has a name that may not be assigned there.
#[cycle(parts)]
pub(crate) fn assigns_wrong(
    target: &Target<'_>,
    names: &ModuleScope<'_>,
    scope: &Scope<'_>,
    in_block: bool,
) -> bool
    ensures { result ≡ list_any (is_wrong names.now (scope_at scope.now) in_block) (target_names (target_of target.now)) }
{
    match target {
        Target::Place(name, _) => is_wrong(names, scope, in_block, name),
        Target::Joined(targets) => one_assigns_wrong(targets, names, scope, in_block),
    }
}

#[cycle(parts)]
fn one_assigns_wrong(
    targets: &[Target<'_>],
    names: &ModuleScope<'_>,
    scope: &Scope<'_>,
    in_block: bool,
) -> bool
    ensures { result ≡ list_any (is_wrong names.now (scope_at scope.now) in_block) (targets_names (target_list targets.now)) }
{
    for target in targets {
        if assigns_wrong(target, names, scope, in_block) {
            return true;
        }
    }
    false
}
