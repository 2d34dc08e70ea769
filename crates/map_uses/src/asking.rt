//! Which expressions use inputs, by the table of a design.

ghost use Rattle.std.specs.Prelude.{◌≡◌, ◌↔◌, ℕ, List, IsTrue, IfOk};
ghost use Rattle.verilog_meaning.specs.Settled.{Design};
ghost use Rattle.map_rules.specs.Inputs.{UsesInput};
ghost use Rattle.v_syntax.specs.Tree.{tree_of};
ghost use Rattle.v_instances.specs.Texts.{texts};
ghost use Rattle.v_value.specs.Scope.{scope_at};
ghost use Rattle.v_value.specs.Narrow.{IsNarrow, HasNarrowObjects};
ghost use Rattle.v_masks.specs.Masks.{masked};
ghost use Rattle.map_judged.specs.Asked.{asked_list};
ghost use Rattle.map_uses.specs.Users.{IsMarked, IsFirstUser};
ghost use Rattle.map_uses.specs.Table.{new_name_in, TellsInputs, IsKnownIn, AreKnownIn, AreNarrowIn};
ghost use Rattle.map_uses.specs.Texts.{AreNewTexts, old_names};

use crate::names::{NewTexts, names_in, texts_for};
use crate::table::InputTable;
use map_inputs::laws::expressions_use_the_same;
use map_inputs::uses_input;
use map_judged::MapExpression;
use std::alloc::{AllocError, Global};
use std::collections::BTreeMap;
use v_syntax::tree::Expression;
use v_value::scope::Scope;

/// Whether the flag with a number is set.
pub(crate) fn is_asked(asked: &[bool], number: usize) -> bool
    ensures { IsTrue result ↔ IsMarked asked.now number }
{
    match asked.get(number) {
        Some(mark) => *mark,
        None => false,
    }
}

/// Whether an expression with these names uses an input, in a scope that has them.
fn uses<'a, 's: 'a>(
    tree: &Expression<'s>,
    texts: &'a NewTexts<'a>,
    scope: &Scope<'_>,
    marked: &BTreeMap<&str, u128>,
    alloc: Global,
) -> Result<bool, AllocError>
    requires objects { HasNarrowObjects (scope_at scope.now) }
    requires narrow { IsNarrow (scope_at scope.now) (tree_of tree.now) }
    ensures { IfOk result (λ r. (d : Design) (new : List ℕ → List ℕ) → TellsInputs d new (masked marked.now) → AreNewTexts new texts.now.list.items
        → IsKnownIn d (scope_at scope.now) (old_names texts.now.list.items) (tree_of tree.now) → IsTrue r ↔ UsesInput d (tree_of tree.now)) }
{
    expressions_use_the_same();
    let names = names_in(alloc, texts)?;
    let used = uses_input(alloc, tree, scope, &names, marked)?;
    Ok(used)
}

/// Whether an expression is asked and uses an input, in a scope that has its names.
fn is_user(
    expression: &MapExpression<'_, '_>,
    scope: &Scope<'_>,
    table: &InputTable<'_, '_>,
    asked: bool,
    alloc: Global,
) -> Result<bool, AllocError>
    requires objects { HasNarrowObjects (scope_at scope.now) }
    requires narrow { IsNarrow (scope_at scope.now) (tree_of expression.now.tree.now) }
    ensures { IfOk result (λ r. (d : Design) → TellsInputs d (new_name_in table.now) (masked table.now.marked)
        → IsKnownIn d (scope_at scope.now) (texts expression.now.names.items) (tree_of expression.now.tree.now)
        → IsTrue r ↔ (IsTrue asked × UsesInput d (tree_of expression.now.tree.now))) }
{
    if !asked {
        return Ok(false);
    }
    let texts = texts_for(expression, table, alloc)?;
    let used = uses(expression.tree, &texts, scope, &table.marked, alloc)?;
    Ok(used)
}

/// The first of the asked expressions that uses an input.
pub(crate) fn first_using(
    expressions: &[MapExpression<'_, '_>],
    scope: &Scope<'_>,
    table: &InputTable<'_, '_>,
    asked: &[bool],
    alloc: Global,
) -> Result<Option<usize>, AllocError>
    requires objects { HasNarrowObjects (scope_at scope.now) }
    requires narrow { AreNarrowIn (scope_at scope.now) expressions.now }
    ensures { IfOk result (λ o. (d : Design) → TellsInputs d (new_name_in table.now) (masked table.now.marked) → AreKnownIn d (scope_at scope.now) expressions.now
        → IsFirstUser d (asked_list expressions.now) asked.now o) }
{
    for (number, expression) in expressions.iter().enumerate() {
        let used = is_user(expression, scope, table, is_asked(asked, number), alloc)?;
        if used {
            return Ok(Some(number));
        }
    }
    Ok(None)
}
