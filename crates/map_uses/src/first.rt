//! The first expression of a map that uses an input.

ghost use Rattle.std.specs.Prelude.{◌≡◌, true, false, [], length, map, IsTrue, IfOk};
ghost use Rattle.verilog_meaning.specs.Settled.{Design};
ghost use Rattle.v_syntax.specs.Source.{source_of};
ghost use Rattle.v_instances.specs.Texts.{texts};
ghost use Rattle.v_places.specs.Views.{spots_of};
ghost use Rattle.v_flat.specs.Numbered.{numbered};
ghost use Rattle.v_flat.specs.Views.{names_in};
ghost use Rattle.v_flat.specs.Whole.{IsPlacing, AreCalled};
ghost use Rattle.map_judged.specs.Asked.{asked_list};
ghost use Rattle.map_uses.specs.Users.{IsFirstUser, AreFlawlessIn};
ghost use Rattle.map_uses.specs.Table.{NoneHasNames, StandsWith, AreFlawlessWith};

use crate::asking::{first_using, is_asked};
use crate::making::table_of;
use map_judged::{KnownNames, MapExpression};
use map_sizes::laws::scopes_that_agree_judge_alike;
use std::alloc::{AllocError, Global};
use v_flat::{DottedNames, numbered_names};
use v_instances::interface::{Interfaces, interfaces_of};
use v_places::Place;
use v_syntax::module::Tree;

/// Whether an expression is asked and has names.
fn is_named(expression: &MapExpression<'_, '_>, asked: bool) -> bool
    ensures { result ≡ false → IsTrue asked → texts expression.now.names.items ≡ [] }
{
    asked && !expression.names.is_empty()
}

/// Whether one of the asked expressions has names.
fn has_names(expressions: &[MapExpression<'_, '_>], asked: &[bool]) -> bool
    ensures { result ≡ false → NoneHasNames expressions.now asked.now }
{
    for (number, expression) in expressions.iter().enumerate() {
        if is_named(expression, is_asked(asked, number)) {
            return true;
        }
    }
    false
}

/// The first of the asked expressions that uses an input, where the names of the design are called by the numbers of their modules.
fn first_numbered<'t, 'a, 's: 'a>(
    places: &'t [Place<'t, 's>],
    names: &'a DottedNames<'a>,
    interfaces: &Interfaces<'s>,
    alloc: Global,
    known: &KnownNames<'_, '_>,
    expressions: &[MapExpression<'_, '_>],
    asked: &[bool],
) -> Result<Option<usize>, AllocError>
    requires count { length names.now.places.items ≡ length places.now }
    requires called { (d : Design) → IsPlacing d (spots_of places.now)
        → AreCalled d (numbered true (spots_of places.now)) (spots_of places.now) (map names_in names.now.places.items) }
    requires flawless { (d : Design) × AreFlawlessWith d interfaces.now (spots_of places.now) expressions.now known.now }
    ensures { IfOk result (λ o. (d : Design) → AreFlawlessWith d interfaces.now (spots_of places.now) expressions.now known.now
        → IsFirstUser d (asked_list expressions.now) asked.now o) }
{
    scopes_that_agree_judge_alike();
    let table = table_of(places, names, interfaces, alloc)?;
    let user = first_using(expressions, known.scope(), &table, asked, alloc)?;
    Ok(user)
}

/// The first of the asked expressions that uses an input of the top, by its number, where none of the expressions has a flaw. An input is
/// used where a bit is read that is one of it or depends on one, by one or more steps; no condition is folded, and registers depend on
/// nothing. What has no flag is not asked.
pub fn first_user<'t, 's>(
    tree: &'t Tree<'s>,
    places: &'t [Place<'t, 's>],
    alloc: Global,
    known: &KnownNames<'_, '_>,
    expressions: &[MapExpression<'_, '_>],
    asked: &[bool],
) -> Result<Option<usize>, AllocError>
    requires { (d : Design) × AreFlawlessIn d (source_of tree.now) (spots_of places.now) expressions.now known.now }
    ensures { IfOk result (λ o. (d : Design) → AreFlawlessIn d (source_of tree.now) (spots_of places.now) expressions.now known.now
        → IsFirstUser d (asked_list expressions.now) asked.now o) }
{
    if !has_names(expressions, asked) {
        return Ok(None);
    }
    let interfaces = interfaces_of(alloc, tree)?;
    let names = numbered_names(alloc, places, true)?;
    let user = first_numbered(
        places,
        &names,
        &interfaces,
        alloc,
        known,
        expressions,
        asked,
    )?;
    Ok(user)
}
