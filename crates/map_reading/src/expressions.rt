//! The rules on expressions of a map that stands for a map of trees: bad ones, those of other widths than they must have, and those that use
//! an input where none may come in.

ghost use Rattle.std.specs.Prelude.{◌≡◌, ◌↔◌, ◌∷◌, [], None, is_some, IfOk, IsTrue};
ghost use Rattle.verilog_meaning.specs.Settled.{Design};
ghost use Rattle.refinement.specs.Map.{Map};
ghost use Rattle.v_syntax.specs.Source.{source_of};
ghost use Rattle.map_files.specs.Meaning.{BadExpression, WidthMismatch, MapUsesInput};
ghost use Rattle.map_file.specs.View.{map_view};
ghost use Rattle.map_rules.specs.Case.{MapCase, case_design};
ghost use Rattle.map_rules.specs.Expressions.{HasBadExpression};
ghost use Rattle.map_rules.specs.Inputs.{HasMapInput};
ghost use Rattle.map_rules.specs.Mapped.{HasWidthMismatch};
ghost use Rattle.v_places.specs.Views.{spots_of};
ghost use Rattle.map_judged.specs.Asked.{asked_list, names_asked, AreNamed};
ghost use Rattle.map_judged.specs.Flaws.{IsFirstFlaw};
ghost use Rattle.map_judged.specs.Known.{AreKnown, StandsAt};
ghost use Rattle.map_uses.specs.Users.{AreFlawlessIn};
ghost use Rattle.map_uses.specs.Whole.{asked_flags};
ghost use Rattle.map_reading.specs.Judged.{IsPassed};
ghost use Rattle.map_reading.specs.Asked.{AreAsked, IsCaseAt};

use crate::passed::passed;
use crate::places::place_at;
use ila_file::{NoMemory, Spot};
use map_file::{MapRule, MapStop, WrittenMap};
use map_judged::laws::{flaws_are_bad_expressions, mismatches_are_width_mismatches};
use map_judged::{KnownNames, MapExpression, first_flaw, first_mismatch, is_reset};
use map_uses::first_user;
use map_uses::laws::{first_users_break_the_rule, read_expressions_are_of_texts};
use ready_maps::laws::texts_are_shapely;
use std::alloc::Global;
use v_places::Place;
use v_syntax::module::Tree;

/// The first bad expression, or the reset where it is none.
fn bad_expression<'p, 't>(
    alloc: Global,
    places: &'p [Place<'p, '_>],
    expressions: &[MapExpression<'_, '_>],
    known: &KnownNames<'_, '_>,
    map: &WrittenMap,
    spots: &[Spot<'t>],
) -> Result<Option<Spot<'t>>, NoMemory>
    ensures told { IfOk result (λ o. (c : MapCase) (p : Map) → AreAsked c p expressions.now known.now → c.written ≡ map_view map.now
        → StandsAt (case_design c) (spots_of places.now) → IsTrue (is_some o) ↔ HasBadExpression c) }
    ensures clean { IfOk result (λ o. o ≡ None → (d : Design) → AreKnown d (names_asked (asked_list expressions.now)) known.now → AreNamed expressions.now
        → IsFirstFlaw d (asked_list expressions.now) None) }
{
    flaws_are_bad_expressions();
    if let Some(flaw) = first_flaw(expressions, known) {
        return Ok(Some(place_at(spots, flaw.index)));
    }
    let clock = map.clock.as_str();
    let signal = map.reset.signal.as_str();
    let reset = is_reset(alloc, places, clock, signal)?;
    if reset {
        return Ok(None);
    }
    Ok(Some(Spot::key("reset")))
}

/// The first expression of another width than it must have.
fn width_mismatch<'t>(
    expressions: &[MapExpression<'_, '_>],
    known: &KnownNames<'_, '_>,
    spots: &[Spot<'t>],
) -> Option<Spot<'t>>
    ensures { (c : MapCase) (p : Map) → AreAsked c p expressions.now known.now → IsTrue (is_some result) ↔ HasWidthMismatch c }
{
    mismatches_are_width_mismatches();
    match first_mismatch(expressions, known) {
        Some(index) => Some(place_at(spots, index)),
        None => None,
    }
}

/// The first of the expressions with a flag that uses an input, where none of all has a flaw.
fn input_user<'p, 't, 's>(
    tree: &'p Tree<'s>,
    places: &'p [Place<'p, 's>],
    alloc: Global,
    expressions: &[MapExpression<'_, '_>],
    known: &KnownNames<'_, '_>,
    asked: &[bool],
    spots: &[Spot<'t>],
) -> Result<Option<Spot<'t>>, NoMemory>
    requires { (d : Design) × AreFlawlessIn d (source_of tree.now) (spots_of places.now) expressions.now known.now }
    ensures { IfOk result (λ o. (c : MapCase) (p : Map) → AreAsked c p expressions.now known.now → asked.now ≡ asked_flags c.model p
        → AreFlawlessIn (case_design c) (source_of tree.now) (spots_of places.now) expressions.now known.now → IsTrue (is_some o) ↔ HasMapInput c) }
{
    first_users_break_the_rule();
    match first_user(tree, places, alloc, known, expressions, asked) {
        Ok(Some(index)) => Ok(Some(place_at(spots, index))),
        Ok(None) => Ok(None),
        Err(stop) => Err(stop),
    }
}

/// No expression is bad, none has another width than it must have, and none with a flag uses an input; or the refusal by the first of these
/// rules that is broken.
pub(crate) fn expressions_passed<'t, 's>(
    tree: &'t Tree<'s>,
    places: &'t [Place<'t, 's>],
    alloc: Global,
    expressions: &[MapExpression<'_, '_>],
    known: &KnownNames<'_, '_>,
    asked: &[bool],
    map: &WrittenMap,
    spots: &[Spot<'_>],
) -> Result<(), MapStop>
    requires { (c : MapCase) × (p : Map) × IsCaseAt c (map_view map.now) (source_of tree.now) (spots_of places.now) × AreAsked c p expressions.now known.now }
    ensures { (c : MapCase) (p : Map) → IsCaseAt c (map_view map.now) (source_of tree.now) (spots_of places.now) → AreAsked c p expressions.now known.now
        → asked.now ≡ asked_flags c.model p → IsPassed c (BadExpression ∷ WidthMismatch ∷ MapUsesInput ∷ []) result }
{
    texts_are_shapely();
    read_expressions_are_of_texts();
    let bad = bad_expression(alloc, places, expressions, known, map, spots);
    passed(alloc, MapRule::BadExpression, bad)?;
    let differing = width_mismatch(expressions, known, spots);
    passed(alloc, MapRule::WidthMismatch, Ok(differing))?;
    let user = input_user(tree, places, alloc, expressions, known, asked, spots);
    passed(alloc, MapRule::MapUsesInput, user)
}
