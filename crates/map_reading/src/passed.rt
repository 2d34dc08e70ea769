//! One rule: passed, or the refusal at the place where it is broken.

ghost use Rattle.std.specs.Prelude.{◌≡◌, ◌↔◌, ◌∷◌, [], None, Ok, is_some, IfOk, OnOk, IsTrue};
ghost use Rattle.ila_file.specs.Places.{spot_view};
ghost use Rattle.map_file.specs.Rule.{rule_view};
ghost use Rattle.map_file.specs.Reading.{IsRefusalAt};
ghost use Rattle.map_rules.specs.Case.{MapCase};
ghost use Rattle.map_rules.specs.Accepted.{BreaksMapRule};
ghost use Rattle.map_reading.specs.Judged.{IsPassed};

use ila_file::{NoMemory, Place, Spot};
use map_file::{MapRefusal, MapRule, MapStop};
use std::alloc::Global;

/// The refusal by a rule, with the note of a place of the map.
pub(crate) fn refused_at(alloc: Global, rule: MapRule, spot: Spot<'_>) -> MapStop
    ensures { IsRefusalAt (rule_view rule) (spot_view spot.entry) result }
{
    match Place::top(alloc).note(spot) {
        Ok(note) => MapStop::Refused(MapRefusal { rule, note }),
        Err(_) => MapStop::NoMemory,
    }
}

/// A rule that is broken at the place that is found, if one is.
pub(crate) fn passed(
    alloc: Global,
    rule: MapRule,
    found: Result<Option<Spot<'_>>, NoMemory>,
) -> Result<(), MapStop>
    ensures told { (c : MapCase) → IfOk found.entry (λ o. IsTrue (is_some o) ↔ BreaksMapRule c (rule_view rule)) → IsPassed c (rule_view rule ∷ []) result }
    ensures none { OnOk result (found.entry ≡ Ok None) }
{
    match found {
        Ok(None) => Ok(()),
        Ok(Some(spot)) => Err(refused_at(alloc, rule, spot)),
        Err(_) => Err(MapStop::NoMemory),
    }
}
