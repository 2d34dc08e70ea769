//! Whether the bounds of a written map are in their ranges.

ghost use Rattle.std.specs.Prelude.{◌≡◌, is_some, map, option_map};
ghost use Rattle.model_meaning.specs.Model.{Model};
ghost use Rattle.verilog_trees.specs.Syntax.{Source};
ghost use Rattle.ila_file.specs.Places.{spot_view};
ghost use Rattle.map_file.specs.View.{entry_view, map_view};
ghost use Rattle.map_rules.specs.Accepted.{case_of};
ghost use Rattle.map_rules.specs.Names.{has_bad_bound, is_from_1_to};
ghost use Rattle.map_names.specs.Places.{bad_bound_spot, first_bad_bound};

use ila_file::Spot;
use map_file::{InstructionEntry, WrittenMap};

fn is_from_1_to(most: u64, number: u64) -> bool
    ensures { result ≡ is_from_1_to most number }
{
    1 <= number && number <= most
}

/// The first of the instructions' bounds that is not 1 to 256.
fn first_bad_bound<'w>(entries: &'w [InstructionEntry]) -> Option<Spot<'w>>
    ensures { option_map spot_view result ≡ first_bad_bound 0 (map entry_view entries.now) }
{
    for (index, entry) in entries.iter().enumerate() {
        if !is_from_1_to(256, entry.bound) {
            let spot = Spot::item("instructions", index, Some(entry.name.as_str()));
            return Some(spot.part("bound"));
        }
    }
    None
}

/// The first bound out of its range, that of the reset before those of the instructions.
fn first_bad<'w>(map: &'w WrittenMap) -> Option<Spot<'w>>
    ensures { option_map spot_view result ≡ bad_bound_spot (map_view map.now) }
{
    if !is_from_1_to(16, map.reset.cycles) {
        return Some(Spot::key("reset").part("cycles"));
    }
    first_bad_bound(&map.instructions)
}

/// The reset's number of cycles where it is not 1 to 16, else the first bound of an instruction that is not 1 to 256.
pub fn bad_bound<'w>(map: &'w WrittenMap) -> Option<Spot<'w>>
    ensures place { option_map spot_view result ≡ bad_bound_spot (map_view map.now) }
    ensures rule { (m : Model) (s : Source) → is_some result ≡ has_bad_bound (case_of (map_view map.now) m s) }
{
    first_bad(map)
}
