//! Definitions: names that stand for terms, each of which sees the definitions before it.

ghost use Rattle.std.specs.Prelude.{◌≡◌, ℕ, List, [], ◌∷◌, false, map, None, OnOk};
ghost use Rattle.wb_values.specs.Value.{same_name};
ghost use Rattle.ila_file.specs.View.{definition_view, term_view};
ghost use Rattle.ila_build.specs.Leaving.{IsLeft};
ghost use Rattle.ila_build.specs.Sizes.{size_of, sizes_of};
ghost use Rattle.ila_build.specs.Standing.{AreIn, IsGrown, under_name};
ghost use Rattle.ila_build.specs.Knowing.{AreDefined, defined_names};

use crate::putting::{put_term, under_name};
use crate::table::remember;
use ila_file::Definition;
use std::collections::BTreeMap;
use wb_terms::{PutStop, TermId, Terms};

/// Puts a definition's term, and lets its name stand for it.
fn put_definition<'v>(
    terms: &mut Terms,
    known: &mut BTreeMap<&'v [u8], TermId>,
    definition: &Definition<'v>,
) -> Result<(), PutStop>
    requires { AreIn terms.old known.old None }
    ensures grown { IsGrown terms.old terms.new }
    ensures left { IsLeft terms.old known.old terms.new known.new (definition.now.name.now ∷ []) (size_of (term_view definition.now.term)) }
    ensures aside { OnOk result ((q : List ℕ) → same_name definition.now.name.now q ≡ false → under_name known.new q ≡ under_name known.old q) }
    ensures defined { AreDefined terms.old known.old terms.new known.new result (definition_view definition.now ∷ []) }
{
    if under_name(known, definition.name).is_some() {
        return Err(PutStop::BadSort);
    }
    let term = put_term(terms, known, None, &definition.term)?;
    if remember(known, definition.name, term).is_err() {
        return Err(PutStop::NoMemory);
    }
    Ok(())
}

/// Puts the terms of definitions in their order, and lets their names stand for them. What a name stands for is shared.
pub fn put_definitions<'v>(
    terms: &mut Terms,
    known: &mut BTreeMap<&'v [u8], TermId>,
    definitions: &[Definition<'v>],
) -> Result<(), PutStop>
    requires { AreIn terms.old known.old None }
    ensures grown { IsGrown terms.old terms.new }
    ensures left { IsLeft terms.old known.old terms.new known.new (defined_names (map definition_view definitions.now)) (sizes_of (map definition_view definitions.now)) }
    ensures defined { AreDefined terms.old known.old terms.new known.new result (map definition_view definitions.now) }
{
    for definition in definitions {
        put_definition(terms, known, definition)?;
    }
    Ok(())
}
