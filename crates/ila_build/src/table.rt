//! The table of names: what each name stands for.

ghost use Rattle.std.specs.Prelude.{◌≡◌, ◌<◌, ℕ, List, OnOk, None, Some, cond, false, length};
ghost use Rattle.wb_values.specs.Value.{same_name};
ghost use Rattle.wb_terms.specs.Graph.{Graph};
ghost use Rattle.ila_build.specs.Standing.{AreIn, IsKept, under_name};

use std::collections::BTreeMap;
use wb_terms::{NoMemory, TermId};

/// Lets a name stand for a term.
pub(crate) fn remember<'v>(
    known: &mut BTreeMap<&'v [u8], TermId>,
    name: &'v str,
    term: TermId,
) -> Result<(), NoMemory>
    ensures ok { OnOk result ((q : List ℕ) → under_name known.new q ≡ cond (same_name name.now q) (Some term) (under_name known.old q)) }
    ensures kept { under_name known.old name.now ≡ None → IsKept known.old known.new }
    ensures aside { (q : List ℕ) → same_name name.now q ≡ false → under_name known.new q ≡ under_name known.old q }
    ensures in_store { (g : Graph) → AreIn g known.old None → term.0 < length g.nodes → AreIn g known.new None }
{
    known.insert(name.as_bytes(), term)?;
    Ok(())
}
